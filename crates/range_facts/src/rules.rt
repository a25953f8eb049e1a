// The facts of sums, differences and other values.
ghost use Rattle.std.specs.Prelude.{◌≡◌, ◌<◌, ◌≤ℤ◌, ◌-◌, ◌*◌, ◌^◌, ◌*ℤ◌, ℕ, negsuc, pos};
ghost use Rattle.std.specs.Int.{IsGcd};
ghost use Rattle.mips_ref.specs.Act.{fits_word};
ghost use Rattle.range_facts.specs.Ranges.{IsFact};
ghost use Rattle.range_facts.specs.Transfer as meaning;

use crate::strided::{Strided, is_constant, range, unknown, up_to};
use mips_isa::{ImmOp, LoadOp, R3Op, ShiftOp};

// Whether a number is a signed word.
fn fits(z: i64) -> bool
    ensures { result ≡ fits_word z }
{
    -0x8000_0000 <= z && z <= 0x7fff_ffff
}

// A range, or unknown where an end isn't a signed word.
fn within_words(lo: i64, hi: i64, stride: u32) -> Strided
    ensures { result ≡ meaning.within_words lo hi stride }
{
    if fits(lo) && fits(hi) {
        range(lo, hi, stride)
    } else {
        unknown()
    }
}

// Euclid's algorithm.
fn euclid(a: u32, b: u32) -> u32
    ensures { IsGcd a b result }
{
    let mut x = a;
    let mut y = b;
    while y != 0 {
        let rest = x % y;
        x = y;
        y = rest;
    }
    x
}

fn greatest_divisor(a: u32, b: u32) -> u32
    requires { 0 < a }
    ensures { result ≡ meaning.divisor_up_to a a b }
{
    euclid(a, b)
}

// The greatest common divisor of the strides, those of constants aside.
#[tactic(auto, unfolding(crate::specs::Transfer::common_stride))]
fn common_stride(a: Strided, b: Strided) -> u32
    requires { IsFact a }
    ensures { result ≡ meaning.common_stride a b }
{
    if is_constant(a) {
        b.stride
    } else if is_constant(b) {
        a.stride
    } else {
        greatest_divisor(a.stride, b.stride)
    }
}

#[tactic(auto, unfolding(crate::specs::Transfer::sum_fact))]
fn sum_fact(a: Strided, b: Strided) -> Strided
    requires first { IsFact a }
    requires second { IsFact b }
    ensures { result ≡ meaning.sum_fact a b }
{
    within_words(a.lo + b.lo, a.hi + b.hi, common_stride(a, b))
}

#[tactic(auto, unfolding(crate::specs::Transfer::difference_fact))]
fn difference_fact(a: Strided, b: Strided) -> Strided
    requires first { IsFact a }
    requires second { IsFact b }
    ensures { result ≡ meaning.difference_fact a b }
{
    within_words(a.lo - b.hi, a.hi - b.lo, common_stride(a, b))
}

#[tactic(auto, unfolding(crate::specs::Transfer::moved_fact))]
fn moved_fact(a: Strided, by: i16) -> Strided
    requires { IsFact a }
    ensures { result ≡ meaning.moved_fact a by }
{
    within_words(a.lo + i64::from(by), a.hi + i64::from(by), a.stride)
}

// A signed word times a power of two.
fn scaled(z: i64, sa: u8) -> i64
    requires low { negsuc (2 ^ 31 - 1) ≤ℤ z }
    requires high { z ≤ℤ pos (2 ^ 31 - 1) }
    requires amount { sa < 32 }
    ensures { result ≡ z *ℤ pos (2 ^ sa) }
{
    z * i64::from(1u32 << sa)
}

fn scaled_stride(stride: u32, sa: u8) -> u64
    requires { sa < 32 }
    ensures { result ≡ stride * 2 ^ sa }
{
    u64::from(stride) << sa
}

#[tactic(auto, unfolding(crate::specs::Transfer::scaled_fact))]
fn scaled_fact(a: Strided, sa: u8) -> Strided
    requires fact { IsFact a }
    requires amount { sa < 32 }
    ensures { result ≡ meaning.scaled_fact a sa }
{
    let stride = scaled_stride(a.stride, sa);
    if stride < 0x1_0000_0000 {
        within_words(scaled(a.lo, sa), scaled(a.hi, sa), stride as u32)
    } else {
        unknown()
    }
}

fn is_zero(s: Strided) -> bool
    ensures { result ≡ meaning.is_zero s }
{
    s.lo == 0 && s.hi == 0
}

// The other operand where one is the constant 0.
fn copied_or(a: Strided, b: Strided, other: Strided) -> Strided
    ensures { result ≡ meaning.copied_or a b other }
{
    if is_zero(b) {
        a
    } else if is_zero(a) {
        b
    } else {
        other
    }
}

#[tactic(auto, unfolding(crate::specs::Transfer::r3_fact))]
pub fn r3_fact(m: R3Op, a: Strided, b: Strided) -> Strided
    requires first { IsFact a }
    requires second { IsFact b }
    ensures { result ≡ meaning.r3_fact m a b }
{
    match m {
        R3Op::Or => copied_or(a, b, unknown()),
        R3Op::Addu | R3Op::Add => copied_or(a, b, sum_fact(a, b)),
        R3Op::Subu | R3Op::Sub => difference_fact(a, b),
        R3Op::Slt | R3Op::Sltu => up_to(1),
        _ => unknown(),
    }
}

// The greatest word of so many bits.
fn greatest(bits: u8) -> u32
    requires { bits < 32 }
    ensures { result ≡ 2 ^ bits - 1 }
{
    (1u32 << bits) - 1
}

#[tactic(auto, unfolding(crate::specs::Transfer::shift_fact))]
pub fn shift_fact(m: ShiftOp, sa: u8, a: Strided) -> Strided
    requires fact { IsFact a }
    requires amount { sa < 32 }
    ensures { result ≡ meaning.shift_fact m sa a }
{
    match m {
        ShiftOp::Sll => scaled_fact(a, sa),
        ShiftOp::Srl => {
            if sa == 0 {
                unknown()
            } else {
                up_to(greatest(32 - sa))
            }
        }
        ShiftOp::Sra => unknown(),
    }
}

#[tactic(auto, unfolding(crate::specs::Transfer::imm_fact))]
pub fn imm_fact(m: ImmOp, imm: u16, a: Strided) -> Strided
    requires { IsFact a }
    ensures { result ≡ meaning.imm_fact m imm a }
{
    match m {
        ImmOp::Addi | ImmOp::Addiu => moved_fact(a, imm.cast_signed()),
        ImmOp::Andi => up_to(u32::from(imm)),
        ImmOp::Slti | ImmOp::Sltiu => up_to(1),
        ImmOp::Ori | ImmOp::Xori => unknown(),
    }
}

#[tactic(auto, unfolding(crate::specs::Transfer::load_fact))]
pub fn load_fact(m: LoadOp) -> Strided
    ensures { result ≡ meaning.load_fact m }
{
    match m {
        LoadOp::Lb => range(-0x80, 0x7f, 1),
        LoadOp::Lbu => up_to(0xff),
        LoadOp::Lh => range(-0x8000, 0x7fff, 1),
        LoadOp::Lhu => up_to(0xffff),
        _ => unknown(),
    }
}
