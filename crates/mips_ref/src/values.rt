// The values that instructions compute, by group.
ghost use Rattle.std.specs.Prelude.{◌≡◌, ◌<◌, ◌*◌, ◌+ℤ◌, ◌-ℤ◌, ◌^◌, int_div, int_rem};
ghost use Rattle.mips_isa.specs.Words as words;
ghost use Rattle.mips_ref.specs.Act as meaning;

use crate::records::Values;
use mips_isa::{
    AccOp, Branch1Op, Branch2Op, CountOp, HiLoOp, ImmOp, JumpOp, R3Op, ShiftOp, TrapIfOp,
};

// A value for a register; register 0 isn't written.
pub fn to_register(r: u8, value: u32) -> Option<u64>
    ensures { result ≡ meaning.to_register r value }
{
    if r == 0 { None } else { Some(u64::from(value)) }
}

fn flag(b: bool) -> u32
    ensures { result ≡ meaning.flag b }
{
    u32::from(b)
}

fn less_signed(a: u32, b: u32) -> bool
    ensures { result ≡ meaning.less_signed a b }
{
    a.cast_signed() < b.cast_signed()
}

// A signed sum or difference, or None where it doesn't fit a word.
fn sum_if_fits(a: u32, b: u32) -> Option<u32>
    ensures { result ≡ meaning.word_if_fits (words.signed a +ℤ words.signed b) }
{
    match a.cast_signed().checked_add(b.cast_signed()) {
        None => None,
        Some(sum) => Some(sum.cast_unsigned()),
    }
}

fn difference_if_fits(a: u32, b: u32) -> Option<u32>
    ensures { result ≡ meaning.word_if_fits (words.signed a -ℤ words.signed b) }
{
    match a.cast_signed().checked_sub(b.cast_signed()) {
        None => None,
        Some(difference) => Some(difference.cast_unsigned()),
    }
}

fn shifted_left(a: u32, k: u32) -> u32
    requires { k < 32 }
    ensures { result ≡ meaning.shifted_left a k }
{
    a << k
}

fn shifted_right(a: u32, k: u32) -> u32
    requires { k < 32 }
    ensures { result ≡ meaning.shifted_right a k }
{
    a >> k
}

fn shifted_signed(a: u32, k: u32) -> u32
    requires { k < 32 }
    ensures { result ≡ meaning.shifted_signed a k }
{
    (a.cast_signed() >> k).cast_unsigned()
}

/// The value of an instruction with three registers, or None on overflow.
#[tactic(auto, unfolding(crate::specs::Act::r3_value))]
pub fn r3_value(m: R3Op, v: Values) -> Option<u32>
    ensures { result ≡ meaning.r3_value m v }
{
    let Values { rs, rt, rd, .. } = v;
    match m {
        R3Op::Sllv => Some(shifted_left(rt, rs % 32)),
        R3Op::Srlv => Some(shifted_right(rt, rs % 32)),
        R3Op::Srav => Some(shifted_signed(rt, rs % 32)),
        R3Op::Movz => Some(if rt == 0 { rs } else { rd }),
        R3Op::Movn => Some(if rt == 0 { rd } else { rs }),
        R3Op::Add => sum_if_fits(rs, rt),
        R3Op::Addu => Some(rs.wrapping_add(rt)),
        R3Op::Sub => difference_if_fits(rs, rt),
        R3Op::Subu => Some(rs.wrapping_sub(rt)),
        R3Op::And => Some(rs & rt),
        R3Op::Or => Some(rs | rt),
        R3Op::Xor => Some(rs ^ rt),
        R3Op::Nor => Some(!(rs | rt)),
        R3Op::Slt => Some(flag(less_signed(rs, rt))),
        R3Op::Sltu => Some(flag(rs < rt)),
        R3Op::Mul => Some(rs.wrapping_mul(rt)),
    }
}

#[tactic(auto, unfolding(crate::specs::Act::shift_value))]
pub fn shift_value(m: ShiftOp, sa: u8, v: Values) -> u32
    requires { sa < 32 }
    ensures { result ≡ meaning.shift_value m sa v }
{
    let rt = v.rt;
    let sa = u32::from(sa);
    match m {
        ShiftOp::Sll => shifted_left(rt, sa),
        ShiftOp::Srl => shifted_right(rt, sa),
        ShiftOp::Sra => shifted_signed(rt, sa),
    }
}

pub fn pair_of(hi: u32, lo: u32) -> u64
    ensures { result ≡ words.pair_of hi lo }
{
    (u64::from(hi) << 32) + u64::from(lo)
}

pub fn high_word(pair: u64) -> u32
    ensures { result ≡ words.high_word pair }
{
    (pair >> 32) as u32
}

pub fn low_word(pair: u64) -> u32
    ensures { result ≡ words.low_word pair }
{
    (pair % 0x1_0000_0000) as u32
}

fn signed_product(a: u32, b: u32) -> u64
    ensures { result ≡ meaning.signed_product a b }
{
    (i64::from(a.cast_signed()) * i64::from(b.cast_signed())).cast_unsigned()
}

fn product(a: u32, b: u32) -> u64
    ensures { result ≡ a * b }
{
    u64::from(a) * u64::from(b)
}

// The remainder and the quotient of signed words, toward zero; the least number by -1 is itself, with remainder 0.
fn signed_remainder(a: u32, b: u32) -> u32
    requires { 0 < b }
    ensures { result ≡ words.unsigned (int_rem (words.signed a) (words.signed b)) }
{
    a.cast_signed()
        .wrapping_rem(b.cast_signed())
        .cast_unsigned()
}

fn signed_quotient(a: u32, b: u32) -> u32
    requires { 0 < b }
    ensures { result ≡ words.unsigned (int_div (words.signed a) (words.signed b)) }
{
    a.cast_signed()
        .wrapping_div(b.cast_signed())
        .cast_unsigned()
}

// Remainder and quotient as HI and LO; a division by zero leaves them.
fn divided_signed(a: u32, b: u32, pair: u64) -> u64
    ensures { result ≡ meaning.quotient_signed a b pair }
{
    if b == 0 {
        pair
    } else {
        pair_of(signed_remainder(a, b), signed_quotient(a, b))
    }
}

fn divided(a: u32, b: u32, pair: u64) -> u64
    ensures { result ≡ meaning.quotient a b pair }
{
    if b == 0 { pair } else { pair_of(a % b, a / b) }
}

/// The new HI and LO of a multiplication or division.
#[tactic(auto, unfolding(crate::specs::Act::acc_value))]
pub fn acc_value(m: AccOp, v: Values) -> u64
    ensures { result ≡ meaning.acc_value m v }
{
    let Values { rs, rt, pair, .. } = v;
    match m {
        AccOp::Mult => signed_product(rs, rt),
        AccOp::Multu => product(rs, rt),
        AccOp::Div => divided_signed(rs, rt, pair),
        AccOp::Divu => divided(rs, rt, pair),
        AccOp::Madd => pair.wrapping_add(signed_product(rs, rt)),
        AccOp::Maddu => pair.wrapping_add(product(rs, rt)),
        AccOp::Msub => pair.wrapping_sub(signed_product(rs, rt)),
        AccOp::Msubu => pair.wrapping_sub(product(rs, rt)),
    }
}

/// What a move from or to HI or LO writes.
#[tactic(auto, unfolding(crate::specs::Act::hilo_write))]
pub fn hilo_write(m: HiLoOp, rd: u8, v: Values) -> Option<u64>
    ensures { result ≡ meaning.hilo_write m rd v }
{
    let Values { rs, pair, .. } = v;
    match m {
        HiLoOp::Mfhi => to_register(rd, high_word(pair)),
        HiLoOp::Mflo => to_register(rd, low_word(pair)),
        HiLoOp::Mthi => Some(pair_of(rs, low_word(pair))),
        HiLoOp::Mtlo => Some(pair_of(high_word(pair), rs)),
    }
}

#[tactic(auto, unfolding(crate::specs::Act::count_value))]
pub fn count_value(m: CountOp, v: Values) -> u32
    ensures { result ≡ meaning.count_value m v }
{
    let rs = v.rs;
    match m {
        CountOp::Clz => rs.leading_zeros(),
        CountOp::Clo => rs.leading_ones(),
    }
}

// A sign extended constant or offset.
pub fn extended_half(half: u16) -> u32
    ensures { result ≡ words.extended_half half }
{
    i32::from(half.cast_signed()).cast_unsigned()
}

/// The value of an instruction with a constant, or None on overflow.
#[tactic(auto, unfolding(crate::specs::Act::imm_value))]
pub fn imm_value(m: ImmOp, imm: u16, v: Values) -> Option<u32>
    ensures { result ≡ meaning.imm_value m imm v }
{
    let rs = v.rs;
    let extended = extended_half(imm);
    match m {
        ImmOp::Addi => sum_if_fits(rs, extended),
        ImmOp::Addiu => Some(rs.wrapping_add(extended)),
        ImmOp::Slti => Some(flag(less_signed(rs, extended))),
        ImmOp::Sltiu => Some(flag(rs < extended)),
        ImmOp::Andi => Some(rs & u32::from(imm)),
        ImmOp::Ori => Some(rs | u32::from(imm)),
        ImmOp::Xori => Some(rs ^ u32::from(imm)),
    }
}

#[tactic(auto, unfolding(crate::specs::Act::branch2_taken))]
pub fn branch2_taken(m: Branch2Op, v: Values) -> bool
    ensures { result ≡ meaning.branch2_taken m v }
{
    let Values { rs, rt, .. } = v;
    match m {
        Branch2Op::Beq => rs == rt,
        Branch2Op::Bne => rs != rt,
    }
}

#[tactic(auto, unfolding(crate::specs::Act::branch1_taken))]
pub fn branch1_taken(m: Branch1Op, v: Values) -> bool
    ensures { result ≡ meaning.branch1_taken m v }
{
    let rs = v.rs;
    match m {
        Branch1Op::Blez => !less_signed(0, rs),
        Branch1Op::Bgtz => less_signed(0, rs),
        Branch1Op::Bltz => less_signed(rs, 0),
        Branch1Op::Bgez => !less_signed(rs, 0),
        Branch1Op::Bltzal => less_signed(rs, 0),
        Branch1Op::Bgezal => !less_signed(rs, 0),
    }
}

#[tactic(auto, unfolding(crate::specs::Act::branch1_link))]
pub fn branch1_link(m: Branch1Op, pc: u32) -> Option<u64>
    ensures { result ≡ meaning.branch1_link m pc }
{
    match m {
        Branch1Op::Bltzal | Branch1Op::Bgezal => Some(u64::from(pc.wrapping_add(8))),
        Branch1Op::Blez | Branch1Op::Bgtz | Branch1Op::Bltz | Branch1Op::Bgez => None,
    }
}

#[tactic(auto, unfolding(crate::specs::Act::jump_link))]
pub fn jump_link(m: JumpOp, pc: u32) -> Option<u64>
    ensures { result ≡ meaning.jump_link m pc }
{
    match m {
        JumpOp::J => None,
        JumpOp::Jal => Some(u64::from(pc.wrapping_add(8))),
    }
}

/// Whether the comparison of a trap instruction holds.
#[tactic(auto, unfolding(crate::specs::Act::traps_if))]
pub fn traps_if(m: TrapIfOp, v: Values) -> bool
    ensures { result ≡ meaning.traps_if m v }
{
    let Values { rs, rt, .. } = v;
    match m {
        TrapIfOp::Tge => !less_signed(rs, rt),
        TrapIfOp::Tgeu => rs >= rt,
        TrapIfOp::Tlt => less_signed(rs, rt),
        TrapIfOp::Tltu => rs < rt,
        TrapIfOp::Teq => rs == rt,
        TrapIfOp::Tne => rs != rt,
    }
}
