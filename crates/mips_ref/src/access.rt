// What loads and stores move: bytes of a word, and where they stand in the register.
ghost use Rattle.std.specs.Prelude.{◌≡◌, ◌<◌, ◌≤◌, ◌*◌, ◌/◌, ◌^◌, ◌%◌};
ghost use Rattle.mips_isa.specs.Words as words;
ghost use Rattle.mips_ref.specs.Access as access;
ghost use Rattle.mips_ref.specs.Memory.{in_order};

use crate::memory::{PORT, ordered};
use crate::values::extended_half;
use mips_isa::{Instr, LoadOp, StoreOp};

// The rank of a byte in the word that the byte order reads, 0 for the lowest.
fn rank(at: u32, big: bool) -> u32
    ensures is { result ≡ access.rank at big }
    ensures small { result < 4 }
{
    if big { 3 - at % 4 } else { at % 4 }
}

pub fn ranked_byte(word: u32, rank: u32) -> u8
    requires { rank < 4 }
    ensures { result ≡ access.ranked_byte word rank }
{
    match rank {
        0 => (word % 0x100) as u8,
        1 => (word >> 8 & 0xff) as u8,
        2 => (word >> 16 & 0xff) as u8,
        _ => (word >> 24) as u8,
    }
}

fn ranked_half(word: u32, rank: u32) -> u16
    requires { rank < 4 }
    ensures { result ≡ access.ranked_half word rank }
{
    if rank < 2 {
        (word % 0x1_0000) as u16
    } else {
        (word >> 16) as u16
    }
}

fn extended_byte(byte: u8) -> u32
    ensures { result ≡ words.extended_byte byte }
{
    i32::from(byte.cast_signed()).cast_unsigned()
}

// The bytes up to a rank, moved to the most significant end.
fn left_of(word: u32, rank: u32, rt: u32) -> u32
    requires { rank < 4 }
    ensures { result ≡ access.left_of word rank rt }
{
    match rank {
        0 => (word % 0x100 << 24) + rt % 0x100_0000,
        1 => (word % 0x1_0000 << 16) + rt % 0x1_0000,
        2 => (word % 0x100_0000 << 8) + rt % 0x100,
        _ => word,
    }
}

// The bytes from a rank on, moved to the least significant end.
fn right_of(word: u32, rank: u32, rt: u32) -> u32
    requires { rank < 4 }
    ensures { result ≡ access.right_of word rank rt }
{
    match rank {
        0 => word,
        1 => (rt >> 24 << 24) + (word >> 8),
        2 => (rt >> 16 << 16) + (word >> 16),
        _ => (rt >> 8 << 8) + (word >> 24),
    }
}

#[tactic(auto, unfolding(crate::specs::Access::load_value))]
fn load_value(m: LoadOp, rank: u32, rt: u32, word: u32) -> u32
    requires { rank < 4 }
    ensures { result ≡ access.load_value m rank rt word }
{
    match m {
        LoadOp::Lb => extended_byte(ranked_byte(word, rank)),
        LoadOp::Lbu => u32::from(ranked_byte(word, rank)),
        LoadOp::Lh => extended_half(ranked_half(word, rank)),
        LoadOp::Lhu => u32::from(ranked_half(word, rank)),
        LoadOp::Lw => word,
        LoadOp::Lwl => left_of(word, rank, rt),
        LoadOp::Lwr => right_of(word, rank, rt),
    }
}

#[tactic(auto, unfolding(crate::specs::Access::store_value))]
fn store_value(m: StoreOp, rank: u32, rt: u32) -> u32
    requires { rank < 4 }
    ensures { result ≡ access.store_value m rank rt }
{
    match m {
        StoreOp::Sb => byte_at_rank(rt, rank),
        StoreOp::Sh => half_at_rank(rt, rank),
        StoreOp::Sw => rt,
        StoreOp::Swl => from_rank(rt, 3 - rank),
        StoreOp::Swr => at_rank(rt, rank),
    }
}

// A word moved up by so many bytes.
fn at_rank(word: u32, rank: u32) -> u32
    requires { rank < 4 }
    ensures { result ≡ word * 2 ^ (8 * rank) % 2 ^ 32 }
{
    match rank {
        0 => word,
        1 => word << 8,
        2 => word << 16,
        _ => word << 24,
    }
}

// The low byte and the low half of a word, moved up.
fn byte_at_rank(rt: u32, rank: u32) -> u32
    requires { rank < 4 }
    ensures { result ≡ rt % 2 ^ 8 * 2 ^ (8 * rank) }
{
    match rank {
        0 => rt % 0x100,
        1 => rt % 0x100 << 8,
        2 => rt % 0x100 << 16,
        _ => rt % 0x100 << 24,
    }
}

fn half_at_rank(rt: u32, rank: u32) -> u32
    requires { rank < 4 }
    ensures { result ≡ rt % 2 ^ 16 * 2 ^ (16 * (rank / 2)) }
{
    if rank < 2 {
        rt % 0x1_0000
    } else {
        rt % 0x1_0000 << 16
    }
}

// A word moved down by so many bytes.
fn from_rank(word: u32, rank: u32) -> u32
    requires { rank < 4 }
    ensures { result ≡ word / 2 ^ (8 * rank) }
{
    match rank {
        0 => word,
        1 => word >> 8,
        2 => word >> 16,
        _ => word >> 24,
    }
}

// The bytes of a word from number k on, and those up to number k, bit j for byte j.
fn from_here(k: u32) -> u8
    requires { k < 4 }
    ensures { result ≡ access.from_here k }
{
    match k {
        0 => 15,
        1 => 14,
        2 => 12,
        _ => 8,
    }
}

fn up_to_here(k: u32) -> u8
    requires { k < 4 }
    ensures { result ≡ access.up_to_here k }
{
    match k {
        0 => 1,
        1 => 3,
        2 => 7,
        _ => 15,
    }
}

fn left_mask(k: u32, big: bool) -> u8
    requires { k < 4 }
    ensures { result ≡ access.left_mask k big }
{
    if big { from_here(k) } else { up_to_here(k) }
}

fn right_mask(k: u32, big: bool) -> u8
    requires { k < 4 }
    ensures { result ≡ access.right_mask k big }
{
    if big { up_to_here(k) } else { from_here(k) }
}

// One byte, and the two from number k on.
fn one_byte(k: u32) -> u8
    requires { k < 4 }
    ensures is { result ≡ 2 ^ k }
    ensures small { result ≤ 8 }
{
    match k {
        0 => 1,
        1 => 2,
        2 => 4,
        _ => 8,
    }
}

#[tactic(auto, unfolding(crate::specs::Access::load_mask))]
pub fn load_mask(m: LoadOp, k: u32, big: bool) -> u8
    requires { k < 4 }
    ensures { result ≡ access.load_mask m k big }
{
    match m {
        LoadOp::Lb | LoadOp::Lbu => one_byte(k),
        LoadOp::Lh | LoadOp::Lhu => 3 * one_byte(k),
        LoadOp::Lw => 15,
        LoadOp::Lwl => left_mask(k, big),
        LoadOp::Lwr => right_mask(k, big),
    }
}

#[tactic(auto, unfolding(crate::specs::Access::store_mask))]
pub fn store_mask(m: StoreOp, k: u32, big: bool) -> u8
    requires { k < 4 }
    ensures { result ≡ access.store_mask m k big }
{
    match m {
        StoreOp::Sb => one_byte(k),
        StoreOp::Sh => 3 * one_byte(k),
        StoreOp::Sw => 15,
        StoreOp::Swl => left_mask(k, big),
        StoreOp::Swr => right_mask(k, big),
    }
}

#[tactic(auto, unfolding(crate::specs::Access::load_aligned))]
pub fn load_aligned(m: LoadOp, k: u32) -> bool
    ensures { result ≡ access.load_aligned m k }
{
    match m {
        LoadOp::Lh | LoadOp::Lhu => k % 2 == 0,
        LoadOp::Lw => k == 0,
        LoadOp::Lb | LoadOp::Lbu | LoadOp::Lwl | LoadOp::Lwr => true,
    }
}

#[tactic(auto, unfolding(crate::specs::Access::store_aligned))]
pub fn store_aligned(m: StoreOp, k: u32) -> bool
    ensures { result ≡ access.store_aligned m k }
{
    match m {
        StoreOp::Sh => k % 2 == 0,
        StoreOp::Sw => k == 0,
        StoreOp::Sb | StoreOp::Swl | StoreOp::Swr => true,
    }
}

// Whether a store is one to the output port: a store word to its first address.
pub fn is_output(m: StoreOp, at: u32) -> bool
    ensures { result ≡ access.is_output m at }
{
    match m {
        StoreOp::Sw => at == PORT,
        StoreOp::Sb | StoreOp::Sh | StoreOp::Swl | StoreOp::Swr => false,
    }
}

/// The new rt of a load at an address, from the four bytes of the word around it (the byte at the word's start + j as bits
/// 8j to 8j + 7), by the byte order; 0 where the instruction is no load. Takes no memory. Source: MIPS32 manual, volume
/// II, LB, LBU, LH, LHU, LW, LWL and LWR.
#[tactic(auto, unfolding(crate::specs::Access::loaded_of))]
pub fn loaded(i: Instr, at: u32, rt: u32, word: u32, big: bool) -> u32
    ensures { result ≡ access.loaded_of i at rt word big }
{
    match i {
        Instr::Load { m, .. } => load_value(m, rank(at, big), rt, ordered(word, big)),
        _ => 0,
    }
}

/// The bytes that a store at an address writes, as a mask (bit j for the byte at the word's start + j) and the word that has
/// them (that byte as bits 8j to 8j + 7, a byte that isn't written as 0), by the byte order; (0, 0) where the instruction
/// is no store. Takes no memory. Source: MIPS32 manual, volume II, SB, SH, SW, SWL and SWR.
#[tactic(auto, unfolding(crate::specs::Access::stored_of))]
pub fn stored(i: Instr, at: u32, rt: u32, big: bool) -> (u8, u32)
    ensures { result ≡ access.stored_of i at rt big }
{
    match i {
        Instr::Store { m, .. } => (
            store_mask(m, at % 4, big),
            ordered(store_value(m, rank(at, big), rt), big),
        ),
        _ => (0, 0),
    }
}
