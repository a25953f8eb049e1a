// The steps of a counter, and what else writes it.
ghost use Rattle.std.specs.Prelude.{◌≡◌, ◌-◌, ◌^◌, ◌+ℤ◌, ◌≤ℤ◌, negsuc, pos};
ghost use Rattle.mips_ref.specs.Act.{fits_word};
ghost use Rattle.range_facts.specs.Ranges.{IsFact};
ghost use Rattle.run_law.specs.Counts as counts;
ghost use Rattle.bound_checker.specs.Tally as meaning;

use flow_graph::Unit;
use mips_isa::{ImmOp, Instr, writes};
use range_facts::Strided;

// By how much an instruction steps a counter.
pub(crate) fn step_by(c: u8, i: Instr) -> Option<i32>
    ensures { result ≡ counts.step_by c i }
{
    match i {
        Instr::Imm { m, rs, rt, imm } => imm_step(c, m, rs, rt, imm),
        _ => None,
    }
}

fn imm_step(c: u8, m: ImmOp, rs: u8, rt: u8, imm: u16) -> Option<i32>
    ensures { result ≡ counts.imm_step c m rs rt imm }
{
    match m {
        ImmOp::Addiu => add_step(c, rs, rt, i32::from(imm.cast_signed())),
        _ => None,
    }
}

fn add_step(c: u8, rs: u8, rt: u8, by: i32) -> Option<i32>
    ensures { result ≡ meaning.add_step c rs rt by }
{
    if rs == c && rt == c && by != 0 {
        Some(by)
    } else {
        None
    }
}

pub(crate) fn is_step(c: u8, i: Instr) -> bool
    ensures { result ≡ meaning.is_step c i }
{
    match step_by(c, i) {
        None => false,
        Some(_) => true,
    }
}

// Whether an instruction writes the counter.
pub(crate) fn writes_counter(c: u8, i: Instr) -> bool
    ensures { result ≡ meaning.writes_counter c i }
{
    match writes(i) {
        None => false,
        Some(r) => r == c,
    }
}

// Whether the counter's fact, moved, stays among the signed words.
pub(crate) fn stays_fit(s: Strided, by: i32) -> bool
    requires { IsFact s }
    ensures { result ≡ counts.stays_fit s by }
{
    moves_to_word(s.lo, by) && moves_to_word(s.hi, by)
}

fn moves_to_word(z: i64, by: i32) -> bool
    requires low { negsuc (2 ^ 31 - 1) ≤ℤ z }
    requires high { z ≤ℤ pos (2 ^ 31 - 1) }
    ensures { result ≡ fits_word (z +ℤ by) }
{
    is_word(z + i64::from(by))
}

fn is_word(z: i64) -> bool
    ensures { result ≡ fits_word z }
{
    -0x8000_0000 <= z && z <= 0x7fff_ffff
}

// Whether no instruction of a unit steps a counter.
pub(crate) fn is_quiet(c: u8, unit: Unit) -> bool
    ensures { result ≡ meaning.is_quiet c unit }
{
    match unit.slot {
        None => !is_step(c, unit.first),
        Some(slot) => !is_step(c, unit.first) && !is_step(c, slot),
    }
}
