// What one instruction does with the values of its registers, memory and the return stack aside.
ghost use Rattle.std.specs.Prelude.{◌≡◌};
ghost use Rattle.mips_isa.specs.Fits.{FieldsFit};
ghost use Rattle.mips_ref.specs.Act as meaning;

use crate::records::{Act, TrapKind, Values};
use crate::values::{
    acc_value, branch1_link, branch1_taken, branch2_taken, count_value, extended_half, hilo_write,
    imm_value, jump_link, r3_value, shift_value, to_register, traps_if,
};
use mips_isa::{Instr, StopOp, branch_target, jump_target};

// The instruction after the next one is the next one's successor.
fn goes_on(write: Option<u64>, npc: u32) -> Act
    ensures { result ≡ meaning.goes_on write npc }
{
    Act {
        write,
        next: npc.wrapping_add(4),
        taken: false,
        at: None,
        trap: None,
    }
}

fn stops(kind: TrapKind) -> Act
    ensures { result ≡ meaning.stops kind }
{
    Act {
        write: None,
        next: 0,
        taken: false,
        at: None,
        trap: Some(kind),
    }
}

fn goes_to(write: Option<u64>, taken: bool, target: u32, npc: u32) -> Act
    ensures { result ≡ meaning.goes_to write taken target npc }
{
    Act {
        write,
        next: if taken { target } else { npc.wrapping_add(4) },
        taken,
        at: None,
        trap: None,
    }
}

fn reaches(at: u32, npc: u32) -> Act
    ensures { result ≡ meaning.reaches at npc }
{
    Act {
        write: None,
        next: npc.wrapping_add(4),
        taken: false,
        at: Some(at),
        trap: None,
    }
}

fn unless_overflow(r: u8, npc: u32, value: Option<u32>) -> Act
    ensures { result ≡ meaning.unless_overflow r npc value }
{
    match value {
        None => stops(TrapKind::Overflow),
        Some(value) => goes_on(to_register(r, value), npc),
    }
}

// The address of a load or store.
fn address(base: u32, off: u16) -> u32
    ensures { result ≡ meaning.address base off }
{
    base.wrapping_add(extended_half(off))
}

#[tactic(auto, unfolding(crate::specs::Act::stop_trap))]
fn stop_trap(m: StopOp) -> TrapKind
    ensures { result ≡ meaning.stop_trap m }
{
    match m {
        StopOp::Syscall => TrapKind::Syscall,
        StopOp::Break => TrapKind::Break,
    }
}

/// What an instruction at `pc`, before the one at `npc`, does with these values, memory and the return stack aside.
/// Takes no memory. Source: MIPS32 manual, volume II, release 1; that a division by zero leaves HI and LO is this
/// project's own.
#[tactic(auto, unfolding(crate::specs::Act::act_of))]
pub fn act(i: Instr, pc: u32, npc: u32, v: Values) -> Act
    requires { FieldsFit i }
    ensures { result ≡ meaning.act_of i pc npc v }
{
    match i {
        Instr::R3 { m, rd, .. } => unless_overflow(rd, npc, r3_value(m, v)),
        Instr::Shift { m, rd, sa, .. } => goes_on(to_register(rd, shift_value(m, sa, v)), npc),
        Instr::Acc { m, .. } => goes_on(Some(acc_value(m, v)), npc),
        Instr::HiLo { m, rd, .. } => goes_on(hilo_write(m, rd, v), npc),
        Instr::Count { m, rd, .. } => goes_on(to_register(rd, count_value(m, v)), npc),
        Instr::Imm { m, rt, imm, .. } => unless_overflow(rt, npc, imm_value(m, imm, v)),
        Instr::Lui { rt, imm } => goes_on(to_register(rt, u32::from(imm) << 16), npc),
        Instr::Load { off, .. } | Instr::Store { off, .. } => reaches(address(v.rs, off), npc),
        Instr::Pref { .. } | Instr::Sync { .. } => goes_on(None, npc),
        Instr::Branch2 { m, off, .. } => {
            goes_to(None, branch2_taken(m, v), branch_target(pc, off), npc)
        }
        Instr::Branch1 { m, off, .. } => goes_to(
            branch1_link(m, pc),
            branch1_taken(m, v),
            branch_target(pc, off),
            npc,
        ),
        Instr::Jump { m, target } => goes_to(jump_link(m, pc), true, jump_target(pc, target), npc),
        Instr::Jr { .. } => goes_to(None, true, v.rs, npc),
        Instr::Jalr { rd, .. } => goes_to(to_register(rd, pc.wrapping_add(8)), true, v.rs, npc),
        Instr::TrapIf { m, .. } => {
            if traps_if(m, v) {
                stops(TrapKind::TrapInstr)
            } else {
                goes_on(None, npc)
            }
        }
        Instr::Stop { m, .. } => stops(stop_trap(m)),
    }
}
