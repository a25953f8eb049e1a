// What an instruction comes to, from its operands.
ghost use Rattle.std.specs.Prelude.{◌≡◌, ◌≤◌, length, take};
ghost use Rattle.mips_isa.specs.Fits.{FieldsFit};
ghost use Rattle.mips_ref.specs.Act as act;
ghost use Rattle.mips_ref.specs.Memory.{IsMemory};
ghost use Rattle.mips_ref.specs.Step.{access_trap, first_trap};
ghost use Rattle.core_window.specs.Operands.{overlaid};
ghost use Rattle.core_window.specs.Overlay.{StoresFit};
ghost use Rattle.core_window.specs.Search as meaning;

use crate::overlay::overlaid_lanes;
use crate::records::{Entry, Outcome};
use mips_isa::Instr;
use mips_ref::{Act, Memory, Retired, TrapKind, Values, act, loaded, stored};
use std::collections::VecDeque;

// The value for a register; register 0 isn't written.
fn to_register(r: u8, value: u32) -> Option<u64>
    ensures { result ≡ act.to_register r value }
{
    if r == 0 { None } else { Some(u64::from(value)) }
}

fn access_trap(memory: &Memory, i: Instr, at: Option<u32>) -> Option<TrapKind>
    ensures { result ≡ access_trap memory.now i at }
{
    match at {
        None => None,
        Some(at) => memory.refuses(i, at),
    }
}

fn trap(memory: &Memory, i: Instr, a: Act) -> Option<TrapKind>
    ensures { result ≡ first_trap a.trap (access_trap memory.now i a.at) }
{
    match a.trap {
        Some(kind) => Some(kind),
        None => access_trap(memory, i, a.at),
    }
}

#[tactic(auto, unfolding(crate::specs::Search::write_by))]
fn write(
    memory: &Memory,
    entries: &VecDeque<Entry>,
    k: usize,
    i: Instr,
    a: Act,
    value: u32,
) -> Option<u64>
    requires within { k ≤ length entries.now.items }
    requires memory { IsMemory memory.now }
    requires fit { StoresFit memory.now (take k entries.now.items) }
    ensures { result ≡ meaning.write_by i a value (overlaid (take k entries.now.items) memory.now) memory.now.big }
{
    match i {
        Instr::Load { rt, .. } => {
            let at = a.at.unwrap_or(0);
            let lanes = overlaid_lanes(memory, entries, k, at - at % 4);
            to_register(rt, loaded(i, at, value, lanes, memory.big()))
        }
        _ => a.write,
    }
}

// What an instruction at a place past the first `k` entries comes to with these values.
#[tactic(auto, unfolding(crate::specs::Search::outcome_by))]
pub fn outcome_by(
    memory: &Memory,
    entries: &VecDeque<Entry>,
    k: usize,
    i: Instr,
    pc: u32,
    npc: u32,
    v: Values,
) -> Outcome
    requires fits { FieldsFit i }
    requires within { k ≤ length entries.now.items }
    requires memory { IsMemory memory.now }
    requires stores { StoresFit memory.now (take k entries.now.items) }
    ensures { result ≡ meaning.outcome_by (take k entries.now.items) i pc npc v memory.now }
{
    let a = act(i, pc, npc, v);
    if let Some(kind) = trap(memory, i, a) {
        return Outcome::Trapped(kind);
    }
    let (mask, word) = stored(i, a.at.unwrap_or(0), v.rt, memory.big());
    Outcome::Parts(Retired {
        write: write(memory, entries, k, i, a, v.rt),
        next: a.next,
        taken: a.taken,
        at: a.at,
        mask,
        word,
    })
}
