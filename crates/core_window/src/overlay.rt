// The bytes of a word as the older stores leave them.
ghost use Rattle.std.specs.Prelude.{◌≡◌, ◌≤◌, ◌<◌, ◌+◌, ◌*◌, ◌^◌, ◌%◌, length, take};
ghost use Rattle.mips_ref.specs.Memory.{IsMemory, byte_at, lane, lanes_at, masks, or_zero};
ghost use Rattle.mips_ref.specs.Step.{store_at};
ghost use Rattle.core_window.specs.Operands.{overlaid};
ghost use Rattle.core_window.specs.Overlay as meaning;
ghost use Rattle.core_window.specs.Overlay.{StoresFit};
ghost use Rattle.core_window.specs.declared.records.Status.TheVariants.{Done};

use crate::records::{Entry, Outcome, Status};
use mips_isa::Instr;
use mips_ref::{Memory, Retired};
use std::collections::VecDeque;

// Four bytes, the one at the lowest address first.
#[derive(Clone, Copy, Debug)]
pub struct Lanes {
    pub first: u8,
    pub second: u8,
    pub third: u8,
    pub fourth: u8,
}

const PORT: u32 = 0xffff_0000;

// A byte, or 0 where the address isn't declared.
fn byte(memory: &Memory, at: u32) -> u8
    ensures { result ≡ or_zero (byte_at memory.now at) }
{
    memory.byte(at).unwrap_or(0)
}

#[tactic(auto, unfolding(crate::specs::Overlay::lanes_of))]
fn committed(memory: &Memory, at: u32) -> Lanes
    requires { at % 4 ≡ 0 }
    ensures { result ≡ meaning.lanes_of memory.now at }
{
    Lanes {
        first: byte(memory, at),
        second: byte(memory, at + 1),
        third: byte(memory, at + 2),
        fourth: byte(memory, at + 3),
    }
}

// Byte j of a word where a mask has it, else the old one.
fn lane_after(j: u32, mask: u8, word: u32, old: u8) -> u8
    requires { j < 4 }
    ensures { result ≡ meaning.lane_after j mask word old }
{
    if (mask >> j) % 2 == 1 {
        ((word >> (8 * j)) % 256) as u8
    } else {
        old
    }
}

fn stored_lanes(mask: u8, word: u32, old: Lanes) -> Lanes
    ensures { result ≡ meaning.stored_lanes mask word old }
{
    Lanes {
        first: lane_after(0, mask, word, old.first),
        second: lane_after(1, mask, word, old.second),
        third: lane_after(2, mask, word, old.third),
        fourth: lane_after(3, mask, word, old.fourth),
    }
}

// The address of a store.
fn stored_at(i: Instr, at: Option<u32>) -> Option<u32>
    ensures { result ≡ store_at i at }
{
    match i {
        Instr::Store { .. } => at,
        _ => None,
    }
}

fn past_store(w: u32, at: Option<u32>, mask: u8, word: u32, old: Lanes) -> Lanes
    ensures { result ≡ meaning.lanes_past_store w at mask word old }
{
    match at {
        None => old,
        Some(at) => {
            if at != PORT && at - at % 4 == w {
                stored_lanes(mask, word, old)
            } else {
                old
            }
        }
    }
}

fn past_outcome(w: u32, i: Instr, outcome: Outcome, old: Lanes) -> Lanes
    ensures { result ≡ meaning.lanes_past w (Some i) (Done outcome) old }
{
    match outcome {
        Outcome::Parts(r) => past_store(w, stored_at(i, r.at), r.mask, r.word, old),
        Outcome::Trapped(_) => old,
    }
}

fn past_status(w: u32, i: Instr, status: Status, old: Lanes) -> Lanes
    ensures { result ≡ meaning.lanes_past w (Some i) status old }
{
    match status {
        Status::Done(outcome) => past_outcome(w, i, outcome, old),
        Status::Waiting | Status::Running(_) => old,
    }
}

// The bytes past one more entry.
fn past(w: u32, e: &Entry, old: Lanes) -> Lanes
    ensures { result ≡ meaning.lanes_past w e.now.instr e.now.status old }
{
    match e.instr {
        None => old,
        Some(i) => past_status(w, i, e.status, old),
    }
}

fn word_of(l: Lanes) -> u32
    ensures { result ≡ l.first + 2 ^ 8 * l.second + 2 ^ 16 * l.third + 2 ^ 24 * l.fourth }
{
    let low = u32::from(l.first) + (u32::from(l.second) << 8);
    let high = u32::from(l.third) + (u32::from(l.fourth) << 8);
    low + (high << 16)
}

// The four bytes from a multiple of four on, overlaid by the stores of the first `k` entries, the youngest last.
#[tactic(auto, unfolding(crate::specs::Overlay::lanes_of))]
pub fn overlaid_lanes(memory: &Memory, entries: &VecDeque<Entry>, k: usize, at: u32) -> u32
    requires within { k ≤ length entries.now.items }
    requires aligned { at % 4 ≡ 0 }
    requires memory { IsMemory memory.now }
    requires fit { StoresFit memory.now (take k entries.now.items) }
    ensures { result ≡ lanes_at (overlaid (take k entries.now.items) memory.now) at }
{
    let mut lanes = committed(memory, at);
    for j in 0..k {
        lanes = past(at, &entries[j], lanes);
    }
    word_of(lanes)
}
