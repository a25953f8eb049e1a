// The parts of the events of a window.
ghost use Rattle.std.specs.Prelude.{◌≡◌, ◌≤◌, ◌<◌, ◌+◌, [], ◌∷◌, ◌++◌, Some, drop, length, slice_get, slice_set, take};
ghost use Rattle.std.specs.VecDeque.{deque_capacity, deque_len};
ghost use Rattle.core_window.specs.Events as meaning;
ghost use Rattle.core_window.specs.Outcomes as outcomes;
ghost use Rattle.core_window.specs.declared.records.Status.TheVariants.{Done};
ghost use Rattle.mips_isa.specs.Kinds as kinds;

use crate::records::{Entry, Outcome, Status};
use mips_isa::{Instr, Kind, kind};
use mips_ref::{Retired, TrapKind};
use std::collections::VecDeque;

// An entry, if there is one of this number.
pub fn entry_at(entries: &VecDeque<Entry>, k: usize) -> Option<Entry>
    ensures { result ≡ slice_get entries.now.items k }
{
    entries.get(k).copied()
}

pub fn set_entry(entries: &mut VecDeque<Entry>, k: usize, e: Entry)
    requires { k < length entries.old.items }
    ensures items { entries.new.items ≡ slice_set entries.old.items k e }
    ensures capacity { deque_capacity entries.new ≡ deque_capacity entries.old }
{
    entries[k] = e;
}

// The entries up to one of them, which becomes another one; those after it go.
pub fn cut_with(entries: &mut VecDeque<Entry>, k: usize, e: Entry)
    requires { k < length entries.old.items }
    ensures items { entries.new.items ≡ take k entries.old.items ++ e ∷ [] }
    ensures capacity { deque_capacity entries.new ≡ deque_capacity entries.old }
{
    set_entry(entries, k, e);
    entries.truncate(k + 1);
}

pub fn put_back(entries: &mut VecDeque<Entry>, e: Entry)
    requires { length entries.old.items < deque_capacity entries.old }
    ensures items { entries.new.items ≡ entries.old.items ++ e ∷ [] }
    ensures capacity { deque_capacity entries.new ≡ deque_capacity entries.old }
{
    entries.push_back_reserved(e);
}

pub fn drop_first(entries: &mut VecDeque<Entry>)
    ensures items { entries.new.items ≡ drop 1 entries.old.items }
    ensures capacity { deque_capacity entries.new ≡ deque_capacity entries.old }
{
    let _ = entries.pop_front();
}

// Whether an instruction of this kind decides what follows its delay slot.
fn is_control(kind: Kind) -> bool
    ensures { result ≡ kinds.is_control kind }
{
    match kind {
        Kind::Branch | Kind::Jump | Kind::Call | Kind::Return | Kind::Indirect => true,
        Kind::Plain | Kind::Mul | Kind::Div | Kind::Load | Kind::Store | Kind::Stop => false,
    }
}

pub fn controls(instr: Option<Instr>) -> bool
    ensures { result ≡ outcomes.controls instr }
{
    match instr {
        None => false,
        Some(i) => is_control(kind(i)),
    }
}

fn first_status(instr: Option<Instr>) -> Status
    ensures { result ≡ meaning.first_status instr }
{
    match instr {
        None => Status::Done(Outcome::Trapped(TrapKind::Reserved)),
        Some(_) => Status::Waiting,
    }
}

// The entry that is fetched.
pub fn fetched_entry(pc: u32, npc: u32, guess: u32, instr: Option<Instr>) -> Entry
    ensures { result ≡ meaning.entry_at pc npc guess instr }
{
    Entry {
        pc,
        npc,
        guess,
        instr,
        status: first_status(instr),
    }
}

pub fn may_guess(instr: Option<Instr>, npc: u32, guess: u32) -> bool
    ensures { result ≡ meaning.may_guess instr npc guess }
{
    controls(instr) || guess == npc.wrapping_add(4)
}

pub fn finished_by(status: Status) -> Option<Status>
    ensures { result ≡ meaning.finished_by status }
{
    match status {
        Status::Running(outcome) => Some(Status::Done(outcome)),
        Status::Waiting | Status::Done(_) => None,
    }
}

// An outcome of an instruction that isn't control, with another address after the next one.
fn going_to(next: u32, outcome: Outcome) -> Outcome
    ensures { result ≡ meaning.going_to next outcome }
{
    match outcome {
        Outcome::Trapped(kind) => Outcome::Trapped(kind),
        Outcome::Parts(r) => Outcome::Parts(Retired { next, ..r }),
    }
}

fn status_to(next: u32, status: Status) -> Status
    ensures { result ≡ meaning.status_to next status }
{
    match status {
        Status::Waiting => Status::Waiting,
        Status::Running(outcome) => Status::Running(going_to(next, outcome)),
        Status::Done(outcome) => Status::Done(going_to(next, outcome)),
    }
}

// A delay slot before another next address.
pub fn slot_to(next: u32, slot: Entry) -> Entry
    ensures { result ≡ meaning.slot_to next slot }
{
    let after = next.wrapping_add(4);
    Entry {
        npc: next,
        guess: after,
        status: status_to(after, slot.status),
        ..slot
    }
}

fn surprise_by(instr: Option<Instr>, outcome: Outcome, guess: u32) -> Option<u32>
    ensures { result ≡ meaning.surprise instr (Done outcome) guess }
{
    match outcome {
        Outcome::Trapped(_) => None,
        Outcome::Parts(r) => {
            if controls(instr) && r.next != guess {
                Some(r.next)
            } else {
                None
            }
        }
    }
}

// Where an entry goes whose guess was wrong.
pub fn surprise(e: Entry) -> Option<u32>
    ensures { result ≡ meaning.surprise e.instr e.status e.guess }
{
    match e.status {
        Status::Done(outcome) => surprise_by(e.instr, outcome, e.guess),
        Status::Waiting | Status::Running(_) => None,
    }
}

fn committable_by(outcome: Outcome, guess: u32) -> Option<Outcome>
    ensures { result ≡ meaning.committable (Done outcome) guess }
{
    match outcome {
        Outcome::Trapped(_) => Some(outcome),
        Outcome::Parts(r) => { if r.next == guess { Some(outcome) } else { None } }
    }
}

// The outcome that an entry is committed by.
pub fn committable(e: Entry) -> Option<Outcome>
    ensures { result ≡ meaning.committable e.status e.guess }
{
    match e.status {
        Status::Done(outcome) => committable_by(outcome, e.guess),
        Status::Waiting | Status::Running(_) => None,
    }
}
