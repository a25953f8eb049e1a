// The operands of an instruction, found along the older entries from the oldest on.
ghost use Rattle.std.specs.Prelude.{◌≡◌, ◌≤◌, ◌<◌, ◌+◌, ◌^◌, ◌%◌, ◌&&◌, [], Some, IfSome, length, take};
ghost use Rattle.mips_isa.specs.Names.{reads_of};
ghost use Rattle.mips_isa.specs.Words.{low_word};
ghost use Rattle.mips_ref.specs.Memory.{or_zero};
ghost use Rattle.mips_ref.specs.Mips.{name_value};
ghost use Rattle.core_window.specs.Operands as operands;
ghost use Rattle.core_window.specs.Outcomes as outcomes;
ghost use Rattle.core_window.specs.Search as meaning;
ghost use Rattle.core_window.specs.Search.{AreNames, AreSmall, IsSmall};
ghost use Rattle.core_window.specs.declared.records.Status.TheVariants.{Done};

use crate::records::{Entry, Outcome, Status};
use mips_isa::{Instr, PAIR, reads, writes};
use mips_ref::{State, Values};
use std::collections::VecDeque;

// The names that an instruction reads, by place.
#[derive(Clone, Copy, Debug)]
pub struct Names {
    pub first: Option<u8>,
    pub second: Option<u8>,
    pub third: Option<u8>,
}

// The values of these places past some entries, each None where it isn't there yet, and whether all stores among the entries are done.
#[derive(Clone, Copy, Debug)]
pub struct Found {
    pub first: Option<u64>,
    pub second: Option<u64>,
    pub third: Option<u64>,
    pub stores_done: bool,
}

#[tactic(auto, using(crate::proofs::Searched::three_places))]
pub fn names_read(i: Instr) -> Names
    ensures { meaning.names_list result ≡ reads_of i }
{
    let places = reads(i);
    Names {
        first: places[0],
        second: places[1],
        third: places[2],
    }
}

// The name that an entry's instruction writes.
fn written(instr: Option<Instr>) -> Option<u8>
    ensures { result ≡ operands.written instr }
{
    match instr {
        None => None,
        Some(i) => writes(i),
    }
}

fn is_name(written: Option<u8>, name: u8) -> bool
    ensures { result ≡ operands.is_name written name }
{
    match written {
        None => false,
        Some(n) => n == name,
    }
}

// The value of a name that is written.
fn as_name(name: u8, written: Option<u64>) -> Option<u64>
    ensures { result ≡ operands.as_name name written }
{
    match written {
        None => None,
        Some(w) => Some(if name == PAIR { w } else { w % (1 << 32) }),
    }
}

fn given_by(outcome: Outcome, name: u8) -> Option<u64>
    ensures { result ≡ operands.given (Done outcome) name }
{
    match outcome {
        Outcome::Parts(r) => as_name(name, r.write),
        Outcome::Trapped(_) => None,
    }
}

// What an entry gives of a name that it writes.
fn given(status: Status, name: u8) -> Option<u64>
    ensures { result ≡ operands.given status name }
{
    match status {
        Status::Done(outcome) => given_by(outcome, name),
        Status::Waiting | Status::Running(_) => None,
    }
}

fn past_place(e: &Entry, written: Option<u8>, name: Option<u8>, value: Option<u64>) -> Option<u64>
    requires { written ≡ operands.written e.now.instr }
    ensures { result ≡ meaning.past_place e.now name value }
{
    match name {
        None => value,
        Some(n) => {
            if is_name(written, n) {
                given(e.status, n)
            } else {
                value
            }
        }
    }
}

pub fn is_load(i: Instr) -> bool
    ensures { result ≡ outcomes.is_load i }
{
    match i {
        Instr::Load { .. } => true,
        _ => false,
    }
}

fn is_store(i: Instr) -> bool
    ensures { result ≡ outcomes.is_store i }
{
    match i {
        Instr::Store { .. } => true,
        _ => false,
    }
}

fn no_store(instr: Option<Instr>) -> bool
    ensures { result ≡ operands.no_store instr }
{
    match instr {
        None => true,
        Some(i) => !is_store(i),
    }
}

fn is_done(status: Status) -> bool
    ensures { result ≡ operands.is_done status }
{
    match status {
        Status::Done(_) => true,
        Status::Waiting | Status::Running(_) => false,
    }
}

// Whether an entry doesn't hold a load up.
fn passes_loads(e: &Entry) -> bool
    ensures { result ≡ operands.passes_loads e.now }
{
    no_store(e.instr) || is_done(e.status)
}

// The places past one more entry.
fn past(found: Found, names: Names, e: &Entry) -> Found
    ensures first { result.first ≡ meaning.past_place e.now names.first found.first }
    ensures second { result.second ≡ meaning.past_place e.now names.second found.second }
    ensures third { result.third ≡ meaning.past_place e.now names.third found.third }
    ensures stores { result.stores_done ≡ (found.stores_done && operands.passes_loads e.now) }
{
    let written = written(e.instr);
    Found {
        first: past_place(e, written, names.first, found.first),
        second: past_place(e, written, names.second, found.second),
        third: past_place(e, written, names.third, found.third),
        stores_done: found.stores_done && passes_loads(e),
    }
}

// The committed value of a name.
fn committed(name: u8, state: &State) -> u64
    requires { name ≤ 32 }
    ensures value { result ≡ name_value state.now.mips name }
    ensures small { (name ≡ 32 → ⊥) → result < 2 ^ 32 }
{
    if name == PAIR {
        (u64::from(state.hi()) << 32) + u64::from(state.lo())
    } else {
        u64::from(state.register(name))
    }
}

fn committed_place(name: Option<u8>, state: &State) -> Option<u64>
    requires { IfSome name (λ n. n ≤ 32) }
    ensures value { result ≡ meaning.place_value [] state.now.mips name }
    ensures small { IsSmall name result }
{
    match name {
        None => Some(0),
        Some(n) => Some(committed(n, state)),
    }
}

// The places before the oldest entry.
#[tactic(auto, unfolding(crate::specs::Search::found_in))]
fn first(names: Names, state: &State) -> Found
    requires { AreNames names }
    ensures found { result ≡ meaning.found_in [] state.now.mips names }
    ensures small { AreSmall names result }
{
    Found {
        first: committed_place(names.first, state),
        second: committed_place(names.second, state),
        third: committed_place(names.third, state),
        stores_done: true,
    }
}

// The places past the first `k` entries.
pub fn search(entries: &VecDeque<Entry>, k: usize, names: Names, state: &State) -> Found
    requires within { k ≤ length entries.now.items }
    requires named { AreNames names }
    ensures found { result ≡ meaning.found_in (take k entries.now.items) state.now.mips names }
    ensures small { AreSmall names result }
{
    let mut found = first(names, state);
    for j in 0..k {
        found = past(found, names, &entries[j]);
    }
    found
}

// Whether all that an instruction reads is there.
pub fn is_ready(i: Instr, found: Found) -> bool
    ensures { result ≡ meaning.all_found i found }
{
    found.first.is_some()
        && found.second.is_some()
        && found.third.is_some()
        && (!is_load(i) || found.stores_done)
}

// A register's value; zero where it isn't there.
fn word(value: Option<u64>) -> u32
    ensures { result ≡ low_word (or_zero value) }
{
    (value.unwrap_or(0) % (1 << 32)) as u32
}

// The values of the places.
pub fn values(found: Found) -> Values
    ensures { result ≡ meaning.values_found found }
{
    Values {
        rs: word(found.first),
        rt: word(found.second),
        rd: word(found.third),
        pair: found.third.unwrap_or(0),
    }
}
