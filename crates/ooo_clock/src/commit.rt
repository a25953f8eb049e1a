// The commits of a cycle.
ghost use Rattle.std.specs.Prelude.{◌≡◌, ◌≤◌, ◌<◌, ◌+◌, ◌^◌, [], ◌∷◌, ◌++◌, Some, drop, false, true, length, slice_get, vec_capacity, if◌then◌else◌};
ghost use Rattle.std.specs.Option.{option_map};
ghost use Rattle.std.specs.VecDeque.{deque_capacity};
ghost use Rattle.core_window.specs.Core.{paired};
ghost use Rattle.core_window.specs.Outcomes as outcomes;
ghost use Rattle.core_window.specs.Shown.{shown_of};
ghost use Rattle.core_window.specs.declared.records.Event.TheVariants.{Commit};
ghost use Rattle.ooo_clock.specs.Clock.{Clock, pair_of};
ghost use Rattle.ooo_clock.specs.Cycle.{commits_in, pcs_of};
ghost use Rattle.ooo_clock.specs.Moves.{commit_move, learnt_kind};
ghost use Rattle.ooo_clock.specs.Shows.{AreSound, Made, Shows, Stays, speeds_of};
ghost use Rattle.ooo_clock.specs.Views as views;

use crate::clock::{Parts, Times};
use core_window::{EntryView, Event, Status3};
use mips_isa::{Instr, Kind, kind};
use mips_ref::{State, Step};
use predictors::Predictor;
use std::collections::VecDeque;

pub(crate) fn is_store(i: Instr) -> bool
    ensures { result ≡ outcomes.is_store i }
{
    matches!(i, Instr::Store { .. })
}

pub(crate) fn is_done(status: Status3) -> bool
    ensures { result ≡ views.is_done status }
{
    matches!(status, Status3::Done)
}

// Whether an entry is done without a trap.
pub(crate) fn has_parts(v: EntryView) -> bool
    ensures { result ≡ views.has_parts v }
{
    is_done(v.status) && !v.trap.is_some()
}

// Whether it is a store that is done without a trap.
fn stores(v: EntryView) -> bool
    ensures { result ≡ views.stores v }
{
    let done = has_parts(v);
    match v.instr {
        None => false,
        Some(i) => is_store(i) && done,
    }
}

fn teach_kind<P: Predictor>(p: &mut P, v: EntryView, i: Instr, kind: Kind)
    ensures { P.data_of p.new ≡ learnt_kind (record { guess = P.guess_of; learnt = P.learnt_of }) kind
        (P.data_of p.old) v.pc i v.taken v.next }
{
    match kind {
        Kind::Branch => p.learn(v.pc, i, v.taken, v.next),
        Kind::Return | Kind::Indirect => p.learn(v.pc, i, true, v.next),
        Kind::Plain
        | Kind::Mul
        | Kind::Div
        | Kind::Load
        | Kind::Store
        | Kind::Jump
        | Kind::Call
        | Kind::Stop => {}
    }
}

// A committed entry teaches the predictor.
fn teach<P: Predictor>(p: &mut P, v: EntryView)
    ensures { P.data_of p.new ≡ views.taught (record { guess = P.guess_of; learnt = P.learnt_of })
        (P.data_of p.old) v }
{
    let done = has_parts(v);
    match v.instr {
        None => {}
        Some(i) => {
            if done {
                teach_kind(p, v, i, kind(i));
            }
        }
    }
}

fn drop_first(times: &mut VecDeque<Times>)
    ensures items { times.new.items ≡ drop 1 times.old.items }
    ensures capacity { deque_capacity times.new ≡ deque_capacity times.old }
{
    let _ = times.pop_front();
}

fn has_trapped(ending: Option<Step>) -> bool
    ensures { result ≡ views.is_trap ending }
{
    match ending {
        None => false,
        Some(step) => matches!(step, Step::Trap(_, _)),
    }
}

// After a commit whose step went the state's pc is noted.
fn note(pcs: &mut Vec<u32>, ending: Option<Step>, pc: u32)
    requires { length pcs.old.items < vec_capacity pcs.old }
    ensures items { pcs.new.items ≡ pcs.old.items ++ (if views.is_trap ending then [] else pc ∷ []) }
    ensures capacity { vec_capacity pcs.new ≡ vec_capacity pcs.old }
{
    if !has_trapped(ending) {
        pcs.push_reserved(pc);
    }
}

impl Parts {
    // The oldest entry.
    fn first(&self) -> Option<EntryView>
        ensures { result ≡ option_map shown_of (slice_get self.now.window.entries 0) }
    {
        if self.window.len() == 0 {
            None
        } else {
            Some(self.window.entry(0))
        }
    }

    // Whether the oldest entry is a store that an earlier one holds back.
    fn store_waits(&self) -> bool
        ensures { result ≡ views.store_waits self.now.window.entries self.now.store_free self.now.cycle }
    {
        match self.first() {
            None => false,
            Some(v) => stores(v) && self.store_free > self.cycle,
        }
    }

    // After a commit whose step went.
    fn went<P: Predictor>(&mut self, p: &mut P, v: EntryView)
        requires cycle { self.old.cycle ≤ 10 ^ 18 }
        requires store { self.old.pace.store ≤ 100000 }
        ensures parts { self.new ≡ record self.old { times = self.new.times; store_free = self.new.store_free } }
        ensures times { self.new.times.items ≡ drop 1 self.old.times.items }
        ensures capacity { deque_capacity self.new.times ≡ deque_capacity self.old.times }
        ensures store { self.new.store_free ≡ (if views.stores v then self.old.cycle + 1 + self.old.pace.store else
            self.old.store_free) }
        ensures numbers { P.data_of p.new ≡ views.taught (record { guess = P.guess_of; learnt = P.learnt_of })
            (P.data_of p.old) v }
    {
        drop_first(&mut self.times);
        if stores(v) {
            self.store_free = self.cycle + 1 + u64::from(self.pace.store);
        }
        teach(p, v);
    }

    // Commits the oldest entry, which no store holds back.
    fn commit_first<P: Predictor>(&mut self, state: &mut State, p: &mut P, first: EntryView) -> bool
        requires sound { AreSound self.old state.old.mips }
        requires free { views.store_waits self.old.window.entries self.old.store_free self.old.cycle ≡ false }
        requires there { option_map shown_of (slice_get self.old.window.entries 0) ≡ Some first }
        ensures made { (q : Clock) → Shows self.old state.old.mips (P.data_of p.old) q
            → Made (commit_move (speeds_of self.old) (record { guess = P.guess_of; learnt = P.learnt_of }) q) result
            self.new state.new.mips (P.data_of p.new) q }
        ensures pcs { result ≡ true → pcs_of (paired self.old.window state.old.mips) (Commit ∷ [])
            ≡ (if views.is_trap self.new.window.ending then [] else state.new.mips.pc ∷ []) }
        ensures sound { AreSound self.new state.new.mips }
        ensures stays { Stays self.old self.new }
        ensures computed { state.new.computed ≡ state.old.computed }
    {
        if !self.window.apply(state, Event::Commit) {
            return false;
        }
        if !has_trapped(self.window.ending()) {
            self.went(p, first);
        }
        true
    }

    // Commits the oldest entry, where that is due.
    pub fn commit_once<P: Predictor>(&mut self, state: &mut State, p: &mut P) -> bool
        requires { AreSound self.old state.old.mips }
        ensures made { (q : Clock) → Shows self.old state.old.mips (P.data_of p.old) q
            → Made (commit_move (speeds_of self.old) (record { guess = P.guess_of; learnt = P.learnt_of }) q) result
            self.new state.new.mips (P.data_of p.new) q }
        ensures pcs { result ≡ true → pcs_of (paired self.old.window state.old.mips) (Commit ∷ [])
            ≡ (if views.is_trap self.new.window.ending then [] else state.new.mips.pc ∷ []) }
        ensures sound { AreSound self.new state.new.mips }
        ensures stays { Stays self.old self.new }
        ensures computed { state.new.computed ≡ state.old.computed }
    {
        if self.store_waits() {
            return false;
        }
        match self.first() {
            None => false,
            Some(first) => self.commit_first(state, p, first),
        }
    }

    // The commits of a cycle, with the pcs at which the state stands after each of them whose step goes.
    pub fn commits<P: Predictor>(&mut self, state: &mut State, p: &mut P, pcs: &mut Vec<u32>)
        requires sound { AreSound self.old state.old.mips }
        requires room { self.old.pace.width ≤ vec_capacity pcs.old }
        ensures shows { (q : Clock) → Shows self.old state.old.mips (P.data_of p.old) q
            → Shows self.new state.new.mips (P.data_of p.new)
            (commits_in (speeds_of self.old) (record { guess = P.guess_of; learnt = P.learnt_of }) q).clock }
        ensures pcs { (q : Clock) → Shows self.old state.old.mips (P.data_of p.old) q
            → pcs.new.items ≡ pcs_of (pair_of q) (commits_in (speeds_of self.old)
            (record { guess = P.guess_of; learnt = P.learnt_of }) q).events }
        ensures capacity { vec_capacity pcs.new ≡ vec_capacity pcs.old }
        ensures sound { AreSound self.new state.new.mips }
        ensures stays { Stays self.old self.new }
        ensures computed { state.new.computed ≡ state.old.computed }
    {
        pcs.clear();
        for _commit in 0..self.pace.width {
            if !self.commit_once(state, p) {
                return;
            }
            note(pcs, self.window.ending(), state.pc());
        }
    }
}
