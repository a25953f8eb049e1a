// The window beside a state.
ghost use Rattle.std.specs.Option.{option_map};
ghost use Rattle.std.specs.Prelude.{◌≡◌, ◌<◌, ◌+◌, [], ◌∷◌, Some, IfOk, drop, is_some, length, slice_get, take};
ghost use Rattle.mips_isa.specs.Fits.{FieldsFit};
ghost use Rattle.mips_isa.specs.Words.{word_sum};
ghost use Rattle.mips_ref.specs.Facts.{Retires};
ghost use Rattle.mips_ref.specs.Job.{after};
ghost use Rattle.mips_ref.specs.Memory.{code_word_at};
ghost use Rattle.mips_ref.specs.Step.{step_of};
ghost use Rattle.core_window.specs.Beside.{Stands};
ghost use Rattle.core_window.specs.Core.{empty, opened, paired};
ghost use Rattle.core_window.specs.Events as events;
ghost use Rattle.core_window.specs.Events.{all_happen, attempt, commits, happens, or_core, or_same};
ghost use Rattle.core_window.specs.Outcomes as outcomes;
ghost use Rattle.core_window.specs.Shown.{shown_of};
ghost use Rattle.core_window.specs.declared.records.Status.TheVariants.{Waiting};

use crate::computed::outcome_by;
use crate::events::{
    committable, controls, cut_with, drop_first, entry_at, fetched_entry, finished_by, may_guess,
    put_back, set_entry, slot_to, surprise,
};
use crate::records::{Entry, EntryView, Event, Outcome, Status};
use crate::search::{is_ready, names_read, search, values};
use crate::shown::shown;
use mips_isa::{Instr, decode};
use mips_ref::{Retired, State, Step};
use std::alloc::{AllocError, Global};
use std::collections::VecDeque;
use std::marker::Model;

/// The instructions between their fetch and their commit, oldest first. Contracts see the entries with their outcomes, how many there
/// may be, the addresses of the next fetch and of the one after it, and what ended the window.
#[derive(Debug, Drop)]
pub struct Window {
    rob: u32,
    entries: VecDeque<Entry>,
    fetch_pc: u32,
    fetch_next: u32,
    ending: Option<Step>,
}

impl Model for Window {
    ghost use Rattle.std.specs.Prelude.{◌≤◌};
    ghost use Rattle.std.specs.VecDeque.{deque_capacity};
    ghost use Rattle.core_window.specs.Core.{Core};

    ghost Value = { Core };

    ghost view = { λ w. record { rob = w.rob; entries = w.entries.items; fetch_pc = w.fetch_pc; fetch_next = w.fetch_next; ending = w.ending } };

    ghost invariant = { λ w. w.rob ≤ deque_capacity w.entries };
}

// What ends a window beside a state.
fn ending_at(state: &State) -> Option<Step>
    ensures { result ≡ events.ending_at state.now.mips }
{
    if state.at_exit() {
        Some(Step::Exit)
    } else {
        None
    }
}

impl Window {
    /// An empty window with room for so many entries (the size of the reorder buffer). It stands beside no state until it is opened.
    pub fn new(alloc: Global, rob: u32) -> Result<Window, AllocError>
        ensures { IfOk result (λ w. w ≡ empty rob 0 0) }
    {
        let entries = VecDeque::with_capacity(alloc, rob as usize)?;
        Ok(Window {
            rob,
            entries,
            fetch_pc: 0,
            fetch_next: 0,
            ending: None,
        })
    }

    /// Opens the window on a state: no entry, and the state's next instruction is fetched next. Takes no memory.
    pub fn open(&mut self, state: &State)
        ensures core { self.new ≡ opened self.old.rob state.now.mips }
        ensures stands { Stands self.new state.now.mips }
    {
        let _ = state.memory();
        self.entries.clear();
        self.fetch_pc = state.pc();
        self.fetch_next = state.next_pc();
        self.ending = None;
    }

    /// How many entries there are. Takes no memory.
    pub fn len(&self) -> usize
        ensures { result ≡ length self.now.entries }
    {
        self.entries.len()
    }

    /// An entry, the oldest one being 0. Takes no memory.
    pub fn entry(&self, k: usize) -> EntryView
        requires { k < length self.now.entries }
        ensures { option_map shown_of (slice_get self.now.entries k) ≡ Some result }
    {
        shown(self.entries[k])
    }

    /// The addresses of the next fetch and of the one after it. Takes no memory.
    pub fn fetch_pair(&self) -> (u32, u32)
        ensures pc { result.0 ≡ self.now.fetch_pc }
        ensures next { result.1 ≡ self.now.fetch_next }
    {
        (self.fetch_pc, self.fetch_next)
    }

    /// What ended the window: Exit, or the trap of a commit; None while it hasn't ended. Takes no memory.
    pub fn ending(&self) -> Option<Step>
        ensures { result ≡ self.now.ending }
    {
        self.ending
    }

    // Puts an instruction at the fetch pair.
    fn put(&mut self, guess: u32, instr: Option<Instr>)
        requires { length self.old.entries < self.old.rob }
        ensures { self.new ≡ events.with_entry self.old guess instr }
    {
        put_back(
            &mut self.entries,
            fetched_entry(self.fetch_pc, self.fetch_next, guess, instr),
        );
        self.fetch_pc = self.fetch_next;
        self.fetch_next = guess;
    }

    // Whether an instruction may enter with a guess.
    fn takes(&self, guess: u32, instr: Option<Instr>) -> bool
        ensures { result ≡ events.takes self.now guess instr }
    {
        self.ending.is_none()
            && self.entries.len() < self.rob as usize
            && may_guess(instr, self.fetch_next, guess)
    }

    fn fetch_word(&mut self, guess: u32, word: Option<u32>) -> bool
        ensures made { result ≡ is_some (events.fetched self.old guess word) }
        ensures core { self.new ≡ or_core self.old (events.fetched self.old guess word) }
    {
        match word {
            None => false,
            Some(word) => {
                let instr = decode(word);
                if !self.takes(guess, instr) {
                    return false;
                }
                self.put(guess, instr);
                true
            }
        }
    }

    // The word at the fetch pair enters.
    fn fetch(&mut self, state: &State, guess: u32) -> bool
        ensures made { result ≡ is_some (events.fetched self.old guess (code_word_at state.now.mips.memory self.old.fetch_pc)) }
        ensures core { self.new ≡ or_core self.old (events.fetched self.old guess (code_word_at state.now.mips.memory self.old.fetch_pc)) }
    {
        let word = state.memory().code_at(self.fetch_pc);
        self.fetch_word(guess, word)
    }

    // An entry goes on to another status.
    fn to_status(&mut self, k: usize, e: Entry, status: Option<Status>) -> bool
        requires { slice_get self.old.entries k ≡ Some e }
        ensures made { result ≡ is_some (events.to_status self.old k e status) }
        ensures core { self.new ≡ or_core self.old (events.to_status self.old k e status) }
    {
        match status {
            None => false,
            Some(status) => {
                set_entry(&mut self.entries, k, Entry { status, ..e });
                true
            }
        }
    }

    // What an instruction of a waiting entry comes to, where its operands are there.
    fn run(&self, state: &State, k: usize, e: Entry, i: Instr) -> Option<Status>
        requires stands { Stands self.now state.now.mips }
        requires there { slice_get self.now.entries k ≡ Some e }
        requires fits { FieldsFit i }
        ensures { result ≡ events.issued_by (Some i) Waiting (take k self.now.entries) state.now.mips e }
    {
        let memory = state.memory();
        let found = search(&self.entries, k, names_read(i), state);
        if !is_ready(i, found) {
            return None;
        }
        let outcome = outcome_by(memory, &self.entries, k, i, e.pc, e.npc, values(found));
        Some(Status::Running(outcome))
    }

    fn issued_instr(&self, state: &State, k: usize, e: Entry, i: Instr) -> Option<Status>
        requires stands { Stands self.now state.now.mips }
        requires there { slice_get self.now.entries k ≡ Some e }
        requires fits { FieldsFit i }
        ensures { result ≡ events.issued_by (Some i) e.status (take k self.now.entries) state.now.mips e }
    {
        match e.status {
            Status::Waiting => self.run(state, k, e, i),
            Status::Running(_) | Status::Done(_) => None,
        }
    }

    #[tactic(auto, using(crate::proofs::Happened::entry_fits))]
    fn issued(&self, state: &State, k: usize, e: Entry) -> Option<Status>
        requires stands { Stands self.now state.now.mips }
        requires there { slice_get self.now.entries k ≡ Some e }
        ensures { result ≡ events.issued_by e.instr e.status (take k self.now.entries) state.now.mips e }
    {
        match e.instr {
            None => None,
            Some(i) => self.issued_instr(state, k, e, i),
        }
    }

    fn issue(&mut self, state: &State, k: usize) -> bool
        requires { Stands self.old state.now.mips }
        ensures made { result ≡ is_some (events.issued self.old state.now.mips k (slice_get self.old.entries k)) }
        ensures core { self.new ≡ or_core self.old (events.issued self.old state.now.mips k (slice_get self.old.entries k)) }
    {
        match entry_at(&self.entries, k) {
            None => false,
            Some(e) => {
                let status = self.issued(state, k, e);
                self.to_status(k, e, status)
            }
        }
    }

    fn finish(&mut self, k: usize) -> bool
        ensures made { result ≡ is_some (events.finished self.old k (slice_get self.old.entries k)) }
        ensures core { self.new ≡ or_core self.old (events.finished self.old k (slice_get self.old.entries k)) }
    {
        match entry_at(&self.entries, k) {
            None => false,
            Some(e) => self.to_status(k, e, finished_by(e.status)),
        }
    }

    // An entry follows what its outcome says, and all after it goes.
    fn keep_alone(&mut self, k: usize, e: Entry, next: u32)
        requires { slice_get self.old.entries k ≡ Some e }
        ensures { self.new ≡ events.cut_to self.old k (record e { guess = next } ∷ []) e.npc next }
    {
        cut_with(&mut self.entries, k, Entry { guess: next, ..e });
        self.fetch_pc = e.npc;
        self.fetch_next = next;
    }

    // The same, but its delay slot stays.
    fn keep_slot(&mut self, k: usize, e: Entry, next: u32, slot: Entry)
        requires there { slice_get self.old.entries k ≡ Some e }
        requires then { slice_get self.old.entries (k + 1) ≡ Some slot }
        ensures { self.new ≡ events.cut_to self.old k (record e { guess = next } ∷ events.slot_to next slot ∷ []) next (word_sum next 4) }
    {
        cut_with(&mut self.entries, k, Entry { guess: next, ..e });
        put_back(&mut self.entries, slot_to(next, slot));
        self.fetch_pc = next;
        self.fetch_next = next.wrapping_add(4);
    }

    fn cut_after(&mut self, k: usize, e: Entry, next: u32)
        requires { slice_get self.old.entries k ≡ Some e }
        ensures { self.new ≡ events.cut_after self.old k e next (slice_get self.old.entries (k + 1)) }
    {
        match entry_at(&self.entries, k + 1) {
            None => self.keep_alone(k, e, next),
            Some(slot) => {
                if controls(slot.instr) {
                    self.keep_alone(k, e, next);
                } else {
                    self.keep_slot(k, e, next, slot);
                }
            }
        }
    }

    #[tactic(auto, using(crate::proofs::Happened::no_squash, crate::proofs::Happened::squash_to))]
    fn squash_entry(&mut self, k: usize, e: Entry) -> bool
        requires { slice_get self.old.entries k ≡ Some e }
        ensures made { result ≡ is_some (events.squashed_by self.old k e e.status) }
        ensures core { self.new ≡ or_core self.old (events.squashed_by self.old k e e.status) }
    {
        match surprise(e) {
            None => false,
            Some(next) => {
                self.cut_after(k, e, next);
                true
            }
        }
    }

    fn squash(&mut self, k: usize) -> bool
        ensures made { result ≡ is_some (events.squashed self.old k (slice_get self.old.entries k)) }
        ensures core { self.new ≡ or_core self.old (events.squashed self.old k (slice_get self.old.entries k)) }
    {
        match entry_at(&self.entries, k) {
            None => false,
            Some(e) => self.squash_entry(k, e),
        }
    }

    // The state makes its next step by these parts; the oldest entry goes where that goes.
    #[tactic(auto, using(crate::proofs::Happened::step_state))]
    fn retire(&mut self, state: &mut State, i: Instr, r: Retired)
        requires { Retires state.old.mips i r }
        ensures core { self.new ≡ (events.after_step self.old (drop 1 self.old.entries) state.old.mips
            (step_of state.old.mips).answer (step_of state.old.mips).state).core }
        ensures state { state.new.mips ≡ (step_of state.old.mips).state }
        ensures computed { state.new.computed ≡ state.old.computed }
    {
        let answer = state.retire(i, r);
        match answer {
            Step::Went => {
                drop_first(&mut self.entries);
                self.ending = ending_at(state);
            }
            Step::Exit | Step::Trap(_, _) => self.ending = Some(answer),
        }
    }

    // Commits the oldest entry by its outcome.
    fn commit_by(&mut self, state: &mut State, e: Entry, outcome: Outcome)
        requires stands { Stands self.old state.old.mips }
        requires there { slice_get self.old.entries 0 ≡ Some e }
        requires has { outcomes.outcome_of e.status ≡ Some outcome }
        ensures core { self.new ≡ (events.after_step self.old (drop 1 self.old.entries) state.old.mips
            (step_of state.old.mips).answer (step_of state.old.mips).state).core }
        ensures state { state.new.mips ≡ (step_of state.old.mips).state }
        ensures computed { state.new.computed ≡ state.old.computed }
    {
        match outcome {
            Outcome::Trapped(kind) => self.ending = Some(Step::Trap(kind, e.pc)),
            Outcome::Parts(r) => match e.instr {
                None => unreachable!(),
                Some(i) => self.retire(state, i, r),
            },
        }
    }

    fn commit(&mut self, state: &mut State) -> bool
        requires { Stands self.old state.old.mips }
        ensures made { result ≡ is_some (events.committed self.old state.old.mips self.old.entries) }
        ensures core { self.new ≡ (or_same (paired self.old state.old.mips) (events.committed self.old state.old.mips self.old.entries)).core }
        ensures state { state.new.mips ≡ (or_same (paired self.old state.old.mips) (events.committed self.old state.old.mips self.old.entries)).state }
        ensures computed { state.new.computed ≡ state.old.computed }
    {
        let Some(e) = entry_at(&self.entries, 0) else {
            return false;
        };
        if self.ending.is_some() {
            return false;
        }
        match committable(e) {
            None => false,
            Some(outcome) => {
                self.commit_by(state, e, outcome);
                true
            }
        }
    }

    /// Makes an event happen to the window and the state that it was opened with or last left. False exactly where the event isn't
    /// enabled, and then nothing changes. A commit is made by what the entry holds, and isn't counted by the state. Takes no memory.
    pub fn apply(&mut self, state: &mut State, e: Event) -> bool
        requires { Stands self.old state.old.mips }
        ensures enabled { result ≡ is_some (attempt self.old state.old.mips e) }
        ensures core { self.new ≡ (happens (paired self.old state.old.mips) e).core }
        ensures state { state.new.mips ≡ (happens (paired self.old state.old.mips) e).state }
        ensures computed { state.new.computed ≡ state.old.computed }
        ensures stands { Stands self.new state.new.mips }
    {
        match e {
            Event::Fetch { guess } => self.fetch(state, guess),
            Event::Issue { k } => self.issue(state, k),
            Event::Finish { k } => self.finish(k),
            Event::Commit => self.commit(state),
            Event::Squash { k } => self.squash(k),
        }
    }

    /// Makes the events of a list happen, one after the other. The state that they leave is the reference's after as many steps as
    /// there were commits whose step went. Takes no memory.
    pub fn apply_all(&mut self, state: &mut State, events: &[Event])
        requires { Stands self.old state.old.mips }
        ensures core { self.new ≡ (all_happen (paired self.old state.old.mips) events.now).core }
        ensures state { state.new.mips ≡ (all_happen (paired self.old state.old.mips) events.now).state }
        ensures reference { state.new.mips ≡ after (commits (paired self.old state.old.mips) events.now) state.old.mips }
        ensures computed { state.new.computed ≡ state.old.computed }
        ensures stands { Stands self.new state.new.mips }
    {
        for e in events {
            let _ = self.apply(state, *e);
        }
    }
}
