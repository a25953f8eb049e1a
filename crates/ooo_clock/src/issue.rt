// The issues of a cycle.
ghost use Rattle.std.specs.Prelude.{◌≡◌, ◌≤◌, ◌<◌, ◌+◌, ◌^◌, ℕ, List, Some, true, false, length, slice_get, slice_set, take};
ghost use Rattle.std.specs.Option.{option_map};
ghost use Rattle.std.specs.VecDeque.{deque_capacity};
ghost use Rattle.mips_ref.specs.Memory as memory;
ghost use Rattle.mips_ref.specs.Mips.{Mips};
ghost use Rattle.core_window.specs.Outcomes as outcomes;
ghost use Rattle.core_window.specs.Shown.{shown_of};
ghost use Rattle.ooo_clock.specs.Clock.{Clock};
ghost use Rattle.ooo_clock.specs.Cycle.{repeat};
ghost use Rattle.ooo_clock.specs.Moves as moves;
ghost use Rattle.ooo_clock.specs.Moves.{is_due, issue_at, issue_move, load_at, load_with};
ghost use Rattle.ooo_clock.specs.Owing.{Owes};
ghost use Rattle.ooo_clock.specs.Shows.{AreSound, Made, Shows, Stays, issue_due_in, speeds_of};
ghost use Rattle.ooo_clock.specs.Views as views;

use crate::clock::{Parts, Times};
use crate::finish::times_at;
use crate::pending::Pending;
use core_window::{EntryView, Event, Status3};
use mips_isa::{Instr, Kind, kind};
use mips_ref::State;
use std::collections::VecDeque;

pub(crate) fn is_load(i: Instr) -> bool
    ensures { result ≡ outcomes.is_load i }
{
    matches!(i, Instr::Load { .. })
}

fn loads(instr: Option<Instr>) -> bool
    ensures { result ≡ moves.loads instr }
{
    match instr {
        None => false,
        Some(i) => is_load(i),
    }
}

pub(crate) fn is_waiting(status: Status3) -> bool
    ensures { result ≡ views.is_waiting status }
{
    matches!(status, Status3::Waiting)
}

// Whether an entry is a load that has run into no trap.
fn loads_now(v: EntryView) -> bool
    ensures { result ≡ views.loads_now v }
{
    loads(v.instr) && (!is_waiting(v.status) && !v.trap.is_some())
}

fn in_port(at: u32) -> bool
    ensures { result ≡ memory.in_port at }
{
    at >= 0xffff_0000 && u64::from(at) < 0xffff_0004
}

fn set_times(times: &mut VecDeque<Times>, k: usize, t: Times)
    requires { k < length times.old.items }
    ensures items { times.new.items ≡ slice_set times.old.items k t }
    ensures capacity { deque_capacity times.new ≡ deque_capacity times.old }
{
    times[k] = t;
}

impl Parts {
    fn latency_of(&self, kind: Kind) -> u32
        ensures { result ≡ moves.latency_of (speeds_of self.now) kind }
    {
        match kind {
            Kind::Mul => self.pace.mul,
            Kind::Div => self.pace.div,
            Kind::Plain
            | Kind::Load
            | Kind::Store
            | Kind::Branch
            | Kind::Jump
            | Kind::Call
            | Kind::Return
            | Kind::Indirect
            | Kind::Stop => 1,
        }
    }

    // The cycles of an entry that loads nothing.
    fn latency(&self, v: EntryView) -> u32
        ensures { result ≡ views.latency (speeds_of self.now) v }
    {
        let waiting = is_waiting(v.status);
        match v.instr {
            None => 1,
            Some(i) => { if waiting { 1 } else { self.latency_of(kind(i)) } }
        }
    }

    // Whether the time of an entry has come, its operands aside.
    fn in_time(&self, v: EntryView, t: Times) -> bool
        ensures { result ≡ views.in_time v t self.now.load_free self.now.cycle }
    {
        self.cycle >= 2
            && t.fetched <= self.cycle - 2
            && (!loads(v.instr) || self.load_free <= self.cycle)
    }

    // An entry runs until some cycles have passed.
    fn ends_after(&mut self, k: usize, t: Times, latency: u32)
        requires within { k < length self.old.times.items }
        requires cycle { self.old.cycle ≤ 10 ^ 18 }
        ensures parts { self.new ≡ record self.old { times = self.new.times } }
        ensures times { self.new.times.items ≡ slice_set self.old.times.items k
            (record t { ends = self.old.cycle + latency }) }
        ensures capacity { deque_capacity self.new.times ≡ deque_capacity self.old.times }
    {
        let ends = self.cycle + u64::from(latency);
        set_times(&mut self.times, k, Times { ends, ..t });
    }

    // A load that misses, or that is one of the port.
    fn load_misses(&mut self, k: usize, t: Times)
        requires within { k < length self.old.times.items }
        requires cycle { self.old.cycle ≤ 10 ^ 18 }
        requires miss { self.old.pace.miss ≤ 100000 }
        ensures parts { self.new ≡ record self.old {
          times = self.new.times;
          load_free = self.old.cycle + 1 +
              self.old.pace.miss;
        } }
        ensures times { self.new.times.items ≡ slice_set self.old.times.items k
            (record t { ends = self.old.cycle + (2 + self.old.pace.miss) }) }
        ensures capacity { deque_capacity self.new.times ≡ deque_capacity self.old.times }
    {
        self.load_free = self.cycle + 1 + u64::from(self.pace.miss);
        self.ends_after(k, t, 2 + self.pace.miss);
    }

    fn load_hits(&mut self, k: usize, t: Times)
        requires within { k < length self.old.times.items }
        requires cycle { self.old.cycle ≤ 10 ^ 18 }
        ensures parts { self.new ≡ record self.old { times = self.new.times; load_free = self.old.cycle + 1 } }
        ensures times { self.new.times.items ≡ slice_set self.old.times.items k
            (record t { ends = self.old.cycle + 2 }) }
        ensures capacity { deque_capacity self.new.times ≡ deque_capacity self.old.times }
    {
        self.load_free = self.cycle + 1;
        self.ends_after(k, t, 2);
    }

    // A load at an address.
    fn load(&mut self, k: usize, t: Times, at: u32)
        requires within { k < length self.old.times.items }
        requires cycle { self.old.cycle ≤ 10 ^ 18 }
        requires miss { self.old.pace.miss ≤ 100000 }
        ensures shows { (x : Mips) (numbers : List ℕ) (q : Clock) → Shows self.old x numbers q
            → Shows self.new x numbers (load_at (speeds_of self.old) q k t q.core at) }
        ensures window { self.new.window ≡ self.old.window }
        ensures len { length self.new.times.items ≡ length self.old.times.items }
        ensures capacity { deque_capacity self.new.times ≡ deque_capacity self.old.times }
        ensures stays { Stays self.old self.new }
    {
        if in_port(at) {
            self.load_misses(k, t);
            return;
        }
        let hit = self.dcache.access(at);
        if hit {
            self.load_hits(k, t);
        } else {
            self.load_misses(k, t);
        }
    }

    // An entry that was issued runs.
    fn run(&mut self, k: usize, t: Times, v: EntryView)
        requires within { k < length self.old.times.items }
        requires cycle { self.old.cycle ≤ 10 ^ 18 }
        requires miss { self.old.pace.miss ≤ 100000 }
        ensures shows { (x : Mips) (numbers : List ℕ) (q : Clock) → Shows self.old x numbers q
            → Shows self.new x numbers (views.issued_view (speeds_of self.old) q k t q.core v) }
        ensures window { self.new.window ≡ self.old.window }
        ensures len { length self.new.times.items ≡ length self.old.times.items }
        ensures capacity { deque_capacity self.new.times ≡ deque_capacity self.old.times }
        ensures stays { Stays self.old self.new }
    {
        if loads_now(v) {
            match v.at {
                None => self.ends_after(k, t, 1),
                Some(at) => self.load(k, t, at),
            }
        } else {
            let latency = self.latency(v);
            self.ends_after(k, t, latency);
        }
    }

    // Issues an entry, where that is due.
    fn issue_entry(&mut self, state: &mut State, k: usize) -> bool
        requires sound { AreSound self.old state.old.mips }
        requires within { k < length self.old.window.entries }
        ensures due { result ≡ is_due (issue_due_in self.old state.old.mips k) self.old.cycle }
        ensures made { (numbers : List ℕ) (q : Clock) → Shows self.old state.old.mips numbers q → result ≡ true
            → Made (issue_at (speeds_of self.old) q (Some k)) true self.new state.new.mips numbers q }
        ensures parts { result ≡ false → self.new ≡ self.old }
        ensures state { result ≡ false → state.new.mips ≡ state.old.mips }
        ensures sound { AreSound self.new state.new.mips }
        ensures stays { Stays self.old self.new }
        ensures computed { state.new.computed ≡ state.old.computed }
    {
        match times_at(&self.times, k) {
            None => false,
            Some(t) => {
                let waiting = self.window.entry(k);
                if !self.in_time(waiting, t) {
                    return false;
                }
                if !self.window.apply(state, Event::Issue { k }) {
                    return false;
                }
                let running = self.window.entry(k);
                self.run(k, t, running);
                true
            }
        }
    }

    // The same for an entry that the older ones may owe an operand.
    fn issue_past(&mut self, state: &mut State, k: usize, older: &Pending, v: EntryView) -> bool
        requires sound { AreSound self.old state.old.mips }
        requires within { k < length self.old.window.entries }
        requires owes { Owes older.now (take k self.old.window.entries) state.old.mips }
        requires shown { option_map shown_of (slice_get self.old.window.entries k) ≡ Some v }
        ensures due { result ≡ is_due (issue_due_in self.old state.old.mips k) self.old.cycle }
        ensures made { (numbers : List ℕ) (q : Clock) → Shows self.old state.old.mips numbers q → result ≡ true
            → Made (issue_at (speeds_of self.old) q (Some k)) true self.new state.new.mips numbers q }
        ensures parts { result ≡ false → self.new ≡ self.old }
        ensures state { result ≡ false → state.new.mips ≡ state.old.mips }
        ensures sound { AreSound self.new state.new.mips }
        ensures stays { Stays self.old self.new }
        ensures computed { state.new.computed ≡ state.old.computed }
    {
        if older.delays(v) {
            return false;
        }
        self.issue_entry(state, k)
    }

    // Issues the oldest entry that is due.
    pub fn issue_once(&mut self, state: &mut State) -> bool
        requires { AreSound self.old state.old.mips }
        ensures made { (numbers : List ℕ) (q : Clock) → Shows self.old state.old.mips numbers q
            → Made (issue_move (speeds_of self.old) q) result self.new state.new.mips numbers q }
        ensures sound { AreSound self.new state.new.mips }
        ensures stays { Stays self.old self.new }
        ensures computed { state.new.computed ≡ state.old.computed }
    {
        let mut older = Pending::none();
        for k in 0..self.window.len() {
            let v = self.window.entry(k);
            if self.issue_past(state, k, &older, v) {
                return true;
            }
            older.pass(v);
        }
        false
    }

    // The issues of a cycle.
    pub fn issues(&mut self, state: &mut State)
        requires { AreSound self.old state.old.mips }
        ensures shows { (numbers : List ℕ) (q : Clock) → Shows self.old state.old.mips numbers q
            → Shows self.new state.new.mips numbers (repeat self.old.pace.width (issue_move
            (speeds_of self.old)) q).clock }
        ensures sound { AreSound self.new state.new.mips }
        ensures stays { Stays self.old self.new }
        ensures computed { state.new.computed ≡ state.old.computed }
    {
        for _issue in 0..self.pace.width {
            if !self.issue_once(state) {
                return;
            }
        }
    }
}
