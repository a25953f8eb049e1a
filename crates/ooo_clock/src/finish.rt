// The finishes of a cycle, and the squashes that follow them.
ghost use Rattle.std.specs.Prelude.{◌≡◌, ◌≤◌, ◌<◌, ◌+◌, ℕ, List, Some, true, false, length, slice_get, take};
ghost use Rattle.std.specs.VecDeque.{deque_capacity};
ghost use Rattle.ooo_clock.specs.Clock.{Clock};
ghost use Rattle.ooo_clock.specs.Cycle.{repeat};
ghost use Rattle.ooo_clock.specs.Moves.{finish_at, finish_move, is_due};
ghost use Rattle.ooo_clock.specs.Shows.{AreSound, Made, Shows, Stays, over_due};
ghost use Rattle.ooo_clock.specs.Views as views;

use crate::clock::{Parts, Times};
use core_window::{Event, Status3};
use mips_ref::State;
use std::collections::VecDeque;

fn is_running(status: Status3) -> bool
    ensures { result ≡ views.is_running status }
{
    matches!(status, Status3::Running)
}

pub(crate) fn times_at(times: &VecDeque<Times>, k: usize) -> Option<Times>
    ensures { result ≡ slice_get times.now.items k }
{
    times.get(k).copied()
}

fn cut(times: &mut VecDeque<Times>, count: usize)
    ensures items { times.new.items ≡ take count times.old.items }
    ensures capacity { deque_capacity times.new ≡ deque_capacity times.old }
{
    times.truncate(count);
}

impl Parts {
    // Whether an entry runs and has come to its end.
    fn is_over(&self, k: usize) -> bool
        requires { k < length self.now.window.entries }
        ensures { result ≡ is_due (over_due self.now k) self.now.cycle }
    {
        let running = is_running(self.window.entry(k).status);
        match times_at(&self.times, k) {
            None => false,
            Some(t) => running && t.ends <= self.cycle,
        }
    }

    // Finishes an entry at its end, and squashes it where its guess was wrong.
    fn finish_entry(&mut self, state: &mut State, k: usize)
        requires sound { AreSound self.old state.old.mips }
        requires over { is_due (over_due self.old k) self.old.cycle ≡ true }
        ensures made { (numbers : List ℕ) (q : Clock) → Shows self.old state.old.mips numbers q
            → Made (finish_at q (Some k)) true self.new state.new.mips numbers q }
        ensures passed { ((j : ℕ) → j < k → is_due (over_due self.old j) self.old.cycle ≡ false)
            → (j : ℕ) → j < k + 1 → is_due (over_due self.new j) self.new.cycle ≡ false }
        ensures fewer { length self.new.window.entries ≤ length self.old.window.entries }
        ensures sound { AreSound self.new state.new.mips }
        ensures stays { Stays self.old self.new }
        ensures computed { state.new.computed ≡ state.old.computed }
    {
        let _ = self.window.apply(state, Event::Finish { k });
        if self.window.apply(state, Event::Squash { k }) {
            cut(&mut self.times, self.window.len());
        }
    }

    // The finishes of a cycle, in one pass from the oldest entry on.
    pub fn finishes(&mut self, state: &mut State)
        requires { AreSound self.old state.old.mips }
        ensures shows { (numbers : List ℕ) (q : Clock) → Shows self.old state.old.mips numbers q
            → Shows self.new state.new.mips numbers (repeat (length self.old.window.entries) finish_move q).clock }
        ensures sound { AreSound self.new state.new.mips }
        ensures stays { Stays self.old self.new }
        ensures computed { state.new.computed ≡ state.old.computed }
    {
        for k in 0..self.window.len() {
            if k >= self.window.len() {
                return;
            }
            if !self.is_over(k) {
                continue;
            }
            self.finish_entry(state, k);
        }
    }
}
