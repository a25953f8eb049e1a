// One cycle.
ghost use Rattle.std.specs.Prelude.{◌≡◌, ◌≤◌, ◌<◌, ◌+◌, ◌^◌, vec_capacity};
ghost use Rattle.cache_lru.specs.Contents.{shape_of};
ghost use Rattle.core_window.specs.Events.{is_open};
ghost use Rattle.ooo_clock.specs.Clock.{Clock};
ghost use Rattle.ooo_clock.specs.Cycle.{cycle_of, cycled_of, unless_ended};
ghost use Rattle.ooo_clock.specs.Moves.{Move as Moved};
ghost use Rattle.ooo_clock.specs.Shows.{AreSound, Shows, Stays, speeds_of};

use crate::clock::Parts;
use mips_ref::State;
use predictors::Predictor;

impl Parts {
    // The phases after the commits, unless these ended the window.
    fn after_commits<P: Predictor>(&mut self, state: &mut State, p: &P)
        requires { AreSound self.old state.old.mips }
        ensures shows { (m : Moved) → Shows self.old state.old.mips (P.data_of p.now) m.clock
            → Shows self.new state.new.mips (P.data_of p.now)
            (unless_ended (speeds_of self.old) (record { guess = P.guess_of; learnt = P.learnt_of })
            (is_open m.clock.core.ending) m).clock }
        ensures sound { AreSound self.new state.new.mips }
        ensures stays { Stays self.old self.new }
        ensures computed { state.new.computed ≡ state.old.computed }
    {
        if self.window.ending().is_some() {
            return;
        }
        self.finishes(state);
        self.issues(state);
        self.fetches(state, p);
    }

    // Performs a cycle, and leaves in the list the pcs at which the state stood after each commit whose step went.
    pub fn cycle<P: Predictor>(&mut self, state: &mut State, p: &mut P, pcs: &mut Vec<u32>)
        requires sound { AreSound self.old state.old.mips }
        requires cycle { self.old.cycle < 10 ^ 18 }
        requires room { self.old.pace.width ≤ vec_capacity pcs.old }
        ensures shows { (q : Clock) → Shows self.old state.old.mips (P.data_of p.old) q
            → Shows self.new state.new.mips (P.data_of p.new)
            (cycle_of (speeds_of self.old) (record { guess = P.guess_of; learnt = P.learnt_of }) q).clock }
        ensures pcs { (q : Clock) → Shows self.old state.old.mips (P.data_of p.old) q
            → pcs.new.items ≡ (cycled_of (speeds_of self.old)
            (record { guess = P.guess_of; learnt = P.learnt_of }) q).pcs }
        ensures capacity { vec_capacity pcs.new ≡ vec_capacity pcs.old }
        ensures sound { AreSound self.new state.new.mips }
        ensures cycle { self.new.cycle ≡ self.old.cycle + 1 }
        ensures pace { self.new.pace ≡ self.old.pace }
        ensures icache { shape_of self.new.icache ≡ shape_of self.old.icache }
        ensures dcache { shape_of self.new.dcache ≡ shape_of self.old.dcache }
        ensures computed { state.new.computed ≡ state.old.computed }
    {
        self.commits(state, p, pcs);
        self.after_commits(state, p);
        self.cycle += 1;
    }
}
