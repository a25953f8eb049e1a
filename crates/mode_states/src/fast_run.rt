// A job in fast mode, and after a missed checkpoint.
ghost use Rattle.std.specs.Prelude.{◌≡◌, ◌≤◌, ◌<◌, ◌+◌, ◌*◌, length, vec_capacity};
ghost use Rattle.checkpoint_plan.specs.Plan.{switch_of};
ghost use Rattle.mode_states.specs.Ends.{EndsInTime, IsFastEnd, course_of};
ghost use Rattle.mode_states.specs.Fits.{FitsEnd, HoldsCounts};
ghost use Rattle.ooo_clock.specs.Clock.{Predicts};
ghost use Rattle.mode_states.specs.Kept.{period_at};

use crate::ending::Ending;
use crate::idle::Idle;
use crate::kept::Kept;
use crate::running::run_to_stop;
use crate::simple_run::SimpleRun;
use crate::switching::switch_time;
use crate::watch::Watch;
use frequency_pick::Pair;
use mips_ref::{State, Step};
use ooo_clock::Fast;
use predictors::Predictor;
use simple_pipe::Pipe;
use std::marker::Model;

/// A job that is released in fast mode. It has to be run.
#[must_use]
pub struct FastRun {
    pub(crate) kept: Kept,
    pub(crate) state: State,
    pub(crate) fast: Fast,
    pub(crate) pipe: Pipe,
    pub(crate) pair: Pair,
    pub(crate) watch: Watch,
}

impl Model for FastRun {
    ghost use Rattle.mode_states.specs.Views.{Released};

    ghost Value = { Released };

    ghost use Rattle.mode_states.specs.Fits.{FitsFastRun};

    ghost view = { λ s. record { kept = s.kept; state = s.state; pair = s.pair } };

    ghost invariant = { λ s. FitsFastRun s.kept s.state s.pair s.fast s.pipe s.watch };
}

/// How a job in fast mode ends: it has ended, or a checkpoint was missed.
#[must_use]
pub enum FastEnd {
    Ended(Idle, Ending),
    Missed(Draining),
}

/// A job that has missed a checkpoint; nothing more of it is committed in fast mode. It has to be switched to simple
/// mode.
#[must_use]
pub struct Draining {
    pub(crate) kept: Kept,
    pub(crate) state: State,
    pub(crate) fast: Fast,
    pub(crate) pipe: Pipe,
    pub(crate) pair: Pair,
    pub(crate) counts: Vec<u64>,
    // from 1
    pub(crate) sub: u32,
    pub(crate) at: u64,
    pub(crate) flight: u64,
}

impl Model for Draining {
    ghost use Rattle.mode_states.specs.Views.{Waiting};

    ghost Value = { Waiting };

    ghost use Rattle.std.specs.Prelude.{length, vec_capacity};
    ghost use Rattle.mode_states.specs.Fits.{FitsDraining, HoldsCounts};

    ghost view = { λ s. record {
      kept = s.kept;
      state = s.state;
      pair = s.pair;
      counts = s.counts.items;
      sub = s.sub;
      at = s.at;
      flight = s.flight;
    } };

    ghost invariant = { λ s. FitsDraining s.kept s.state s.pair s.sub s.at s.flight s.fast s.pipe
        × HoldsCounts (length s.kept.cuts) (length s.counts.items) (vec_capacity s.counts) };
}

impl FastRun {
    /// Runs the job cycle by cycle, until it ends or misses a checkpoint. Before each cycle: if the job hasn't ended,
    /// and the cycles performed are at least the watchdog of the first sub-task that hasn't ended, the checkpoint of
    /// that sub-task is missed. A sub-task under way ends with the cycle in which the pc after a commit is the cut
    /// that begins the next one, or with the job. A job that ends in fast mode ends after its cycles at the
    /// speculative point, and by its deadline. No more cycles are performed than the watchdog of the last sub-task
    /// allows, whatever the predictor says. Takes no memory. After the VISA paper; the exact form is this project's
    /// own.
    pub fn run<P: Predictor>(self, p: &mut P) -> FastEnd
        ensures ends { let predicts : Predicts = record { guess = P.guess_of; learnt = P.learnt_of } in
            IsFastEnd (course_of predicts self (P.data_of p.old)) self result (P.data_of p.new) }
        ensures in_time { EndsInTime self result }
    {
        let FastRun {
            kept,
            mut state,
            mut fast,
            pipe,
            pair,
            mut watch,
        } = self;
        let stopped = run_to_stop(
            kept.cuts.as_slice(),
            kept.watchdogs(pair),
            &mut state,
            &mut fast,
            &mut watch,
            p,
        );
        match stopped {
            None => FastEnd::Missed(Draining {
                sub: watch.sub() as u32 + 1,
                at: fast.cycles(),
                flight: fast.in_flight(),
                kept,
                state,
                fast,
                pipe,
                pair,
                counts: watch.counts,
            }),
            Some(step) => {
                let (idle, ending) = end(kept, state, fast, pipe, pair, watch.counts, step);
                FastEnd::Ended(idle, ending)
            }
        }
    }
}

// A job has ended in fast mode.
fn end(
    kept: Kept,
    state: State,
    fast: Fast,
    pipe: Pipe,
    pair: Pair,
    counts: Vec<u64>,
    step: Step,
) -> (Idle, Ending)
    requires fits { FitsEnd kept state pair fast pipe }
    requires counts { HoldsCounts (length kept.cuts) (length counts.items) (vec_capacity counts) }
    ensures idle { result.0 ≡ record { kept = kept; state = state; counts = counts.items } }
    ensures ending { result.1 ≡ record {
      step = step;
      switch_ps = 0;
      end_ps = kept.machine.start_ps + fast.cycle * period_at kept pair.a;
    } }
{
    let end_ps = kept.machine.start_ps + fast.cycles() * kept.period(pair.a as usize);
    let ending = Ending {
        step,
        switch_ps: 0,
        end_ps,
    };
    let idle = Idle {
        kept,
        state,
        fast,
        pipe,
        counts,
    };
    (idle, ending)
}

impl Draining {
    /// The sub-task whose checkpoint was missed, numbered from 1. Takes no memory.
    pub fn sub(&self) -> u32
        ensures value { result ≡ self.now.sub }
        ensures least { 1 ≤ result }
        ensures most { result ≤ length self.now.kept.cuts + 1 }
    {
        self.sub
    }

    /// How many cycles were performed then. Takes no memory.
    pub fn at(&self) -> u64
        ensures { result ≡ self.now.at }
    {
        self.at
    }

    /// Switches to simple mode at the recovery point: accesses in flight are waited for, the clock settles, registers
    /// and lines are handed over; window, pipeline and caches are emptied, and the state stays. Takes no memory.
    /// After the VISA paper; the exact form is this project's own.
    pub fn switch(self) -> SimpleRun
        ensures { let pa = period_at self.kept self.pair.a in
            let taken = switch_of self.kept.machine self.flight pa (period_at self.kept self.pair.b) in
            result ≡ record {
              kept = self.kept;
              state = self.state;
              counts = self.counts;
              point = self.pair.b;
              switch_ps = taken;
              spent_ps = self.kept.machine.start_ps + self.at * pa + taken;
            } }
    {
        let Draining {
            kept,
            state,
            mut fast,
            mut pipe,
            pair,
            counts,
            sub: _sub,
            at,
            flight,
        } = self;
        let point = pair.b as usize;
        let (pa, pb) = (kept.period(pair.a as usize), kept.period(point));
        let switch_ps = switch_time(&kept.machine, flight, pa, pb);
        let spent_ps = kept.machine.start_ps + at * pa + switch_ps;
        fast.open(&state, pb);
        pipe.start(pb);
        SimpleRun {
            kept,
            state,
            fast,
            pipe,
            counts,
            point,
            switch_ps,
            spent_ps,
        }
    }
}
