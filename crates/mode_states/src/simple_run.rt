// A job in simple mode.
ghost use Rattle.std.specs.Prelude.{◌≡◌, ◌≤◌, ◌^◌};
ghost use Rattle.mode_states.specs.Ends.{SimpleEnd};

use crate::ending::Ending;
use crate::idle::Idle;
use crate::kept::Kept;
use mips_ref::State;
use ooo_clock::Fast;
use simple_pipe::{Pipe, PipeStop};
use std::marker::Model;

/// A job that goes on in simple mode. It has to be run.
#[must_use]
pub struct SimpleRun {
    pub(crate) kept: Kept,
    pub(crate) state: State,
    pub(crate) fast: Fast,
    pub(crate) pipe: Pipe,
    pub(crate) counts: Vec<u64>,
    pub(crate) point: usize,
    pub(crate) switch_ps: u64,
    pub(crate) spent_ps: u64,
}

impl Model for SimpleRun {
    ghost use Rattle.mode_states.specs.Views.{Going};

    ghost Value = { Going };

    ghost use Rattle.std.specs.Prelude.{length, vec_capacity};
    ghost use Rattle.mode_states.specs.Fits.{FitsSimpleRun, HoldsCounts};

    ghost view = { λ s. record {
      kept = s.kept;
      state = s.state;
      counts = s.counts.items;
      point = s.point;
      switch_ps = s.switch_ps;
      spent_ps = s.spent_ps;
    } };

    ghost invariant = { λ s. FitsSimpleRun s.kept s.state s.point s.spent_ps s.fast s.pipe
        × HoldsCounts (length s.kept.cuts) (length s.counts.items) (vec_capacity s.counts) };
}

// More instructions than a job has that ends by its deadline.
fn longest() -> u64
    ensures { result ≡ 10 ^ 12 }
{
    1_000_000_000_000
}

impl SimpleRun {
    /// Runs the job in the pipeline, from empty caches, until it ends; it ends by its deadline. Takes no memory.
    pub fn run(self) -> (Idle, Ending)
        ensures ends { SimpleEnd self result.0 result.1 }
        ensures in_time { result.1.end_ps ≤ self.kept.deadline_ps }
    {
        let SimpleRun {
            kept,
            mut state,
            fast,
            mut pipe,
            counts,
            point,
            switch_ps,
            spent_ps,
        } = self;
        match pipe.run_to(&mut state, longest()) {
            PipeStop::Ended { cycles, step } => {
                let end_ps = spent_ps + cycles * kept.period(point);
                let ending = Ending {
                    step,
                    switch_ps,
                    end_ps,
                };
                let idle = Idle {
                    kept,
                    state,
                    fast,
                    pipe,
                    counts,
                };
                (idle, ending)
            }
            PipeStop::Limit => unreachable!(),
        }
    }
}
