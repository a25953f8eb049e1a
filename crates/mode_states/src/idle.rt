// Between jobs.
ghost use Rattle.std.specs.Prelude.{◌≡◌, ◌≤◌, ◌<◌, ◌+◌, ◌-◌, [], IfOk, length, slice_index};
ghost use Rattle.admission.specs.Found.{bounds_at};
ghost use Rattle.mips_ref.specs.Mips.{blank};
ghost use Rattle.mode_states.specs.Kept.{AreTimesOf, IsMadeOf, IsPlanned, fastest, kept_of, opened_on};

use crate::fast_run::FastRun;
use crate::kept::Kept;
use crate::simple_run::SimpleRun;
use crate::watch::Watch;
use admission::Admitted;
use frequency_pick::{Pair, Plans};
use mips_ref::{Memory, State};
use ooo_clock::Fast;
use simple_pipe::Pipe;
use std::alloc::{AllocError, Global};
use std::marker::Model;
use task_text::Task;

/// The one machine between jobs, with what is kept of its admitted task.
#[derive(Drop)]
pub struct Idle {
    pub(crate) kept: Kept,
    pub(crate) state: State,
    pub(crate) fast: Fast,
    pub(crate) pipe: Pipe,
    // of the job before: the cycles of its sub-tasks that ended in fast mode, with room for those of the next job
    pub(crate) counts: Vec<u64>,
}

impl Model for Idle {
    ghost use Rattle.mode_states.specs.Views.{Resting};

    ghost Value = { Resting };

    ghost use Rattle.std.specs.Prelude.{length, vec_capacity};
    ghost use Rattle.mode_states.specs.Fits.{FitsIdle, HoldsCounts};

    ghost view = { λ s. record { kept = s.kept; state = s.state; counts = s.counts.items } };

    ghost invariant = { λ s. FitsIdle s.kept s.state s.fast s.pipe
        × HoldsCounts (length s.kept.cuts) (length s.counts.items) (vec_capacity s.counts) };
}

impl Idle {
    /// The machine of a task, before its first job. The admission was made of this task, this entry and the code in
    /// this memory's executable ranges; the task's input buffer can be stored to, and the ranges that it shows are
    /// declared. It takes all memory that its jobs need, with the room of their counts.
    pub fn open(
        alloc: Global,
        task: &Task,
        entry: u32,
        admitted: Admitted,
        memory: Memory,
    ) -> Result<Idle, AllocError>
        requires { IsMadeOf task.now entry admitted memory }
        ensures { IfOk result (λ i. i ≡ record {
          kept = kept_of task.now entry admitted;
          state = record { mips = blank memory task.now.out_max; computed = 0 };
          counts = [];
        }) }
    {
        let fast = Fast::new(alloc, &task.machine)?;
        let pipe = Pipe::new(alloc, &task.machine)?;
        let kept = Kept::new(alloc, task, entry, admitted)?;
        let counts = Vec::with_capacity(alloc, task.cuts.len() + 1)?;
        let Ok(state) = State::new(alloc, memory, task.out_max) else {
            return Err(AllocError);
        };
        Ok(Idle {
            kept,
            state,
            fast,
            pipe,
            counts,
        })
    }

    /// Releases a job in fast mode at a pair of operating points that has a plan: the state is the opening one of
    /// this input. Takes no memory.
    pub fn release(self, input: &[u8], pair: Pair) -> FastRun
        requires fits { length input.now ≤ self.kept.input_len }
        requires planned { IsPlanned self.kept pair }
        ensures { result ≡ record {
          kept = self.kept;
          state = opened_on self.kept input.now self.state;
          pair = pair;
        } }
    {
        let Idle {
            kept,
            mut state,
            mut fast,
            pipe,
            mut counts,
        } = self;
        state.open(kept.entry, kept.stack, kept.input_at, kept.input_len, input);
        fast.open(&state, kept.period(pair.a as usize));
        counts.clear();
        FastRun {
            kept,
            state,
            fast,
            pipe,
            pair,
            watch: Watch { counts, last: 0 },
        }
    }

    /// Releases a job in simple mode at the fastest point: the state is the opening one of this input. Takes no
    /// memory.
    pub fn release_simple(self, input: &[u8]) -> SimpleRun
        requires { length input.now ≤ self.kept.input_len }
        ensures { result ≡ record {
          kept = self.kept;
          state = opened_on self.kept input.now self.state;
          counts = [];
          point = fastest self.kept;
          switch_ps = 0;
          spent_ps = self.kept.machine.start_ps;
        } }
    {
        let Idle {
            kept,
            mut state,
            mut fast,
            mut pipe,
            mut counts,
        } = self;
        let point = kept.points.len() - 1;
        let period = kept.period(point);
        state.open(kept.entry, kept.stack, kept.input_at, kept.input_len, input);
        fast.open(&state, period);
        pipe.start(period);
        counts.clear();
        let spent_ps = kept.machine.start_ps;
        SimpleRun {
            kept,
            state,
            fast,
            pipe,
            counts,
            point,
            switch_ps: 0,
            spent_ps,
        }
    }

    /// The last state of the job before, or the state before the first job. Takes no memory.
    pub fn state(&self) -> &State
        ensures { result.now ≡ self.now.state }
    {
        &self.state
    }

    /// The cycles of the sub-tasks of the job before that ended in fast mode, in order; there are no more of them
    /// than sub-tasks. Takes no memory.
    pub fn counts(&self) -> &[u64]
        ensures value { result.now ≡ self.now.counts }
        ensures few { length result.now ≤ length self.now.kept.cuts + 1 }
    {
        self.counts.as_slice()
    }

    /// How many sub-tasks there are. Takes no memory.
    pub fn subs(&self) -> usize
        ensures { result ≡ length self.now.kept.cuts + 1 }
    {
        self.kept.cuts.len() + 1
    }

    /// The plans of the pairs of operating points. They are for all sub-tasks, and at each point each of these has a
    /// bound. Takes no memory.
    pub fn plans(&self) -> &Plans
        ensures value { result.now ≡ self.now.kept.admitted.plans }
        ensures times { AreTimesOf self.now.kept }
    {
        self.kept.admitted.plans()
    }

    /// The bound of a sub-task, which is numbered from 1, at an operating point, which is numbered from 0, cycles.
    /// Takes no memory.
    pub fn bound(&self, point: usize, sub: usize) -> u64
        requires point { point < length self.now.kept.admitted.bounds }
        requires least { 1 ≤ sub }
        requires most { sub ≤ length (bounds_at self.now.kept.admitted.bounds point) }
        ensures { result ≡ slice_index (bounds_at self.now.kept.admitted.bounds point) (sub - 1) }
    {
        self.kept.admitted.bound(point, sub)
    }
}
