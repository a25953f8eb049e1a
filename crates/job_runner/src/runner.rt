// Runs the jobs of a task one after the other.
ghost use Rattle.std.specs.Prelude.{◌≡◌, ◌≤◌, ◌<◌, ◌+◌, ◌-◌, ℕ, List, [], ◌∷◌, IfOk, length, slice_index};
ghost use Rattle.admission.specs.Found.{bounds_at};
ghost use Rattle.admission.specs.declared.mode.Mode.TheVariants as admitted;
ghost use Rattle.frequency_pick.specs.Counts.{Count, StandsFor, count};
ghost use Rattle.ooo_clock.specs.Clock.{Predicts};
ghost use Rattle.mode_states.specs.Ends.{SimpleEnd};
ghost use Rattle.mode_states.specs.Kept.{AreTimesOf, IsPlanned};
ghost use Rattle.job_runner.specs.Run.{with_subs};
ghost use Rattle.job_runner.specs.Running.{HasRun, IsTold, fastest_pair, switched};

use crate::telling::tell;
use frequency_pick::{History, Pair, pick};
use log_text::{JobMode, JobRecord};
use mips_ref::State;
use mode_states::{Draining, Ending, FastEnd, Idle};
use predictors::Predictor;
use std::alloc::{AllocError, Global};
use std::marker::Model;

/// Runs the jobs of an admitted task, one after the other, on the one machine.
#[derive(Drop)]
pub struct Runner {
    idle: Idle,
    history: History,
    // how many jobs ran; it stays at the last number of 64 bits
    ran: u64,
}

impl Model for Runner {
    ghost use Rattle.job_runner.specs.Running.{IsTold, Running};

    ghost Value = { Running };

    ghost view = { λ r. record { idle = r.idle; history = r.history; ran = r.ran } };

    ghost invariant = { λ r. IsTold r.idle.kept r.history };
}

// A job has ended in fast mode.
fn fast_end(
    idle: Idle,
    ending: Ending,
    mut history: History,
    number: u64,
    pair: Pair,
) -> (Runner, JobRecord)
    requires { IsTold idle.kept history }
    ensures idle { result.0.idle ≡ idle }
    ensures ran { result.0.ran ≡ number }
    ensures job { result.1 ≡ record {
      number = number;
      mode = JobMode.Fast pair;
      end_ps = ending.end_ps;
      step = ending.step;
    } }
    ensures stands { (cs : List Count) → StandsFor history cs → StandsFor result.0.history (with_subs 1 idle.counts cs) }
{
    tell(&mut history, idle.counts());
    let job = JobRecord {
        number,
        mode: JobMode::Fast { pair },
        end_ps: ending.end_ps,
        step: ending.step,
    };
    let runner = Runner {
        idle,
        history,
        ran: number,
    };
    (runner, job)
}

// A job has missed a checkpoint: its rest runs in simple mode. The history is told the counts of the sub-tasks that ended before, and
// then the bound of the missed one at the speculative point.
fn missed_end(
    draining: Draining,
    mut history: History,
    number: u64,
    pair: Pair,
) -> (Runner, JobRecord)
    requires told { IsTold draining.kept history }
    requires times { AreTimesOf draining.kept }
    requires planned { IsPlanned draining.kept pair }
    ensures ran { result.0.ran ≡ number }
    ensures number { result.1.number ≡ number }
    ensures mode { result.1.mode ≡ JobMode.Missed draining.sub pair draining.at (switched draining).switch_ps }
    ensures ends { SimpleEnd (switched draining) result.0.idle (record {
      step = result.1.step;
      switch_ps = (switched draining).switch_ps;
      end_ps = result.1.end_ps;
    }) }
    ensures in_time { result.1.end_ps ≤ draining.kept.deadline_ps }
    ensures stands { (cs : List Count) → StandsFor history cs
        → let bound = slice_index (bounds_at draining.kept.admitted.bounds pair.a) (draining.sub - 1) in
        StandsFor result.0.history (count draining.sub bound ∷ with_subs 1 draining.counts cs) }
{
    let (sub, at) = (draining.sub(), draining.at());
    let (idle, ending) = draining.switch().run();
    tell(&mut history, idle.counts());
    history.push(sub as usize, idle.bound(pair.a as usize, sub as usize));
    let mode = JobMode::Missed {
        sub,
        pair,
        at,
        switch_ps: ending.switch_ps,
    };
    let job = JobRecord {
        number,
        mode,
        end_ps: ending.end_ps,
        step: ending.step,
    };
    let runner = Runner {
        idle,
        history,
        ran: number,
    };
    (runner, job)
}

impl Runner {
    /// A runner of the jobs of a machine's task. No job ran, and nothing was told of any.
    pub fn new(alloc: Global, idle: Idle) -> Result<Runner, AllocError>
        ensures idle { IfOk result (λ r. r.idle ≡ idle) }
        ensures ran { IfOk result (λ r. r.ran ≡ 0) }
        ensures stands { IfOk result (λ r. StandsFor r.history []) }
    {
        let history = History::new(alloc, idle.subs())?;
        Ok(Runner {
            idle,
            history,
            ran: 0,
        })
    }

    /// A sub-task, numbered from 1, took so many cycles in a job before those of this runner. Takes no memory.
    pub fn past(&mut self, sub: usize, cycles: u64)
        requires least { 1 ≤ sub }
        requires most { sub ≤ length self.old.idle.kept.cuts + 1 }
        ensures idle { self.new.idle ≡ self.old.idle }
        ensures ran { self.new.ran ≡ self.old.ran }
        ensures stands { (cs : List Count) → StandsFor self.old.history cs
            → StandsFor self.new.history (count sub cycles ∷ cs) }
    {
        self.history.push(sub, cycles);
    }

    /// Runs the next job with an input in fast mode, at the pair of operating points that the counts so far choose. Where a checkpoint is
    /// missed, its rest runs in simple mode at the recovery point. It ends by its deadline. The history is told the cycles of each
    /// sub-task that ended in fast mode, in order, and then, of a sub-task whose checkpoint was missed, its bound at the speculative
    /// point. Takes no memory.
    pub fn job<P: Predictor>(self, p: &mut P, input: &[u8]) -> (Runner, JobRecord)
        requires fits { length input.now ≤ self.idle.kept.input_len }
        requires planned { IsPlanned self.idle.kept (fastest_pair self.idle.kept) }
        ensures { let predicts : Predicts = record { guess = P.guess_of; learnt = P.learnt_of } in
            HasRun admitted.Fast predicts self (P.data_of p.old) input.now result.0 result.1 (P.data_of p.new) }
    {
        let Runner { idle, history, ran } = self;
        let number = ran.saturating_add(1);
        let pair = pick(idle.plans(), &history);
        match idle.release(input, pair).run(p) {
            FastEnd::Ended(idle, ending) => fast_end(idle, ending, history, number, pair),
            FastEnd::Missed(draining) => missed_end(draining, history, number, pair),
        }
    }

    /// Runs the next job with an input in simple mode, at the fastest point. It ends by its deadline. The history is told nothing. Takes
    /// no memory.
    pub fn job_simple(self, input: &[u8]) -> (Runner, JobRecord)
        requires { length input.now ≤ self.idle.kept.input_len }
        ensures { (predicts : Predicts) (numbers : List ℕ)
            → HasRun admitted.Simple predicts self numbers input.now result.0 result.1 numbers }
    {
        let Runner { idle, history, ran } = self;
        let number = ran.saturating_add(1);
        let (idle, ending) = idle.release_simple(input).run();
        let job = JobRecord {
            number,
            mode: JobMode::Simple,
            end_ps: ending.end_ps,
            step: ending.step,
        };
        let runner = Runner {
            idle,
            history,
            ran: number,
        };
        (runner, job)
    }

    /// The last state of the job before, or the state before the first job. Takes no memory.
    pub fn state(&self) -> &State
        ensures { result.now ≡ self.now.idle.state }
    {
        self.idle.state()
    }

    /// The cycles of the sub-tasks of the job before that ended in fast mode, in order. Takes no memory.
    pub fn counts(&self) -> &[u64]
        ensures { result.now ≡ self.now.idle.counts }
    {
        self.idle.counts()
    }
}
