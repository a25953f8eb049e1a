// What the modes keep of a task.
ghost use Rattle.std.specs.Prelude.{◌≡◌, ◌≤◌, ◌<◌, IfOk, length, slice_index};
ghost use Rattle.mode_states.specs.Kept.{IsPlanned, kept_of, period_at, watchdogs_of};

use admission::Admitted;
use frequency_pick::Pair;
use std::alloc::{AllocError, Global};
use task_text::Task;
use visa_io::{List, Machine, Span};

/// What the modes keep of an admitted task.
#[derive(Drop)]
pub struct Kept {
    pub machine: Machine,
    /// The clock periods of the operating points, ps.
    pub points: List<u64>,
    /// The time from a release to its deadline, ps.
    pub deadline_ps: u64,
    /// The address of the first instruction.
    pub entry: u32,
    /// The address in register 29 as a job opens.
    pub stack: u32,
    /// The first address of the input buffer, and its length in bytes.
    pub input_at: u32,
    pub input_len: u32,
    /// The first addresses of the sub-tasks from the second on.
    pub cuts: List<u32>,
    /// Ranges whose bytes a log shows.
    pub show: List<Span>,
    /// The bounds of the sub-tasks, and the plans.
    pub admitted: Admitted,
}

impl Kept {
    // What is kept of a task.
    pub fn new(
        alloc: Global,
        task: &Task,
        entry: u32,
        admitted: Admitted,
    ) -> Result<Kept, AllocError>
        ensures { IfOk result (λ k. k ≡ kept_of task.now entry admitted) }
    {
        let points = List::copy_of(alloc, task.points.as_slice())?;
        let cuts = List::copy_of(alloc, task.cuts.as_slice())?;
        let show = List::copy_of(alloc, task.show.as_slice())?;
        Ok(Kept {
            machine: task.machine,
            points,
            deadline_ps: task.deadline_ps,
            entry,
            stack: task.stack,
            input_at: task.input_at,
            input_len: task.input_len,
            cuts,
            show,
            admitted,
        })
    }

    // The clock period of a point, ps.
    pub fn period(&self, point: usize) -> u64
        requires { point < length self.now.points }
        ensures { result ≡ period_at self.now point }
    {
        self.points.as_slice()[point]
    }

    // The watchdogs of the plan of a pair.
    pub fn watchdogs(&self, pair: Pair) -> &[u64]
        requires planned { IsPlanned self.now pair }
        requires points { self.now.admitted.plans.points ≡ length self.now.points }
        ensures { result.now ≡ watchdogs_of self.now pair }
    {
        match self.admitted.plans().get(pair) {
            Some(plan) => plan.watchdog.as_slice(),
            None => unreachable!(),
        }
    }
}
