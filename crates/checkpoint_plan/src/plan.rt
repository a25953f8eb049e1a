// The plan of a pair of operating points.
ghost use Rattle.checkpoint_plan.specs.Limits.{AreBounds, IsPeriod};
ghost use Rattle.checkpoint_plan.specs.Plan.{owed_of, rems_of, watchdog_of, IsPlan, IsPlanned};
ghost use Rattle.std.specs.Prelude.{◌≡◌, ◌≤◌, ◌<◌, ◌-◌, ◌+◌, ◌^◌, length, map, slice_index, IfOk, All};
ghost use Rattle.task_text.specs.Limits.{KeepsLimits};

use crate::times::{left_over, overhead, sum_of};
use std::alloc::{AllocError, Global};
use task_text::Task;
use visa_io::List;

/// The checkpoints of a speculative point and a recovery point.
#[derive(Debug, Drop)]
pub struct Plan {
    /// The number of the speculative point.
    pub a: u32,
    /// The number of the recovery point.
    pub b: u32,
    /// The period of the speculative point, ps.
    pub period_ps: u64,
    /// What a switch takes at most, ps.
    pub overhead_ps: u128,
    /// Of each sub-task the time that it and those after it need in simple mode, ps.
    pub rem_ps: List<u128>,
    /// By when each sub-task has to end, ps from the first cycle.
    pub checkpoint_ps: List<u64>,
    /// The same in cycles of the speculative point.
    pub watchdog: List<u64>,
}

/// Why a pair has no plan.
#[derive(Debug, Drop)]
pub enum PlanFault {
    /// The first checkpoint, which is the least, is below 0 by so many ps.
    Negative { short_by: u128 },
    Memory,
}

// Two points, and their periods in ps.
#[derive(Clone, Copy)]
struct Points {
    a: u32,
    b: u32,
    pa: u64,
    pb: u64,
}

// Of each sub-task the time that it and those after it need.
fn rems(alloc: Global, bounds: &[u64], pb: u64) -> Result<List<u128>, AllocError>
    requires bounds { AreBounds bounds.now }
    requires pb { IsPeriod pb }
    ensures { IfOk result (λ list. list ≡ rems_of bounds.now pb) }
{
    let mut list = List::new(alloc);
    let mut left = sum_of(bounds);
    for bound in bounds {
        list.push((5 + left) * u128::from(pb))?;
        left -= u128::from(*bound);
    }
    Ok(list)
}

// When each sub-task has to end, where so much of the deadline is left without the rest.
fn checkpoint_times(alloc: Global, left: u64, rems: &[u128]) -> Result<List<u64>, AllocError>
    requires { All (λ rem. rem ≤ left) rems.now }
    ensures { IfOk result (λ list. list ≡ map (λ rem. left - rem) rems.now) }
{
    let mut list = List::new(alloc);
    for rem in rems {
        list.push(left - *rem as u64)?;
    }
    Ok(list)
}

// The cycles of period `pa` before each of these times.
fn watchdogs(alloc: Global, pa: u64, times: &[u64]) -> Result<List<u64>, AllocError>
    requires { IsPeriod pa }
    ensures { IfOk result (λ list. list ≡ map (watchdog_of pa) times.now) }
{
    let mut list = List::new(alloc);
    for time in times {
        list.push(*time / pa)?;
    }
    Ok(list)
}

// The plan, where the first checkpoint isn't negative.
fn plan_for(alloc: Global, task: &Task, bounds: &[u64], pair: Points) -> Result<Plan, AllocError>
    requires limits { KeepsLimits task.now }
    requires bounds { AreBounds bounds.now }
    requires speculative { IsPeriod pair.pa }
    requires recovery { IsPeriod pair.pb }
    requires owed { owed_of task.now.machine pair.pa pair.pb bounds.now ≤ task.now.deadline_ps }
    ensures { IfOk result (λ p. IsPlan task.now bounds.now pair.a pair.b pair.pa pair.pb p) }
{
    let overhead_ps = overhead(&task.machine, pair.pa, pair.pb);
    let before = u128::from(task.machine.start_ps) + overhead_ps;
    let left = (u128::from(task.deadline_ps) - before) as u64;
    let rem_ps = rems(alloc, bounds, pair.pb)?;
    let checkpoint_ps = checkpoint_times(alloc, left, rem_ps.as_slice())?;
    let watchdog = watchdogs(alloc, pair.pa, checkpoint_ps.as_slice())?;
    Ok(Plan {
        a: pair.a,
        b: pair.b,
        period_ps: pair.pa,
        overhead_ps,
        rem_ps,
        checkpoint_ps,
        watchdog,
    })
}

// What has to be left before the deadline at the first checkpoint.
fn owed(task: &Task, bounds: &[u64], pa: u64, pb: u64) -> u128
    requires limits { KeepsLimits task.now }
    requires bounds { AreBounds bounds.now }
    requires speculative { IsPeriod pa }
    requires recovery { IsPeriod pb }
    ensures { result ≡ owed_of task.now.machine pa pb bounds.now }
{
    u128::from(task.machine.start_ps) + overhead(&task.machine, pa, pb) + left_over(bounds, pb)
}

// The period of a point.
fn period(task: &Task, point: usize) -> u64
    requires limits { KeepsLimits task.now }
    requires point { point < length task.now.points }
    ensures value { result ≡ slice_index task.now.points point }
    ensures period { IsPeriod result }
{
    task.points.as_slice()[point]
}

/// The plan of the speculative point number `a` and the recovery point number `b`, from the bounds of the sub-tasks at point `b`, in cycles:
/// the checkpoint of a sub-task is the deadline less the start, the overhead of a switch and the time that it and those after it need.
/// `Negative` comes exactly where the first checkpoint, which is the least, is below 0. This project's own.
pub fn checkpoints(
    alloc: Global,
    task: &Task,
    bounds: &[u64],
    a: usize,
    b: usize,
) -> Result<Plan, PlanFault>
    requires limits { KeepsLimits task.now }
    requires bounds { AreBounds bounds.now }
    requires speculative { a < length task.now.points }
    requires recovery { b < length task.now.points }
    ensures { IsPlanned task.now bounds.now a b result }
{
    let (pa, pb) = (period(task, a), period(task, b));
    let owed = owed(task, bounds, pa, pb);
    let deadline = u128::from(task.deadline_ps);
    if deadline < owed {
        let short_by = owed - deadline;
        return Err(PlanFault::Negative { short_by });
    }
    let (a, b) = (a as u32, b as u32);
    match plan_for(alloc, task, bounds, Points { a, b, pa, pb }) {
        Ok(plan) => Ok(plan),
        Err(_) => Err(PlanFault::Memory),
    }
}
