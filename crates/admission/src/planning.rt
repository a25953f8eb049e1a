// The plans of all pairs of operating points.
ghost use Rattle.std.specs.Prelude.{◌≡◌, ◌<◌, ◌+◌, ◌*◌, All, IfOk, OnOk, length};
ghost use Rattle.admission.specs.Plans.{ArePlans};
ghost use Rattle.admission.specs.Planned.{ArePlanned};
ghost use Rattle.admission.specs.Rows.{rows_of};
ghost use Rattle.checkpoint_plan.specs.Limits.{AreBounds};
ghost use Rattle.task_text.specs.Limits.{KeepsLimits};

use crate::rows::row_at;
use checkpoint_plan::{PlanFault, checkpoints};
use frequency_pick::Plans;
use std::alloc::{AllocError, Global};
use task_text::Task;

// The plan of pair number `k`, by rising speculative point and then by rising recovery point, is put in its place, if it has one.
fn set_plan(
    alloc: Global,
    task: &Task,
    bounds: &[Vec<u64>],
    points: usize,
    k: usize,
    plans: &mut Plans,
) -> Result<(), AllocError>
    requires limits { KeepsLimits task.now }
    requires points { points ≡ length task.now.points }
    requires beside { length bounds.now ≡ points }
    requires rows { All AreBounds (rows_of bounds.now) }
    requires pair { k < points * points }
    requires before { ArePlanned task.now (rows_of bounds.now) points k plans.old }
    ensures { OnOk result (ArePlanned task.now (rows_of bounds.now) points (k + 1) plans.new) }
{
    let (a, b) = (k / points, k % points);
    match checkpoints(alloc, task, row_at(bounds, b), a, b) {
        Ok(plan) => {
            plans.set(plan);
            Ok(())
        }
        Err(PlanFault::Negative { short_by: _ }) => Ok(()),
        Err(PlanFault::Memory) => Err(AllocError),
    }
}

/// The plans of all pairs of points, where these are the bounds by point, and of each point by sub-task.
pub(crate) fn plans_of(alloc: Global, task: &Task, bounds: &[Vec<u64>]) -> Result<Plans, AllocError>
    requires limits { KeepsLimits task.now }
    requires beside { length bounds.now ≡ length task.now.points }
    requires rows { All AreBounds (rows_of bounds.now) }
    ensures { IfOk result (ArePlans task.now (rows_of bounds.now)) }
{
    let points = task.points.len();
    let mut plans = Plans::new(alloc, points)?;
    for k in 0..points * points {
        set_plan(alloc, task, bounds, points, k, &mut plans)?;
    }
    Ok(plans)
}
