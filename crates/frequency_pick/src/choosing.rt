// The choice of a pair.
ghost use Rattle.frequency_pick.specs.Choice.{IsFitting, all_in_time, choice, first_feasible, is_feasible};
ghost use Rattle.frequency_pick.specs.Counts.{Count, StandsFor, predicted_by};
ghost use Rattle.std.specs.Prelude.{◌≡◌, ◌<◌, All, IfSome, List, length, position};

use crate::history::History;
use crate::plans::{Pair, Plans};
use checkpoint_plan::Plan;

// Each sub-task of a plan is predicted to end by its checkpoint.
fn is_in_time(plan: &Plan, h: &History) -> bool
    requires beside { length plan.now.checkpoint_ps ≡ length h.now }
    requires period { 0 < plan.now.period_ps }
    ensures { result ≡ all_in_time (predicted_by h.now) plan.now.period_ps 1 0 plan.now.checkpoint_ps }
{
    let mut sum: u128 = 0;
    for (i, checkpoint) in plan.checkpoint_ps.as_slice().iter().enumerate() {
        match h.predicted(i + 1) {
            None => return false,
            Some(n) => sum += u128::from(n),
        }
        if sum > u128::from(*checkpoint / plan.period_ps) {
            return false;
        }
    }
    true
}

// A pair with this plan is feasible.
#[tactic(auto, unfolding(crate::specs::Choice::is_feasible))]
fn is_feasible_plan(plan: &Option<Plan>, h: &History) -> bool
    requires { IsFitting (length h.now) plan.now }
    ensures { result ≡ is_feasible (predicted_by h.now) plan.now }
{
    match plan {
        None => false,
        Some(plan) => is_in_time(plan, h),
    }
}

// The place of the first feasible pair.
fn first_place(plans: &Plans, h: &History) -> Option<usize>
    requires { All (IsFitting (length h.now)) plans.now.plans }
    ensures place { result ≡ position (is_feasible (predicted_by h.now)) plans.now.plans }
    ensures within { IfSome result (λ k. k < 64) }
{
    plans
        .in_order()
        .iter()
        .position(|plan| is_feasible_plan(plan, h))
}

// The first feasible pair by what is kept, or the fastest.
fn first(plans: &Plans, h: &History) -> Pair
    requires { All (IsFitting (length h.now)) plans.now.plans }
    ensures { result ≡ first_feasible plans.now (predicted_by h.now) }
{
    let points = plans.points();
    match first_place(plans, h) {
        None => Pair {
            a: points as u32 - 1,
            b: points as u32 - 1,
        },
        Some(k) => Pair {
            a: (k / points) as u32,
            b: (k % points) as u32,
        },
    }
}

/// The pair that the next job runs at: the first feasible one, by rising speculative point and then by rising recovery point, or the
/// fastest where none is. A pair is feasible where it has a plan, each sub-task has a count, and for each the greatest of its last eight
/// counts and of those of the sub-tasks before it add up to no more time than its checkpoint. Takes no memory. After the VISA paper; the
/// exact rule is this project's own.
pub fn pick(plans: &Plans, h: &History) -> Pair
    requires { All (IsFitting (length h.now)) plans.now.plans }
    ensures { (cs : List Count) → StandsFor h.now cs → result ≡ choice plans.now cs }
{
    first(plans, h)
}
