//! Laws on plans.
ghost use Rattle.checkpoint_plan.specs.Plan.{IsPlan, switch_of, wait_of};
ghost use Rattle.checkpoint_plan.specs.declared.plan.Plan.{Plan};
ghost use Rattle.std.specs.Int.{div_ceil};
ghost use Rattle.std.specs.Prelude.{◌≤◌, ◌<◌, ◌+◌, ◌*◌, ℕ, List, drop, length, slice_index, sum};
ghost use Rattle.task_text.specs.declared.task.Task.{Task};

/// The watchdog of a later sub-task isn't below that of an earlier one.
pub fn watchdogs_never_fall()
    ensures { (t : Task) (bounds : List ℕ) (a b pa pb : ℕ) (p : Plan) (i j : ℕ) → IsPlan t bounds a b pa pb p → 0 < pa → i ≤ j
        → j < length bounds → slice_index p.watchdog i ≤ slice_index p.watchdog j }
{}

/// A switch at or before the watchdog of a sub-task, with an access in flight no longer than the longest, leaves time before the deadline
/// for what remains in simple mode: five cycles, one missed fetch, and the bounds of this sub-task and those after it.
pub fn a_switch_in_time_fits()
    ensures { (t : Task) (bounds : List ℕ) (a b pa pb : ℕ) (p : Plan) (i at flight : ℕ) → IsPlan t bounds a b pa pb p
        → i < length bounds → at ≤ slice_index p.watchdog i → flight ≤ wait_of t.machine pa
        → t.machine.start_ps + at * pa + switch_of t.machine flight pa pb
        + (5 + div_ceil t.machine.mem_ps pb + sum (drop i bounds)) * pb ≤ t.deadline_ps }
{}
