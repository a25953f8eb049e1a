// What is kept of an admitted task.
ghost use Rattle.std.specs.Prelude.{◌≡◌, ◌<◌, ◌≤◌, ◌-◌, length, slice_index};
ghost use Rattle.admission.specs.Found.{bounds_at as bounds_at_lem};

use frequency_pick::Plans;
use std::marker::Model;

/// The bounds of an admitted task's sub-tasks at each operating point, and the plans of the pairs of points.
#[derive(Debug, Drop)]
pub struct Admitted {
    // by point, and of each point by sub-task, cycles
    pub(crate) bounds: Vec<Vec<u64>>,
    pub(crate) plans: Plans,
}

impl Model for Admitted {
    ghost use Rattle.admission.specs.Admitted.{Times};

    ghost Value = { Times };

    ghost use Rattle.admission.specs.Rows.{rows_of};

    ghost view = { λ a. record { bounds = rows_of a.bounds.items; plans = a.plans } };
}

impl Admitted {
    /// How many operating points there are. Takes no memory.
    pub fn points(&self) -> usize
        ensures { result ≡ length self.now.bounds }
    {
        self.bounds.len()
    }

    /// The bounds of all sub-tasks at an operating point, which is numbered from 0, cycles. Takes no memory.
    pub fn bounds_at(&self, point: usize) -> &[u64]
        requires { point < length self.now.bounds }
        ensures { result.now ≡ bounds_at_lem self.now.bounds point }
    {
        self.bounds[point].as_slice()
    }

    /// The bound of a sub-task, which is numbered from 1, at an operating point, which is numbered from 0, cycles. Takes no memory.
    pub fn bound(&self, point: usize, sub: usize) -> u64
        requires point { point < length self.now.bounds }
        requires least { 1 ≤ sub }
        requires most { sub ≤ length (bounds_at_lem self.now.bounds point) }
        ensures { result ≡ slice_index (bounds_at_lem self.now.bounds point) (sub - 1) }
    {
        self.bounds_at(point)[sub - 1]
    }

    /// The plans of the pairs of operating points. Takes no memory.
    pub fn plans(&self) -> &Plans
        ensures { result.now ≡ self.now.plans }
    {
        &self.plans
    }
}
