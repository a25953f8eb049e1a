// The plans of all pairs of operating points.
ghost use Rattle.frequency_pick.specs.Choice.{place_of, plan_of};
ghost use Rattle.std.specs.Prelude.{◌≡◌, ◌≤◌, ◌<◌, ◌*◌, ◌+◌, IfOk, MatchOption, length, None, Some, replicate, slice_set};

use checkpoint_plan::Plan;
use std::alloc::{AllocError, Global};
use std::marker::Model;

/// A speculative and a recovery point, by their numbers from 0.
#[derive(Clone, Copy, Debug, PartialEq, Eq)]
pub struct Pair {
    /// The speculative point.
    pub a: u32,
    /// The recovery point.
    pub b: u32,
}

/// The plans of the pairs of points; a pair may have none.
#[derive(Debug, Drop)]
pub struct Plans {
    points: usize,
    plans: Vec<Option<Plan>>,
}

impl Model for Plans {
    ghost use Rattle.frequency_pick.specs.Choice.{PlanTable};

    ghost Value = { PlanTable };

    ghost use Rattle.frequency_pick.specs.Choice.{IsTable};

    ghost view = { λ p. record { points = p.points; plans = p.plans.items } };

    ghost invariant = { λ p. IsTable (record { points = p.points; plans = p.plans.items }) };
}

impl Plans {
    /// The plans of so many points: no pair has one yet.
    pub fn new(alloc: Global, points: usize) -> Result<Plans, AllocError>
        requires some { 1 ≤ points }
        requires few { points ≤ 8 }
        ensures { IfOk result (λ t. t ≡ record { points = points; plans = replicate (points * points) None }) }
    {
        let mut plans = Vec::new(alloc);
        for _made in 0..points * points {
            plans.push(None)?;
        }
        Ok(Plans { points, plans })
    }

    /// How many points there are.
    pub fn points(&self) -> usize
        ensures value { result ≡ self.now.points }
        ensures some { 0 < result }
        ensures few { result ≤ 8 }
    {
        self.points
    }

    /// Puts the plan of a pair in its place. Takes no memory.
    pub fn set(&mut self, p: Plan)
        requires speculative { p.a < self.old.points }
        requires recovery { p.b < self.old.points }
        ensures points { self.new.points ≡ self.old.points }
        ensures plans { self.new.plans ≡ slice_set self.old.plans (place_of self.old.points p.a p.b) (Some p) }
    {
        let place = p.a as usize * self.points + p.b as usize;
        self.plans[place] = Some(p);
    }

    /// The plan of a pair; none where it has none. Takes no memory.
    pub fn get(&self, pair: Pair) -> Option<&Plan>
        requires speculative { pair.a < self.now.points }
        requires recovery { pair.b < self.now.points }
        ensures { MatchOption result (plan_of self.now pair ≡ None) (λ p. plan_of self.now pair ≡ Some p.now) }
    {
        self.plans[pair.a as usize * self.points + pair.b as usize].as_ref()
    }

    // The plans in the order of their pairs.
    pub(crate) fn in_order(&self) -> &[Option<Plan>]
        ensures plans { result.now ≡ self.now.plans }
        ensures few { length self.now.plans ≤ 64 }
    {
        self.plans.as_slice()
    }
}
