//! Checkpoints and watchdogs of a pair of operating points.
#![tactic(auto)]

pub mod laws;
mod plan;
mod times;

pub use plan::{Plan, PlanFault, checkpoints};
pub use times::{overhead, rem};
