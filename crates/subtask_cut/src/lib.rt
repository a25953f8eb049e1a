//! Cuts of a task into sub-tasks: the rules that they keep, the units of each sub-task, and that every walk meets the cuts
//! in order.
#![tactic(auto)]

mod cuts;
mod fault;
pub mod laws;
mod rules;
mod search;

pub use cuts::{Cuts, check_cuts};
pub use fault::CutFault;
