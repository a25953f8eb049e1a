//! The task and the jobs of the demonstration.
#![tactic(auto)]

mod generator;
mod inputs;
pub mod laws;
mod task;

pub use inputs::demo_jobs;
pub use task::demo_task;
