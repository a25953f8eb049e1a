//! Whether a task is admitted: its code, regions, facts, counts and cuts are right, and its jobs have the time that they need.
#![tactic(auto)]

mod admitted;
mod analysis;
mod bounds;
mod deciding;
pub mod laws;
mod mode;
mod planning;
mod refusal;
mod rows;

pub use admitted::Admitted;
pub use deciding::{admit, admit_simple};
pub use mode::Mode;
pub use refusal::Refusal;
