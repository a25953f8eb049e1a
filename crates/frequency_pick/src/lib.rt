//! Which pair of operating points a job runs at, by what its sub-tasks took before.
#![tactic(auto)]

mod choosing;
mod history;
mod plans;

pub use choosing::pick;
pub use history::History;
pub use plans::{Pair, Plans};
