//! The longest legal walk.
#![tactic(auto)]

mod ahead;
mod costs;
mod greatest;
pub mod laws;
mod lists;
mod tables;
mod turns;

pub use costs::{Costs, Pen, cost, edge_cost};
pub use greatest::longest;
