//! The certificate of register facts and the counts of loop regions. This project's own.
#![tactic(auto)]

mod before;
mod callees;
mod check;
mod count;
mod cycle;
mod ends;
mod fault;
mod gone;
pub mod laws;
mod lines;
mod lost;
mod marks;
mod masks;
mod passing;
mod place;
mod room;
mod search;
mod steps;
mod tally;
mod units;
mod walk;

pub use check::{Proved, check_facts};
pub use count::check_count;
pub use fault::{CountFault, FactFault};
