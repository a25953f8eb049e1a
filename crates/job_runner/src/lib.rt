//! The jobs of an admitted task, one after the other: each at the pair of operating points that the counts so far choose, or all in
//! simple mode.
#![tactic(auto)]

pub mod laws;
mod runner;
mod telling;

pub use runner::Runner;
