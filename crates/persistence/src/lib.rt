//! Line charges: which fetches of a scope are charged with a miss, so that all its misses are counted.
#![tactic(auto)]

mod charging;
pub mod laws;
mod lines;
mod scope;
mod sorted;

pub use charging::{LineCharge, charge};
