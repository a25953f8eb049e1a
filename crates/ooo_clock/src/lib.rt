//! The fast mode: the out-of-order window with a clock that says which of its events happen in which cycle.
#![tactic(auto)]

mod clock;
mod commit;
mod cycle;
mod ending;
mod fast;
mod fetch;
mod finish;
mod issue;
pub mod laws;
mod pending;

pub use ending::CycleEnd;
pub use fast::Fast;
