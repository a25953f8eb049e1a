//! What is known of the registers of a program: strided ranges of signed numbers, what a condition leaves of them, and what each
//! instruction does to them. Nothing here takes memory. This project's own.
#![tactic(auto)]

mod along;
mod conditions;
mod facts;
pub mod laws;
mod rules;
mod strided;
mod tests;
mod written;

pub use along::Along;
pub use facts::Facts;
pub use strided::{Cond, Strided, refine, within};
pub use tests::Test;
pub use written::{opening_facts, transfer};
