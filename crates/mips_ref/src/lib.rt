//! The reference: one MIPS32 instruction at a time, on registers, flat memory, a return stack and an output.
#![tactic(auto)]

mod access;
mod decoded;
pub mod laws;
mod layout;
mod memory;
mod outcome;
mod parts;
mod place;
mod records;
mod state;
mod values;

pub use access::{loaded, stored};
pub use layout::MemoryError;
pub use memory::Memory;
pub use outcome::act;
pub use records::{Act, Ran, Retired, Step, TrapKind, Values};
pub use state::State;
