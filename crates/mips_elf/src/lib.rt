//! Reads executable images of 32-bit MIPS in ELF, after the System V ABI and its MIPS supplement.
#![tactic(auto)]

mod error;
mod header;
pub mod laws;
mod load;
mod overlap;
mod read;
mod section;
mod segment;
mod symbol;

pub use error::ElfError;
pub use read::read_elf;
