//! The lines of a list of code.
#![tactic(auto)]

mod put;
mod table;
mod write;

pub use put::{LIST_HEADER, put_list};
pub use table::{SymbolLine, symbol_table};
