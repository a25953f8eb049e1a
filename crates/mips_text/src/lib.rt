//! The texts of instructions.
#![tactic(auto)]

mod filling;
mod form;
mod instr_text;
pub mod laws;
mod mnemonics;
mod number;
mod operand;
mod parsing;
mod piece;
mod printing;
mod reading;
mod target;
mod templates;
mod word;

pub use instr_text::InstrText;
pub use parsing::{TextFault, parse_instr};
pub use printing::print_instr;
