//! The words of the command line, and the command that they are.
#![tactic(auto)]

mod command;
mod forms;
mod parser;
mod verb;
mod words;

pub use forms::{Command, PredictorKind};
pub use words::read_command;
