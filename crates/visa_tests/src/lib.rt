//! Tests of the public calls of the crates below, a file for each crate.
#![tactic(auto)]

#[cfg(test)]
mod calls;
#[cfg(test)]
mod files_and_sinks;
#[cfg(test)]
mod logs;
#[cfg(test)]
mod run_command;
#[cfg(test)]
mod top_call;
