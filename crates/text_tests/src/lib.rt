//! Tests of the public calls that read texts, a file for each crate.
#![tactic(auto)]

#[cfg(test)]
mod instructions;
