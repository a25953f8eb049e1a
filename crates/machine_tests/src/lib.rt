//! Tests of the instruction words, of the reference and of the simple mode: what no clause of theirs says.
#![tactic(auto)]

#[cfg(test)]
mod jobs;
#[cfg(test)]
mod steps;
#[cfg(test)]
mod words;
