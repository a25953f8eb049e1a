//! Tests of the public calls that analyse, admit and plan a task: what no clause of theirs says.
#![tactic(auto)]

#[cfg(test)]
mod admissions;
#[cfg(test)]
mod given;
#[cfg(test)]
mod plans;
#[cfg(test)]
mod refusals;
#[cfg(test)]
mod walks;
