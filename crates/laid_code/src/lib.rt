//! The code of an image stands in the memory that a task is laid out with.
#![tactic(auto)]

pub mod laws;
