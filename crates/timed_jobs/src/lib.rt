//! The time of every job of an admitted task in simple mode, wherever it is broken off: the laws of walks and of what remains, over the
//! reference machine and the pipeline.
#![tactic(auto)]

pub mod laws;
