//! Every job of an admitted task is in time in simple mode, and so is what remains of it wherever it is broken off: the
//! laws of walks and times, from what admission finds.
#![tactic(auto)]

pub mod laws;
