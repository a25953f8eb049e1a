//! The jobs of a task that passed, as what remains of them is bounded: their runs are walks of its graph, and its graph is one of functions
//! and units.
#![tactic(auto)]

pub mod laws;
