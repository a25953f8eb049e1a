//! The run law: a job of a task whose graph, regions, facts and counts passed goes along a legal walk of the graph.
#![tactic(auto)]

pub mod laws;
