//! The fetches of the sub-tasks' walks are covered by what is charged for their scopes, and a graph follows its blocks.
#![tactic(auto)]

pub mod laws;
