//! The program as a graph: units, the edges between them, functions and blocks, and the faults of code that has none.
#![tactic(auto)]

mod blocks;
mod build;
mod calls;
mod edges;
mod fault;
mod faults;
mod function_parts;
pub mod laws;
mod making;
mod parts;
mod places;
mod returns;
mod search;
mod site;
mod table;
mod view;
mod ways;

pub use fault::FlowFault;
pub use making::graph;
pub use parts::{Edge, EdgeKind, Unit};
pub use view::Graph;
