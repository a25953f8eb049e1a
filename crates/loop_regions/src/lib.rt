//! Loop regions of a graph: whether they nest in it, walks over the graph with the regions' counts, and what a walk costs.
#![tactic(auto)]

mod crossing;
mod cycles;
mod fault;
pub mod laws;
mod nest;
mod ranks;
mod ways;

pub use fault::RegionFault;
pub use nest::{Nest, check_regions};
pub use ways::{Way, number_of};
