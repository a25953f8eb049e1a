//! Whether a task can run with its image: its memory is laid out.
#![tactic(auto)]

mod coverage;
mod fault;
pub mod laws;
mod placing;

pub use fault::LayoutFault;
pub use placing::layout;
