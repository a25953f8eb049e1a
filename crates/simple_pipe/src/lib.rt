//! The simple mode: instructions in order through a pipeline of six stages, with caches.
#![tactic(auto)]

mod executed;
pub mod laws;
mod pace;
mod parts;
mod pipe;
mod run;
mod stages;
mod stop;

pub use executed::Executed;
pub use pace::{Pace, cycles_of, static_cost};
pub use pipe::Pipe;
pub use stop::PipeStop;
