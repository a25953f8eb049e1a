//! The window of an out-of-order core: instructions that are guessed, reordered and squashed, and committed as the reference's steps.
#![tactic(auto)]

mod computed;
mod events;
pub mod laws;
mod overlay;
mod records;
mod search;
mod shown;
mod window;

pub use records::{EntryView, Event, Status3};
pub use window::Window;
