// How a cycle ends.
use mips_ref::Step;

/// What a cycle of the fast core comes to.
#[derive(Clone, Copy, Debug, PartialEq, Eq)]
pub enum CycleEnd {
    /// The window goes on.
    Went,
    /// A commit of this cycle ended the window: Exit, or the trap of its step.
    Ended(Step),
}
