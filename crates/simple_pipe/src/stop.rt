// How a run in simple mode stops.
use mips_ref::Step;

/// How a run stops.
#[derive(Clone, Copy, Debug, PartialEq, Eq)]
pub enum PipeStop {
    /// The job has ended, by its exit or a trap. After so many cycles its last instruction has left the pipeline.
    Ended { cycles: u64, step: Step },
    /// The job has made as many steps as it may, and isn't at its exit address.
    Limit,
}
