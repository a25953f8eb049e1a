// How a job ends.
use mips_ref::Step;

/// How a job ended, and when.
#[derive(Clone, Copy, Debug, PartialEq, Eq)]
pub struct Ending {
    /// What ended it: its exit or a trap.
    pub step: Step,
    /// The time that the switch to simple mode took, ps; 0 where there was none.
    pub switch_ps: u64,
    /// Its end, ps from its release.
    pub end_ps: u64,
}
