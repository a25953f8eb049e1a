// The record of one job.
use frequency_pick::Pair;
use mips_ref::Step;

/// In which mode a job ended, and how it came to it.
#[derive(Clone, Copy, Debug, PartialEq, Eq)]
pub enum JobMode {
    /// In simple mode, in which it was released.
    Simple,
    /// In fast mode, at a pair of operating points.
    Fast {
        pair: Pair,
    },
    /// In simple mode, since the checkpoint of a sub-task, which is numbered from 1, was missed after so many cycles.
    /// The switch took so long, ps.
    Missed {
        sub: u32,
        pair: Pair,
        at: u64,
        switch_ps: u64,
    },
}

/// A job that was run: its number, from 1, how it ran, when it ended (ps after its release), and how.
#[derive(Clone, Copy, Debug, PartialEq, Eq)]
pub struct JobRecord {
    pub number: u64,
    pub mode: JobMode,
    pub end_ps: u64,
    pub step: Step,
}
