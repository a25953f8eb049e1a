use bound_checker::{CountFault, FactFault};
use flow_graph::FlowFault;
use loop_regions::RegionFault;
use subtask_cut::CutFault;

/// Why a task isn't admitted: the first condition that fails, in this order. None of the inner faults is want of memory.
#[derive(Clone, Copy, Debug, PartialEq, Eq)]
pub enum Refusal {
    /// Its code has no graph.
    Flow(FlowFault),
    /// Its loop regions don't nest in the graph.
    Region(RegionFault),
    /// A register fact isn't kept.
    Fact(FactFault),
    /// The count of a loop region isn't proved by the facts.
    Loop(CountFault),
    /// A cut doesn't keep the rules of sub-tasks.
    Cut(CutFault),
    /// Its jobs may need more time from their release than the deadline leaves, ps.
    Exceeds { needed_ps: u128, deadline_ps: u64 },
    /// Want of memory.
    Memory,
}
