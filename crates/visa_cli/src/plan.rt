// A plan of jobs.
use admission::{Admitted, Mode};
use mips_ref::Memory;
use task_text::{Jobs, Task};

/// A task that was admitted for a mode, and its jobs to run: they begin at the entry, the first of them on this memory.
#[derive(Debug, Drop)]
pub struct Plan {
    pub mode: Mode,
    pub task: Task,
    pub entry: u32,
    pub memory: Memory,
    /// The bounds of its sub-tasks at each operating point, and the plans of the pairs of points.
    pub times: Admitted,
    pub jobs: Jobs,
}
