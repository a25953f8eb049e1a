// Why cuts are refused.

/// What is wrong with the cuts of a task. `i` is the number of a cut, from 2: that of the sub-task that begins there.
#[derive(Clone, Copy, Debug, PartialEq, Eq)]
pub enum CutFault {
    /// No unit begins there.
    Slot { i: u32 },
    /// It is no unit of the entry's function, or one of another function too.
    InCallee { i: u32 },
    /// It lies in a loop region.
    InRegion { i: u32 },
    /// It is the entry or an earlier cut, or the entry's function reaches it without the cut before it.
    Order { i: u32 },
    /// The entry's function returns without it.
    Bypassed { i: u32 },
    Memory,
}
