/// Why the facts of a task don't hold.
#[derive(Clone, Copy, Debug, PartialEq, Eq)]
pub enum FactFault {
    /// The first edge into a block's start, by its units and then by register, along which the fact of a register isn't kept. The
    /// opening edge, into the entry, leads from fffffff0, so it comes last.
    NotHeld { from: u32, to: u32, register: u8 },
    /// Want of memory.
    Memory,
}

/// Why the count of a loop region isn't right. The order of the kinds is that in which they are told; of a kind the least address is
/// told. `r` numbers the region from 1.
#[derive(Clone, Copy, Debug, PartialEq, Eq)]
pub enum CountFault {
    /// The header lies on a cycle inside the region that has no step of the counter.
    NoStep { r: u32 },
    /// The counter is written here other than by a step, or by a step that goes the other way than the first.
    OtherWrite { r: u32, at: u32 },
    /// A step here may leave the signed words.
    Wraps { r: u32, at: u32 },
    /// The steps need so many visits at most, and the count is less.
    TooFew { r: u32, needed: u64 },
}
