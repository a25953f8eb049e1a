/// Why regions are no nest in a graph. The order of the variants is that in which faults are told; of crossing and side entry
/// the least region is told, then the least edge.
#[derive(Clone, Copy, Debug, PartialEq, Eq)]
pub enum RegionFault {
    /// Region `r`, counted from 1, doesn't hold its header, its header is no unit, or it clashes with an earlier region: both have
    /// one header, or they overlap and neither holds the other.
    Crossing { r: u32 },
    /// Region `r` is entered along this edge elsewhere than at its header; where a function begins there, `from` is fffffff0.
    SideEntry { r: u32, from: u32, to: u32 },
    /// Without the edges back to headers a cycle is left in a function, and this is the least unit on one.
    FreeCycle { at: u32 },
    /// Want of memory.
    Memory,
}
