// An executed instruction, as the pipeline sees it.

/// An executed instruction with its times in cycles. Each stage takes one cycle and, in three of them, some more.
#[derive(Clone, Copy, Debug, PartialEq, Eq)]
pub struct Executed {
    /// Cycles of its fetch beyond the first.
    pub fetch_excess: u32,
    /// Cycles of its execution beyond the first.
    pub execute_excess: u32,
    /// Cycles of its access to memory beyond the first.
    pub memory_excess: u32,
    pub is_load: bool,
    /// The names that it reads: registers 0 to 31, and 32 for the pair HI and LO.
    pub reads: [Option<u8>; 3],
    /// The name that it writes.
    pub writes: Option<u8>,
    /// Whether the instruction after the next is fetched only once this one is in the memory stage.
    pub redirects: bool,
}
