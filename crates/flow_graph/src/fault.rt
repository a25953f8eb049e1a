/// Why code has no graph. The order of the kinds is that in which they are told; of a kind the least address is told.
#[derive(Clone, Copy, Debug, PartialEq, Eq)]
pub enum FlowFault {
    /// The word at this address, of a unit or its slot, is reserved.
    Reserved { at: u32 },
    /// A jump to where a register other than 31 says, or a call of where a register says.
    Indirect { at: u32 },
    /// A branch that links and may not be taken.
    LinkBranch { at: u32 },
    /// A control instruction in this slot.
    SlotControl { at: u32 },
    /// This slot is a unit too.
    SlotTarget { at: u32 },
    /// The slot, a successor or the return point of this unit is no address of code; or the entry isn't.
    OffCode { at: u32 },
    /// This call is on a cycle of calls.
    Recursion { at: u32 },
    /// A chain of more than 63 calls.
    Deep,
    /// Want of memory.
    Memory,
}
