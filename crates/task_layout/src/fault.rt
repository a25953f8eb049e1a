// Why a task has no memory.

/// Why a task can't be laid out with its image, in the order of the rules.
#[derive(Clone, Copy, Debug, PartialEq, Eq)]
pub enum LayoutFault {
    /// The task has another byte order than the image.
    OrderDiffers,
    /// Two ranges share an address, or one has an address of ffff0000 or above; the least such address.
    Overlap { at: u32 },
    /// The ranges have more than 4194304 bytes.
    TooBig,
    /// More than 262144 bytes can be executed.
    CodeBig,
    /// The least address of the input buffer that can't be stored to; else, of the first range shown that isn't declared
    /// whole, the least address that isn't declared.
    Uncovered { at: u32 },
    /// Memory ran out.
    Memory,
}
