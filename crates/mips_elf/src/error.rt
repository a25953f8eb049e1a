// Why a file is no image.
use std::alloc::AllocError;
use thiserror::Error;

/// Why a file is refused.
#[derive(Clone, Copy, Debug, PartialEq, Eq, Error)]
pub enum ElfError {
    #[error("not an ELF file")]
    NotElf,
    /// The file has only so many bytes, fewer than it speaks of.
    #[error("the file ends at {offset}")]
    Truncated { offset: u64 },
    #[error("not 32-bit, or of no known byte order")]
    WrongClass,
    #[error("not for MIPS")]
    WrongMachine,
    #[error("not executable")]
    WrongType,
    #[error("of another architecture level")]
    WrongArch,
    #[error("program headers of another size")]
    EntrySize,
    #[error("too many program headers")]
    TooMany,
    #[error("linked dynamically")]
    Dynamic,
    /// A segment, by its number from 0 among the program headers.
    #[error("segment {segment} is larger in the file than in memory")]
    SegmentSize { segment: u32 },
    /// The least address that two segments share, or that is too high for one.
    #[error("segments meet, or are too high, at {at:08x}")]
    Overlap { at: u32 },
    #[error("the segments are too large")]
    TooBig,
    #[error("no memory")]
    Memory,
}

impl From<AllocError> for ElfError {
    ghost use Rattle.std.specs.Prelude.{◌≡◌};
    ghost use Rattle.mips_elf.specs.declared.error.ElfError.TheVariants.{Memory};

    ghost from_gives = { λ _ e. e ≡ Memory };

    fn from(_: AllocError) -> Self {
        ElfError::Memory
    }
}
