// Plain records that several crates share.
use crate::{List, Symbols};

/// A range of addresses, and what may be done there.
#[derive(Clone, Copy, Debug, PartialEq, Eq)]
pub struct Span {
    /// Its first address.
    pub start: u32,
    /// Its length in bytes.
    pub len: u32,
    pub r: bool,
    pub w: bool,
    pub x: bool,
}

/// A program's image.
#[derive(Debug, Drop)]
pub struct Image {
    /// Whether its words are big-endian.
    pub big: bool,
    /// The address where it starts to run.
    pub entry: u32,
    pub spans: List<Span>,
    /// The bytes of all spans, one after the other.
    pub bytes: List<u8>,
    pub symbols: Symbols,
}

/// Executable spans, and their words in order.
#[derive(Debug, Drop)]
pub struct Code {
    pub spans: List<Span>,
    pub words: List<u32>,
}

/// A cache: sets, ways, and bytes of a line.
#[derive(Clone, Copy, Debug, PartialEq, Eq)]
pub struct Shape {
    pub sets: u32,
    pub ways: u32,
    pub line: u32,
}

/// What a task says of the machine that it runs on.
#[derive(Clone, Copy, Debug, PartialEq, Eq)]
pub struct Machine {
    /// Instructions that the fast core fetches, issues and commits in a cycle.
    pub width: u32,
    /// Entries of its window.
    pub rob: u32,
    /// Cycles of a multiplication in the execute stage.
    pub mul: u32,
    /// Cycles of a division in the execute stage.
    pub div: u32,
    /// Time of a missed access to memory, ps.
    pub mem_ps: u64,
    /// Time of a store beyond its first cycle, ps.
    pub store_ps: u64,
    /// Time that the clock takes to settle at a switch, ps.
    pub settle_ps: u64,
    /// Time from a release to the first cycle, ps.
    pub start_ps: u64,
    pub icache: Option<Shape>,
    pub dcache: Option<Shape>,
}

/// A loop region: the units from `first` to `last`, and how often its header is visited at most.
#[derive(Clone, Copy, Debug, PartialEq, Eq)]
pub struct Region {
    pub first: u32,
    pub last: u32,
    pub header: u32,
    pub count: u32,
    /// The register that counts.
    pub counter: u8,
}

/// A fact on a register where a block starts: `lo`, `lo + stride`, .., `hi`.
#[derive(Clone, Copy, Debug, PartialEq, Eq)]
pub struct FactLine {
    pub at: u32,
    pub register: u8,
    pub lo: i64,
    pub hi: i64,
    pub stride: u32,
}
