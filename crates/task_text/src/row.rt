// One line of a task text.
use visa_io::{FactLine, List, Region, Shape};

/// The keywords of a task text, in the order of its table.
#[derive(Clone, Copy, Debug)]
pub enum Keyword {
    Version,
    Order,
    Core,
    Memory,
    Icache,
    Dcache,
    Point,
    Time,
    Image,
    Words,
    Entry,
    Stack,
    Ram,
    Input,
    Output,
    Show,
    Cut,
    Loop,
    Fact,
}

/// The fast core: width, window entries, cycles of a multiplication and of a division.
#[derive(Clone, Copy, Debug)]
pub struct CoreRow {
    pub width: u32,
    pub rob: u32,
    pub mul: u32,
    pub div: u32,
}

/// Times of memory, of a store, of a switch and of a start, ps.
#[derive(Clone, Copy, Debug)]
pub struct MemoryRow {
    pub mem_ps: u64,
    pub store_ps: u64,
    pub settle_ps: u64,
    pub start_ps: u64,
}

/// A task's period and deadline, ps.
#[derive(Clone, Copy, Debug)]
pub struct TimeRow {
    pub period_ps: u64,
    pub deadline_ps: u64,
}

/// A range of addresses.
#[derive(Clone, Copy, Debug)]
pub struct Extent {
    pub start: u32,
    pub len: u32,
}

/// Words of code and the address of the first.
#[derive(Debug, Drop)]
pub struct WordsRow {
    pub start: u32,
    pub words: List<u32>,
}

/// A line of a task text, by its keyword.
#[derive(Debug, Drop)]
pub enum Row {
    Version,
    /// Whether memory is big-endian.
    Order(bool),
    Core(CoreRow),
    Memory(MemoryRow),
    Icache(Option<Shape>),
    Dcache(Option<Shape>),
    /// A clock period, ps.
    Point(u64),
    Time(TimeRow),
    /// The name of an image file.
    Image(List<u8>),
    Words(WordsRow),
    /// The address of the first instruction, or None for the image's own.
    Entry(Option<u32>),
    Stack(u32),
    Ram(Extent),
    Input(Extent),
    /// The greatest number of output words.
    Output(u32),
    Show(Extent),
    Cut(u32),
    Loop(Region),
    Fact(FactLine),
}
