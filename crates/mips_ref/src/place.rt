// Where an address stands in memory.
use visa_io::Span;

/// The range that holds an address, and the number of the address's byte among the bytes of all ranges.
#[derive(Clone, Copy, Debug, PartialEq, Eq)]
pub struct Place {
    pub span: Span,
    pub index: usize,
}
