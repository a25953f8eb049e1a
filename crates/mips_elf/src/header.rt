// The header of an ELF file.
ghost use Rattle.std.specs.Prelude.{◌≡◌, ◌≤◌, ◌+◌, ◌/◌, ◌^◌, ◌==◌, ℕ, length, slice_index, IfOk, IfErr, IfNone, true, ◌<◌, ◌*◌, MatchResult, None, Some};
ghost use Rattle.visa_io.specs.ImageCode.{word_at};
ghost use Rattle.mips_elf.specs.Header.{half_at, header_in, header_of, lies_in, has_magic, has_class, is_known_level, field_fault, header_fault};

use crate::ElfError;
use byteorder::{BigEndian, ByteOrder, LittleEndian};

/// The fields of a header that are read.
#[derive(Clone, Copy, Debug)]
pub(crate) struct Header {
    /// Whether the file's numbers are big-endian.
    pub(crate) big: bool,
    pub(crate) kind: u16,
    pub(crate) machine: u16,
    pub(crate) entry: u32,
    /// Where the program headers begin.
    pub(crate) segment_table: u32,
    /// Where the section headers begin.
    pub(crate) section_table: u32,
    pub(crate) flags: u32,
    pub(crate) segment_size: u16,
    pub(crate) segment_count: u16,
    pub(crate) section_size: u16,
    pub(crate) section_count: u16,
}

#[tactic(auto, unfolding(crate::specs::Header::header_fault))]
/// The header, where each rule on it holds; else the first that fails.
pub(crate) fn read_header(bytes: &[u8]) -> Result<Header, ElfError>
    ensures ok { IfOk result (λ h. (header_fault bytes.now ≡ None) × (h ≡ header_of bytes.now) × (52 ≤ length bytes.now)) }
    ensures table { IfOk result (λ h. lies_in (length bytes.now) h.segment_table (32 * h.segment_count) ≡ true) }
    ensures count { IfOk result (λ h. h.segment_count ≤ 64) }
    ensures err { IfErr result (λ e. header_fault bytes.now ≡ Some e) }
{
    if !is_elf(bytes) {
        return Err(ElfError::NotElf);
    }
    if bytes.len() < 52 {
        return Err(truncated(bytes));
    }
    if !is_known_class(bytes) {
        return Err(ElfError::WrongClass);
    }
    let big = bytes[5] == 2;
    let header = fields(big, bytes);
    match fault_of_fields(bytes.len() as u64, header) {
        None => Ok(header),
        Some(fault) => Err(fault),
    }
}

/// The fault of a file that ends too early.
pub(crate) fn truncated(bytes: &[u8]) -> ElfError
    ensures { result ≡ ElfError.Truncated (length bytes.now) }
{
    ElfError::Truncated {
        offset: bytes.len() as u64,
    }
}

/// Whether so many bytes from a place on are in a file of this length.
pub(crate) fn is_within(len: u64, at: u32, count: u64) -> bool
    requires { count < 2 ^ 63 }
    ensures { result ≡ lies_in len at count }
{
    count == 0 || u64::from(at) + count <= len
}

/// The number of 16 bits in two bytes.
pub(crate) fn half(big: bool, bytes: &[u8], i: usize) -> u16
    requires { i + 2 ≤ length bytes.now }
    ensures { result ≡ half_at big bytes.now i }
{
    if big {
        BigEndian::read_u16(&bytes[i..])
    } else {
        LittleEndian::read_u16(&bytes[i..])
    }
}

/// The number of 32 bits in four bytes.
pub(crate) fn word(big: bool, bytes: &[u8], i: usize) -> u32
    requires { i + 4 ≤ length bytes.now }
    ensures { result ≡ word_at big bytes.now i }
{
    if big {
        BigEndian::read_u32(&bytes[i..])
    } else {
        LittleEndian::read_u32(&bytes[i..])
    }
}

fn is_elf(bytes: &[u8]) -> bool
    ensures { result ≡ has_magic bytes.now }
{
    bytes.len() >= 4 && bytes[0] == 0x7f && bytes[1] == b'E' && bytes[2] == b'L' && bytes[3] == b'F'
}

fn is_known_class(bytes: &[u8]) -> bool
    requires { 6 ≤ length bytes.now }
    ensures { result ≡ has_class bytes.now }
{
    bytes[4] == 1 && (bytes[5] == 1 || bytes[5] == 2)
}

#[tactic(auto, unfolding(crate::specs::Header::header_in))]
fn fields(big: bool, bytes: &[u8]) -> Header
    requires { 52 ≤ length bytes.now }
    ensures { result ≡ header_in big bytes.now }
{
    Header {
        big,
        kind: half(big, bytes, 16),
        machine: half(big, bytes, 18),
        entry: word(big, bytes, 24),
        segment_table: word(big, bytes, 28),
        section_table: word(big, bytes, 32),
        flags: word(big, bytes, 36),
        segment_size: half(big, bytes, 42),
        segment_count: half(big, bytes, 44),
        section_size: half(big, bytes, 46),
        section_count: half(big, bytes, 48),
    }
}

fn is_level(level: u32) -> bool
    ensures { result ≡ is_known_level level }
{
    matches!(level, 0 | 1 | 5 | 7)
}

#[tactic(auto, unfolding(crate::specs::Header::field_fault))]
fn fault_of_fields(len: u64, header: Header) -> Option<ElfError>
    ensures fault { result ≡ field_fault len header }
    ensures table { IfNone result (lies_in len header.segment_table (32 * header.segment_count) ≡ true) }
    ensures count { IfNone result (header.segment_count ≤ 64) }
{
    if header.machine != 8 {
        return Some(ElfError::WrongMachine);
    }
    if header.kind != 2 {
        return Some(ElfError::WrongType);
    }
    if !is_level(header.flags >> 28) {
        return Some(ElfError::WrongArch);
    }
    if header.segment_count != 0 && header.segment_size != 32 {
        return Some(ElfError::EntrySize);
    }
    if header.segment_count > 64 {
        return Some(ElfError::TooMany);
    }
    if !is_within(
        len,
        header.segment_table,
        32 * u64::from(header.segment_count),
    ) {
        return Some(ElfError::Truncated { offset: len });
    }
    None
}
