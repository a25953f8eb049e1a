// The section headers of an ELF file.
ghost use Rattle.std.specs.Prelude.{◌≡◌, ◌≤◌, ◌<◌, ◌+◌, ◌*◌, ◌^◌, ℕ, true, length, find, slice_get, IfOk, IfSome, None, Some};
ghost use Rattle.std.specs.Option.{option_copied};
ghost use Rattle.mips_elf.specs.Symbols.{section_at, sections_from, has_sections, sections_in, section_lies, some_lies, is_symbol_table, tables_in};

use crate::header::{Header, is_within, word};
use std::alloc::{AllocError, Global};

/// A section header.
#[derive(Clone, Copy, Debug)]
pub(crate) struct Section {
    pub(crate) kind: u32,
    /// Where its bytes stand in the file.
    pub(crate) offset: u32,
    pub(crate) size: u32,
    /// The number of a section that belongs to it.
    pub(crate) link: u32,
    pub(crate) entry_size: u32,
}

/// A symbol table, and the string table of its names.
#[derive(Clone, Copy, Debug)]
pub(crate) struct Tables {
    pub(crate) table: Section,
    pub(crate) strings: Section,
}

/// The section headers; none where they have another size or don't lie in the file.
pub(crate) fn read_sections(
    alloc: Global,
    header: Header,
    bytes: &[u8],
) -> Result<Vec<Section>, AllocError>
    ensures { IfOk result (λ sections. sections.items ≡ sections_in header bytes.now) }
{
    let count = usize::from(header.section_count);
    if count == 0 || !are_readable(bytes.len() as u64, header) {
        return Ok(Vec::new(alloc));
    }
    read_table(
        alloc,
        header.big,
        bytes,
        header.section_table as usize,
        count,
    )
}

fn are_readable(len: u64, header: Header) -> bool
    ensures { result ≡ has_sections len header }
{
    header.section_size == 40
        && is_within(
            len,
            header.section_table,
            40 * u64::from(header.section_count),
        )
}

fn read_table(
    alloc: Global,
    big: bool,
    bytes: &[u8],
    at: usize,
    count: usize,
) -> Result<Vec<Section>, AllocError>
    requires { at + 40 * count ≤ length bytes.now }
    ensures { IfOk result (λ sections. sections.items ≡ sections_from big bytes.now at count) }
{
    let mut sections = Vec::new(alloc);
    for k in 0..count {
        sections.push(read_section(big, bytes, at + 40 * k))?;
    }
    Ok(sections)
}

#[tactic(auto, unfolding(crate::specs::Symbols::section_at))]
fn read_section(big: bool, bytes: &[u8], at: usize) -> Section
    requires { at + 40 ≤ length bytes.now }
    ensures { result ≡ section_at big bytes.now at }
{
    Section {
        kind: word(big, bytes, at + 4),
        offset: word(big, bytes, at + 16),
        size: word(big, bytes, at + 20),
        link: word(big, bytes, at + 24),
        entry_size: word(big, bytes, at + 36),
    }
}

/// The first symbol table, and its string table. Both lie in the file.
pub(crate) fn symbol_tables(len: u64, sections: &[Section]) -> Option<Tables>
    ensures tables { result ≡ tables_in len sections.now }
    ensures table { IfSome result (λ tables. section_lies len tables.table ≡ true) }
    ensures strings { IfSome result (λ tables. section_lies len tables.strings ≡ true) }
{
    let table = first_table(len, sections)?;
    let strings = section_numbered(sections, table.link as usize)?;
    Some(Tables { table, strings })
}

fn first_table(len: u64, sections: &[Section]) -> Option<Section>
    ensures { result ≡ find (is_symbol_table len sections.now) sections.now }
{
    sections
        .iter()
        .copied()
        .find(|s| is_table(len, sections, *s))
}

fn section_numbered(sections: &[Section], number: usize) -> Option<Section>
    ensures { result ≡ slice_get sections.now number }
{
    sections.get(number).copied()
}

fn is_table(len: u64, sections: &[Section], s: Section) -> bool
    ensures { result ≡ is_symbol_table len sections.now s }
{
    s.kind == 2
        && s.entry_size == 16
        && lies_within(len, s)
        && link_lies_within(len, sections, s.link as usize)
}

fn link_lies_within(len: u64, sections: &[Section], link: usize) -> bool
    ensures { result ≡ some_lies len (slice_get sections.now link) }
{
    match sections.get(link) {
        Some(s) => lies_within(len, *s),
        None => false,
    }
}

fn lies_within(len: u64, s: Section) -> bool
    ensures { result ≡ section_lies len s }
{
    is_within(len, s.offset, u64::from(s.size))
}
