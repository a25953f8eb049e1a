// The symbols of an ELF file.
ghost use Rattle.std.specs.Prelude as P;
ghost use Rattle.std.specs.Prelude.{◌≡◌, ◌≤◌, ◌<◌, ◌+◌, ◌*◌, ◌/◌, ◌^◌, ◌==◌, ℕ, length, find, position, slice_get, take, drop, min, IfOk, OnOk, IfSome, None, Some};
ghost use Rattle.std.specs.Option.{option_copied};
ghost use Rattle.visa_io.specs.ImageCode.{word_at};
ghost use Rattle.mips_elf.specs.Header.{lies_in};
ghost use Rattle.mips_elf.specs.Symbols.{section_lies, bytes_in, before_zero, name_at, with_name, symbols_from, symbols_in};

use crate::header::word;
use crate::section::{Section, symbol_tables};
use sha2::{Digest, Sha256};
use std::alloc::{AllocError, Global};
use visa_io::Symbols;

/// The longest name that is kept.
const LONGEST_NAME: usize = 1024;

/// How many symbols are read at most.
const MOST_SYMBOLS: usize = 65536;

/// The symbols of the first symbol table.
pub(crate) fn read_symbols(
    alloc: Global,
    big: bool,
    bytes: &[u8],
    sections: &[Section],
) -> Result<Symbols, AllocError>
    ensures { IfOk result (λ symbols. symbols ≡ symbols_in big bytes.now sections.now) }
{
    match symbol_tables(bytes.len() as u64, sections) {
        Some(tables) => {
            let strings = section_bytes(bytes, tables.strings);
            read_table(alloc, big, bytes, strings, tables.table)
        }
        None => Ok(Symbols::new(alloc)),
    }
}

fn section_bytes(bytes: &[u8], s: Section) -> &[u8]
    requires { section_lies (length bytes.now) s ≡ P.true }
    ensures { result.now ≡ bytes_in bytes.now s }
{
    if s.size == 0 {
        return &[];
    }
    let start = s.offset as usize;
    &bytes[start..start + s.size as usize]
}

fn read_table(
    alloc: Global,
    big: bool,
    bytes: &[u8],
    strings: &[u8],
    table: Section,
) -> Result<Symbols, AllocError>
    requires { section_lies (length bytes.now) table ≡ P.true }
    ensures { IfOk result (λ symbols. symbols ≡ symbols_from big bytes.now strings.now table.offset (min (table.size / 16) 65536)) }
{
    let mut symbols = Symbols::keyed(alloc, &key_of(bytes));
    let count = (table.size as usize / 16).min(MOST_SYMBOLS);
    for k in 0..count {
        let at = table.offset as usize + 16 * k;
        let found = name_in(strings, word(big, bytes, at));
        add_name(&mut symbols, found, word(big, bytes, at + 4))?;
    }
    Ok(symbols)
}

// The key under which names are looked up. It depends on every byte of the file, so that nobody can choose names for it.
fn key_of(bytes: &[u8]) -> [u8; 32] {
    Sha256::digest(bytes)
}

fn add_name(symbols: &mut Symbols, name: Option<&[u8]>, value: u32) -> Result<(), AllocError>
    ensures { OnOk result (symbols.new ≡ with_name symbols.old (option_copied name.entry) value) }
{
    match name {
        Some(name) if !name.is_empty() => {
            symbols.add(name, value)?;
        }
        _ => {}
    }
    Ok(())
}

/// The name at a place of a string table: the bytes up to a zero byte, if they aren't too many.
fn name_in(strings: &[u8], at: u32) -> Option<&[u8]>
    ensures { option_copied result ≡ name_at strings.now at }
{
    let start = (at as usize).min(strings.len());
    let text = &strings[start..];
    let end = end_of_name(text)?;
    Some(&text[..end])
}

/// The place of the first zero byte, if a name may be so long.
fn end_of_name(text: &[u8]) -> Option<usize>
    ensures place { before_zero text.now result ≡ before_zero text.now (position (λ b. b == 0) text.now) }
    ensures within { IfSome result (λ n. (n < length text.now) × (n ≤ 1024)) }
{
    first_zero(&text[..text.len().min(LONGEST_NAME + 1)])
}

fn first_zero(text: &[u8]) -> Option<usize>
    ensures place { result ≡ position (λ b. b == 0) text.now }
    ensures within { IfSome result (λ n. n < length text.now) }
{
    text.iter().position(|b| *b == 0)
}
