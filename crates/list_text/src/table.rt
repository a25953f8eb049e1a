// The lines of symbols by their addresses.
ghost use Rattle.std.specs.Prelude.{◌≡◌, ◌<◌, ◌++◌, ◌∷◌, [], length, slice_index_or, IfOk, OnOk};
ghost use Rattle.list_text.specs.Lists.{is_plain as is_plain_lem, symbol_line};
ghost use Rattle.list_text.specs.Tables.{IsTableOf, named_lines, pairs_of};

use std::alloc::{AllocError, Global};
use text_fields::is_graphic;
use visa_io::Symbols;

/// The line of a symbol, and its address.
#[derive(Debug, Drop)]
pub struct SymbolLine {
    pub at: u32,
    pub line: Vec<u8>,
}

/// The lines of the symbols whose names have only bytes from 21 to 7e, by rising address, those of one in file order.
pub fn symbol_table(alloc: Global, symbols: &Symbols) -> Result<Vec<SymbolLine>, AllocError>
    ensures { IfOk result (λ table. IsTableOf symbols.now table.items) }
{
    let mut table = plain_lines(alloc, symbols)?;
    table.sort_by_key(|l| l.at)?;
    Ok(table)
}

// The lines of plain names, in file order.
fn plain_lines(alloc: Global, symbols: &Symbols) -> Result<Vec<SymbolLine>, AllocError>
    ensures { IfOk result (λ table. pairs_of table.items ≡ named_lines symbols.now) }
{
    let mut lines = Vec::new(alloc);
    for i in 0..symbols.len() {
        push_line(alloc, &mut lines, symbols, i)?;
    }
    Ok(lines)
}

// Pushes the line of a symbol whose name is plain.
fn push_line(
    alloc: Global,
    lines: &mut Vec<SymbolLine>,
    symbols: &Symbols,
    i: usize,
) -> Result<(), AllocError>
    requires { i < length symbols.now }
    ensures { OnOk result (pairs_of lines.new.items ≡ pairs_of lines.old.items ++ named_lines (slice_index_or symbols.now i ([], 0) ∷ [])) }
{
    if let Some((name, at)) = symbols.at(i) {
        if is_plain(name) {
            let line = line_of(alloc, name)?;
            lines.push(SymbolLine { at, line })?;
        }
    }
    Ok(())
}

fn is_plain(name: &[u8]) -> bool
    ensures { result ≡ is_plain_lem name.now }
{
    name.iter().all(|c| is_graphic(*c))
}

fn line_of(alloc: Global, name: &[u8]) -> Result<Vec<u8>, AllocError>
    ensures { IfOk result (λ line. line.items ≡ symbol_line name.now) }
{
    let mut line = Vec::new(alloc);
    line.extend_from_slice(b"sym ")?;
    line.extend_from_slice(name)?;
    line.push(b'\n')?;
    Ok(line)
}
