// Putting the lines of code.
ghost use Rattle.std.specs.Prelude.{◌≡◌, ◌≤◌, ◌<◌, ◌+◌, ◌*◌, ◌%◌, ◌^◌, [], ◌∷◌, ℕ, length};
ghost use Rattle.std.specs.List.{All};
ghost use Rattle.std.specs.List.Sorted.{IsNonDecreasingBy};
ghost use Rattle.visa_io.specs.ImageCode.{IsAligned, IsWhole, code_of_image, total_len};
ghost use Rattle.visa_io.specs.Puts.{Puts};
ghost use Rattle.visa_io.specs.declared.records.Image.{Image};
ghost use Rattle.list_text.specs.Lists.{lines_from, lines_of_spans, list_header, list_lines, word_line, word_lines};
ghost use Rattle.list_text.specs.Tables.{IsTableOf, lines_at};

use crate::table::SymbolLine;
use crate::write::write_word;
use task_text::LineRoom;
use visa_io::{Code, Sink, SinkFailed, Span};

/// The first line of a list of code.
pub const LIST_HEADER: &[u8] = b"visa 1 list\n";

/// Puts the lines of code, each by one put: the first line, and for each word the lines of the symbols at its address and its own.
/// Takes no memory.
pub fn put_list<S: Sink>(
    sink: &mut S,
    room: &mut LineRoom,
    table: &[SymbolLine],
    code: &Code,
) -> Result<(), SinkFailed>
    requires room { 67 ≤ room.old.room }
    requires rising { IsNonDecreasingBy (λ l. l.at) table.now }
    requires whole { IsWhole code.now }
    requires ends { All (λ span. span.start + span.len ≤ 2 ^ 32) code.now.spans }
    ensures puts { (image : Image) → code.now ≡ code_of_image image → IsTableOf image.symbols table.now → Puts (S.taken sink.old) (S.taken sink.new) (list_lines image) result }
    ensures room { room.new.room ≡ room.old.room }
{
    put_header(sink)?;
    put_spans(
        sink,
        room,
        table,
        code.spans.as_slice(),
        code.words.as_slice(),
    )
}

#[tactic(auto, using(visa_io::proofs::PutLaws::puts_piece))]
fn put_header<S: Sink>(sink: &mut S) -> Result<(), SinkFailed>
    ensures { Puts (S.taken sink.old) (S.taken sink.new) (list_header ∷ []) result }
{
    sink.put(LIST_HEADER)
}

// Puts the lines of spans, which hold the words one after the other.
fn put_spans<S: Sink>(
    sink: &mut S,
    room: &mut LineRoom,
    table: &[SymbolLine],
    spans: &[Span],
    words: &[u32],
) -> Result<(), SinkFailed>
    requires room { 67 ≤ room.old.room }
    requires rising { IsNonDecreasingBy (λ l. l.at) table.now }
    requires words { 4 * length words.now ≡ total_len spans.now }
    requires aligned { All IsAligned spans.now }
    requires ends { All (λ span. span.start + span.len ≤ 2 ^ 32) spans.now }
    ensures puts { Puts (S.taken sink.old) (S.taken sink.new) (lines_of_spans (lines_at table.now) spans.now words.now) result }
    ensures room { room.new.room ≡ room.old.room }
{
    let mut rest = words;
    for span in spans {
        let (own, others) = rest.split_at(span.len as usize / 4);
        put_words(sink, room, table, span.start, own)?;
        rest = others;
    }
    Ok(())
}

// Puts the lines of words from an address on.
fn put_words<S: Sink>(
    sink: &mut S,
    room: &mut LineRoom,
    table: &[SymbolLine],
    at: u32,
    words: &[u32],
) -> Result<(), SinkFailed>
    requires room { 67 ≤ room.old.room }
    requires rising { IsNonDecreasingBy (λ l. l.at) table.now }
    requires end { at + 4 * length words.now ≤ 2 ^ 32 }
    ensures puts { Puts (S.taken sink.old) (S.taken sink.new) (lines_from (lines_at table.now) at words.now) result }
    ensures room { room.new.room ≡ room.old.room }
{
    for (i, word) in words.iter().enumerate() {
        put_lines(sink, room, table, at + 4 * i as u32, *word)?;
    }
    Ok(())
}

// Puts the lines of the symbols at a word's address, and its own.
fn put_lines<S: Sink>(
    sink: &mut S,
    room: &mut LineRoom,
    table: &[SymbolLine],
    at: u32,
    word: u32,
) -> Result<(), SinkFailed>
    requires room { 67 ≤ room.old.room }
    requires rising { IsNonDecreasingBy (λ l. l.at) table.now }
    ensures puts { Puts (S.taken sink.old) (S.taken sink.new) (word_lines (lines_at table.now) at word) result }
    ensures room { room.new.room ≡ room.old.room }
{
    put_symbols(sink, table, at)?;
    put_word(sink, room, at, word)
}

// Puts the lines at an address.
fn put_symbols<S: Sink>(sink: &mut S, table: &[SymbolLine], at: u32) -> Result<(), SinkFailed>
    requires { IsNonDecreasingBy (λ l. l.at) table.now }
    ensures { Puts (S.taken sink.old) (S.taken sink.new) (lines_at table.now at) result }
{
    let first = table.partition_point(|l| l.at < at);
    put_run(sink, &table[first..], at)
}

// Puts the lines at an address of a table whose addresses rise from it on.
fn put_run<S: Sink>(sink: &mut S, run: &[SymbolLine], at: u32) -> Result<(), SinkFailed>
    requires rising { IsNonDecreasingBy (λ l. l.at) run.now }
    requires from { All (λ l. at ≤ l.at) run.now }
    ensures { Puts (S.taken sink.old) (S.taken sink.new) (lines_at run.now at) result }
{
    for symbol in run {
        if symbol.at != at {
            return Ok(());
        }
        sink.put(symbol.line.as_slice())?;
    }
    Ok(())
}

// Puts the line of a word.
fn put_word<S: Sink>(
    sink: &mut S,
    room: &mut LineRoom,
    at: u32,
    word: u32,
) -> Result<(), SinkFailed>
    requires { 67 ≤ room.old.room }
    ensures puts { Puts (S.taken sink.old) (S.taken sink.new) (word_line at word ∷ []) result }
    ensures room { room.new.room ≡ room.old.room }
{
    write_word(room, at, word);
    room.put(sink)
}
