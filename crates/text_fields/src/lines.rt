// A text's lines and a line's fields.
ghost use Rattle.std.specs.Prelude.{◌≡◌, ◌∷◌, [], ◌<◌, ◌≤◌, map, length, take, IfOk, IfSome, IfNone};
ghost use Rattle.std.specs.List.{position_or_len};
ghost use Rattle.text_fields.specs.Lines.{fields as fields_lem, is_feed, is_graphic as is_graphic_lem, is_printable as is_printable_lem, lines_of};

use std::alloc::{AllocError, Global};

// What ends a line, and what stands between two fields.
const FEED: u8 = b'\n';

const SPACE: u8 = b' ';

/// Whether a byte is one of a text: 20 to 7e. Takes no memory.
pub fn is_printable(b: u8) -> bool
    ensures { result ≡ is_printable_lem b }
{
    SPACE <= b && b <= b'~'
}

/// Whether a byte is one of a text and no space: 21 to 7e. Takes no memory.
pub fn is_graphic(b: u8) -> bool
    ensures { result ≡ is_graphic_lem b }
{
    b'!' <= b && b <= b'~'
}

// The place of the first line feed, or the text's length.
fn line_end(text: &[u8]) -> usize
    ensures place { result ≡ position_or_len is_feed text.now }
    ensures within { result ≤ length text.now }
{
    for (i, b) in text.iter().enumerate() {
        if *b == FEED {
            return i;
        }
    }
    text.len()
}

/// The first line, without its feed, and the text after it. None where there is no line. Takes no memory.
pub fn next_line(text: &[u8]) -> Option<(&[u8], &[u8])>
    ensures none { IfNone result (text.now ≡ []) }
    ensures line { IfSome result (λ p. lines_of text.now ≡ p.0.now ∷ lines_of p.1.now) }
    ensures shorter { IfSome result (λ p. length p.1.now < length text.now) }
{
    if text.is_empty() {
        return None;
    }
    let end = line_end(text);
    if end < text.len() {
        Some((&text[..end], &text[end + 1..]))
    } else {
        Some((text, &text[end..]))
    }
}

/// The fields of a line, in order, `most` at most; no field beyond these is looked at.
pub fn fields(alloc: Global, line: &[u8], most: usize) -> Result<Vec<&[u8]>, AllocError>
    ensures { IfOk result (λ v. map (λ x. x.now) v.items ≡ take most (fields_lem line.now)) }
{
    line.split(|b| *b == SPACE).take(most).collect(alloc)
}
