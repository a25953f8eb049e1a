// The code of an image.
ghost use Rattle.std.specs.Prelude.{◌≡◌, ◌<◌, ◌≤◌, ◌+◌, ◌*◌, ◌-◌, ◌^◌, [], ◌∷◌, ◌++◌, ℕ, length, map, filter, All, IfOk, OnOk, OnErr};
ghost use Rattle.visa_io.specs.ImageCode.{IsFilled, total_len, placed_from, first_word, words_end, word_count, cut, has_code, by_start, word_at, words_in, words_of_all, Fits, IsWhole, code_pieces, code_from_pieces, code_of_image};

use crate::{Code, Image, List, Span};
use std::alloc::{AllocError, Global};

/// A span, and the place of its first byte among the bytes of all.
#[derive(Clone, Copy, Debug)]
pub(crate) struct Placed {
    pub(crate) span: Span,
    pub(crate) at: usize,
}

/// The code of an image: its executable spans by rising address (equal ones in the image's order), each cut to the whole
/// words that stand in it at multiples of four and left out where there is none, and these words in the image's byte order.
pub fn code_of(alloc: Global, image: &Image) -> Result<Code, AllocError>
    requires { IsFilled image.now }
    ensures code { IfOk result (λ code. code ≡ code_of_image image.now) }
    ensures whole { IfOk result IsWhole }
{
    code_of_parts(
        alloc,
        image.big,
        image.spans.as_slice(),
        image.bytes.as_slice(),
    )
}

fn code_of_parts(alloc: Global, big: bool, spans: &[Span], bytes: &[u8]) -> Result<Code, AllocError>
    requires bytes { length bytes.now ≡ total_len spans.now }
    requires ends { All (λ span. span.start + span.len ≤ 2 ^ 32) spans.now }
    ensures code { IfOk result (λ code. code ≡ code_from_pieces big bytes.now (code_pieces spans.now)) }
    ensures whole { IfOk result IsWhole }
{
    let pieces = ordered(alloc, spans)?;
    code_from(alloc, big, bytes, &pieces)
}

/// The executable spans that have words, by rising address.
fn ordered(alloc: Global, spans: &[Span]) -> Result<Vec<Placed>, AllocError>
    requires { total_len spans.now < 2 ^ 64 }
    ensures { IfOk result (λ pieces. pieces.items ≡ code_pieces spans.now) }
{
    let mut pieces = place_all(alloc, spans)?;
    sort_by_start(&mut pieces)?;
    Ok(pieces)
}

fn code_from(alloc: Global, big: bool, bytes: &[u8], pieces: &[Placed]) -> Result<Code, AllocError>
    requires { All (Fits (length bytes.now)) pieces.now }
    ensures code { IfOk result (λ code. code ≡ code_from_pieces big bytes.now pieces.now) }
    ensures whole { IfOk result IsWhole }
{
    Ok(Code {
        spans: spans_of(alloc, pieces)?,
        words: words_of(alloc, big, bytes, pieces)?,
    })
}

/// The executable spans that have words, in the image's order.
fn place_all(alloc: Global, spans: &[Span]) -> Result<Vec<Placed>, AllocError>
    requires { total_len spans.now < 2 ^ 64 }
    ensures { IfOk result (λ pieces. pieces.items ≡ filter has_code (placed_from 0 spans.now)) }
{
    let mut pieces = Vec::new(alloc);
    let mut at = 0;
    for span in spans {
        push_code(&mut pieces, Placed { span: *span, at })?;
        at += span.len as usize;
    }
    Ok(pieces)
}

// Pushes a piece that is code.
fn push_code(pieces: &mut Vec<Placed>, piece: Placed) -> Result<(), AllocError>
    ensures { OnOk result (pieces.new.items ≡ pieces.old.items ++ filter has_code (piece ∷ [])) }
{
    if is_code(piece) {
        pieces.push(piece)?;
    }
    Ok(())
}

fn sort_by_start(pieces: &mut Vec<Placed>) -> Result<(), AllocError>
    ensures { OnOk result (pieces.new.items ≡ by_start pieces.old.items) }
{
    pieces.sort_by_key(|piece| piece.span.start)
}

fn spans_of(alloc: Global, pieces: &[Placed]) -> Result<List<Span>, AllocError>
    requires ends { All (λ piece. piece.span.start + piece.span.len ≤ 2 ^ 32) pieces.now }
    requires words { All (λ piece. 0 < word_count piece.span) pieces.now }
    ensures { IfOk result (λ spans. spans ≡ map (λ piece. cut piece.span) pieces.now) }
{
    let mut spans = List::new(alloc);
    for piece in pieces {
        spans.push(cut_to_words(piece.span))?;
    }
    Ok(spans)
}

fn words_of(
    alloc: Global,
    big: bool,
    bytes: &[u8],
    pieces: &[Placed],
) -> Result<List<u32>, AllocError>
    requires { All (λ piece. piece.at + piece.span.len ≤ length bytes.now) pieces.now }
    ensures { IfOk result (λ words. words ≡ words_of_all big bytes.now pieces.now) }
{
    let mut words = List::new(alloc);
    for piece in pieces {
        push_words(&mut words, big, bytes, *piece)?;
    }
    Ok(words)
}

fn push_words(
    words: &mut List<u32>,
    big: bool,
    bytes: &[u8],
    piece: Placed,
) -> Result<(), AllocError>
    requires { piece.at + piece.span.len ≤ length bytes.now }
    ensures { OnOk result (words.new ≡ words.old ++ words_in big bytes.now piece) }
{
    let first = piece.at + (first_multiple(piece.span) - piece.span.start as usize);
    for k in 0..count_of_words(piece.span) {
        words.push(word(big, bytes, first + 4 * k))?;
    }
    Ok(())
}

fn word(big: bool, bytes: &[u8], i: usize) -> u32
    requires { i + 4 ≤ length bytes.now }
    ensures { result ≡ word_at big bytes.now i }
{
    let four = [bytes[i], bytes[i + 1], bytes[i + 2], bytes[i + 3]];
    if big {
        u32::from_be_bytes(four)
    } else {
        u32::from_le_bytes(four)
    }
}

fn is_code(piece: Placed) -> bool
    ensures { result ≡ has_code piece }
{
    piece.span.x && count_of_words(piece.span) > 0
}

fn first_multiple(span: Span) -> usize
    ensures { result ≡ first_word span }
{
    (span.start as usize + 3) / 4 * 4
}

fn count_of_words(span: Span) -> usize
    ensures { result ≡ word_count span }
{
    let end = (span.start as usize + span.len as usize) / 4 * 4;
    end.saturating_sub(first_multiple(span)) / 4
}

fn cut_to_words(span: Span) -> Span
    requires ends { span.start + span.len ≤ 2 ^ 32 }
    requires words { 0 < word_count span }
    ensures { result ≡ cut span }
{
    Span {
        start: first_multiple(span) as u32,
        len: 4 * count_of_words(span) as u32,
        ..span
    }
}
