// The image of a task whose code stands in its text.
ghost use Rattle.std.specs.Prelude.{◌≡◌, [], unwrap_or, IfOk};
ghost use Rattle.visa_io.specs.ImageCode.{IsFilled};
ghost use Rattle.task_text.specs.Limits.{KeepsLimits};
ghost use Rattle.task_text.specs.WordsImage.{word_bytes as word_bytes_lem, words_bytes as words_bytes_lem, words_image as words_image_lem};

use crate::task::{Source, Task};
use std::alloc::{AllocError, Global};
use visa_io::{Image, List, Span, Symbols};

// The four bytes of a word.
fn word_bytes(big: bool, w: u32) -> [u8; 4]
    ensures { result ≡ word_bytes_lem big w }
{
    if big {
        w.to_be_bytes()
    } else {
        w.to_le_bytes()
    }
}

// The bytes of words.
#[tactic(auto, unfolding(crate::specs::WordsImage::words_bytes))]
fn words_bytes(alloc: Global, big: bool, words: &[u32]) -> Result<List<u8>, AllocError>
    ensures { IfOk result (λ l. l ≡ words_bytes_lem big words.now) }
{
    let mut bytes = Vec::new(alloc);
    for w in words {
        bytes.extend_from_slice(&word_bytes(big, *w))?;
    }
    Ok(List::from_vec(bytes))
}

// An image of these words.
fn image_of(alloc: Global, task: &Task, spans: &[Span], words: &[u32]) -> Result<Image, AllocError>
    ensures { IfOk result (λ i. i ≡ record { big = task.now.big; entry = unwrap_or task.now.entry 0; spans = spans.now; bytes = words_bytes_lem task.now.big words.now; symbols = [] }) }
{
    Ok(Image {
        big: task.big,
        entry: task.entry.unwrap_or(0),
        spans: List::copy_of(alloc, spans)?,
        bytes: words_bytes(alloc, task.big, words)?,
        symbols: Symbols::new(alloc),
    })
}

/// The image of a task with words: its ranges, their bytes in its byte order, its entry, and no symbols. It has no
/// ranges for a task that names an image.
#[tactic(auto, using(crate::proofs::TaskParts::filled_by))]
pub fn words_image(alloc: Global, task: &Task) -> Result<Image, AllocError>
    ensures image { IfOk result (λ i. i ≡ words_image_lem task.now) }
    ensures filled { KeepsLimits task.now → IfOk result IsFilled }
{
    match &task.image {
        Source::Name(_) => image_of(alloc, task, &[], &[]),
        Source::Words(code) => image_of(alloc, task, code.spans.as_slice(), code.words.as_slice()),
    }
}
