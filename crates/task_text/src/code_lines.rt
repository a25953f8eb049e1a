// Lines on code: the name of an image, or words.
ghost use Rattle.std.specs.Prelude.{◌≡◌, ◌∷◌, [], true, Some, None, cond, nat_eq, nat_le, ◌&&◌, ◌+◌, ◌*◌, ◌%◌, map, length, IfOk, ◌≤◌};
ghost use Rattle.std.specs.List.{list_all};
ghost use Rattle.text_fields.specs.Numbers.{is_hex, hex};
ghost use Rattle.std.specs.Prelude.{Ok, Err};
ghost use Rattle.task_text.specs.declared.fault.LineKind.TheVariants.{Field};
ghost use Rattle.task_text.specs.declared.row.Keyword.TheVariants as k;
ghost use Rattle.task_text.specs.declared.row.Row.TheVariants as row;
ghost use Rattle.task_text.specs.Gives.{Gives};
ghost use Rattle.task_text.specs.Table.{is_name as is_name_lem, is_word};
ghost use Rattle.task_text.specs.Reading.{parsed, valued, limited};

use crate::fault::{LineKind, ReadError};
use crate::limits::is_name;
use crate::row::{Row, WordsRow};
use std::alloc::{AllocError, Global};
use text_fields::hex_word;
use visa_io::List;

// What a kind of line that takes no memory gives.
pub(crate) fn without_memory(row: Result<Row, LineKind>) -> Result<Row, ReadError>
    ensures { Gives result row }
{
    match row {
        Ok(row) => Ok(row),
        Err(kind) => Err(ReadError::Line(kind)),
    }
}

#[tactic(auto, unfolding(crate::specs::Table::in_limits))]
fn image_value(alloc: Global, n: &[u8]) -> Result<Row, ReadError>
    requires { is_name_lem n.now ≡ true }
    ensures { Gives result (valued (limited (Some (row.Image n.now)))) }
{
    if n.len() > 255 {
        return Err(ReadError::Line(LineKind::Value));
    }
    match List::copy_of(alloc, n) {
        Ok(name) => Ok(Row::Image(name)),
        Err(_) => Err(ReadError::Memory),
    }
}

#[tactic(auto, unfolding(crate::specs::Reading::parsed, crate::specs::Reading::row_of, crate::specs::Table::is_formed))]
fn image_of(alloc: Global, n: &[u8]) -> Result<Row, ReadError>
    ensures { Gives result (parsed k.Image (n.now ∷ [])) }
{
    if is_name(n) {
        image_value(alloc, n)
    } else {
        Err(ReadError::Line(LineKind::Field))
    }
}

#[tactic(auto, unfolding(crate::specs::Reading::parsed, crate::specs::Table::is_formed))]
pub(crate) fn image(alloc: Global, others: &[&[u8]]) -> Result<Row, ReadError>
    ensures { Gives result (parsed k.Image (map (λ x. x.now) others.now)) }
{
    match others {
        [n] => image_of(alloc, n),
        _ => Err(ReadError::Line(LineKind::Field)),
    }
}

// The words of fields.
fn words_of(alloc: Global, fields: &[&[u8]]) -> Result<List<u32>, ReadError>
    ensures { Gives result (cond (list_all is_hex (map (λ x. x.now) fields.now)) (Ok (map hex (map (λ x. x.now) fields.now))) (Err Field)) }
{
    let mut words = List::new(alloc);
    for f in fields {
        let Some(word) = hex_word(f) else {
            return Err(ReadError::Line(LineKind::Field));
        };
        if words.push(word).is_err() {
            return Err(ReadError::Memory);
        }
    }
    Ok(words)
}

// Whether words may stand from this address on.
fn has_room(start: u32, count: usize) -> bool
    requires { count ≤ 64 }
    ensures { result ≡ (nat_eq (start % 4) 0 && nat_le (start + 4 * count) 0xffff_0000) }
{
    start % 4 == 0 && u64::from(start) + 4 * (count as u64) <= 0xffff_0000
}

// The row of words from an address on.
#[tactic(auto, using(crate::proofs::Fields::words_limited))]
fn words_value(start: u32, words: List<u32>) -> Result<Row, LineKind>
    requires words { list_all is_word words ≡ true }
    requires some { 1 ≤ length words }
    requires short { length words ≤ 64 }
    ensures { result ≡ valued (limited (Some (row.Words (record { start = start; words = words })))) }
{
    if has_room(start, words.len()) {
        Ok(Row::Words(WordsRow { start, words }))
    } else {
        Err(LineKind::Value)
    }
}

#[tactic(auto, unfolding(crate::specs::Reading::parsed, crate::specs::Reading::row_of, crate::specs::Table::is_formed))]
fn words_after(alloc: Global, a: &[u8], words: &[&[u8]]) -> Result<Row, ReadError>
    requires { 1 ≤ length words.now }
    ensures { Gives result (parsed k.Words (a.now ∷ map (λ x. x.now) words.now)) }
{
    let Some(start) = hex_word(a) else {
        return Err(ReadError::Line(LineKind::Field));
    };
    if words.len() > 64 {
        return Err(ReadError::Line(LineKind::Field));
    }
    match words_of(alloc, words) {
        Ok(words) => without_memory(words_value(start, words)),
        Err(error) => Err(error),
    }
}

#[tactic(auto, unfolding(crate::specs::Reading::parsed, crate::specs::Table::is_formed))]
pub(crate) fn words(alloc: Global, others: &[&[u8]]) -> Result<Row, ReadError>
    ensures { Gives result (parsed k.Words (map (λ x. x.now) others.now)) }
{
    match others {
        [a, words @ ..] if !words.is_empty() => words_after(alloc, a, words),
        _ => Err(ReadError::Line(LineKind::Field)),
    }
}
