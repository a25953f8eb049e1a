// The lines of the two caches.
ghost use Rattle.std.specs.Prelude.{◌≡◌, true, cond, Some, None, Ok, Err, [], ◌∷◌, map, codes};
ghost use Rattle.std.specs.Str.{bytes_eq};
ghost use Rattle.task_text.specs.declared.row.Keyword.TheVariants as k;
ghost use Rattle.task_text.specs.Reading.{parsed, shape_limited, shape_parsed};

use crate::fault::LineKind;
use crate::limits::{is_shape, word_in};
use crate::row::Row;
use text_fields::number;
use visa_io::Shape;

fn is_none(s: &[u8]) -> bool
    ensures { result ≡ bytes_eq s.now (codes "none") }
{
    s == b"none".as_slice()
}

// One field: no cache, or a number, which is none by itself.
#[tactic(auto, unfolding(crate::specs::Reading::shape_parsed, crate::specs::Reading::shape_of, crate::specs::Table::is_shape_text, crate::specs::Table::is_size))]
fn no_shape(s: &[u8]) -> Result<Option<Shape>, LineKind>
    ensures { result ≡ shape_parsed (s.now ∷ []) }
{
    if is_none(s) {
        return Ok(None);
    }
    match number(s) {
        Some(_) => Err(LineKind::Value),
        None => Err(LineKind::Field),
    }
}

#[tactic(auto, unfolding(crate::specs::Table::is_shape))]
fn shape_value(s: u64, w: u64, l: u64) -> Result<Option<Shape>, LineKind>
    ensures { result ≡ shape_limited (Some (Some (record { sets = s; ways = w; line = l }))) }
{
    let Some(sets) = word_in(s, 0, 1024) else {
        return Err(LineKind::Value)
    };
    let Some(ways) = word_in(w, 0, 8) else {
        return Err(LineKind::Value)
    };
    let Some(line) = word_in(l, 0, 64) else {
        return Err(LineKind::Value)
    };
    if is_shape(sets, ways, line) {
        Ok(Some(Shape { sets, ways, line }))
    } else {
        Err(LineKind::Value)
    }
}

// Three fields, of which the first may be `none` in form.
#[tactic(auto, unfolding(crate::specs::Reading::shape_parsed, crate::specs::Reading::shape_of, crate::specs::Table::is_shape_text, crate::specs::Table::is_size))]
fn shape_of(s: &[u8], w: &[u8], l: &[u8]) -> Result<Option<Shape>, LineKind>
    ensures { result ≡ shape_parsed (s.now ∷ w.now ∷ l.now ∷ []) }
{
    let Some(ways) = number(w) else {
        return Err(LineKind::Field);
    };
    let Some(line) = number(l) else {
        return Err(LineKind::Field);
    };
    match number(s) {
        Some(sets) => shape_value(sets, ways, line),
        None => if is_none(s) {
            Err(LineKind::Value)
        } else {
            Err(LineKind::Field)
        },
    }
}

#[tactic(auto, unfolding(crate::specs::Reading::shape_parsed, crate::specs::Table::is_shape_text))]
fn shape(others: &[&[u8]]) -> Result<Option<Shape>, LineKind>
    ensures { result ≡ shape_parsed (map (λ x. x.now) others.now) }
{
    match others {
        [s] => no_shape(s),
        [s, w, l] => shape_of(s, w, l),
        _ => Err(LineKind::Field),
    }
}

#[tactic(auto, using(crate::proofs::Shapes::icache_ok, crate::proofs::Shapes::icache_err))]
pub(crate) fn icache(others: &[&[u8]]) -> Result<Row, LineKind>
    ensures { result ≡ parsed k.Icache (map (λ x. x.now) others.now) }
{
    match shape(others) {
        Ok(s) => Ok(Row::Icache(s)),
        Err(kind) => Err(kind),
    }
}

#[tactic(auto, using(crate::proofs::Shapes::dcache_ok, crate::proofs::Shapes::dcache_err))]
pub(crate) fn dcache(others: &[&[u8]]) -> Result<Row, LineKind>
    ensures { result ≡ parsed k.Dcache (map (λ x. x.now) others.now) }
{
    match shape(others) {
        Ok(s) => Ok(Row::Dcache(s)),
        Err(kind) => Err(kind),
    }
}
