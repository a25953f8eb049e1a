// Lines on loops and register facts.
ghost use Rattle.std.specs.Prelude.{◌≡◌, ◌∷◌, [], true, Some, None, cond, nat_le, nat_lt, ◌+◌, ◌*◌, ◌^◌, map, codes, length, IfOk, ◌<◌, ◌≤◌};
ghost use Rattle.text_fields.specs.Numbers.{is_number, is_signed_number, is_signed_word, saturated};
ghost use Rattle.std.specs.Prelude.{Err};
ghost use Rattle.task_text.specs.declared.fault.LineKind.TheVariants.{Field};
ghost use Rattle.task_text.specs.declared.row.Keyword.TheVariants as k;
ghost use Rattle.task_text.specs.declared.row.Row.TheVariants as row;
ghost use Rattle.task_text.specs.Reading.{parsed, valued, limited};
ghost use Rattle.std.specs.Prelude.{ℤ, int_le, unsigned_abs, ◌-ℤ◌, ◌&&◌, ◌%◌, nat_eq};
ghost use Rattle.task_text.specs.Table.{is_strided as is_strided_lem};

use crate::fault::LineKind;
use crate::limits::word_in;
use crate::row::Row;
use text_fields::{hex_word, number, signed_number};
use visa_io::{FactLine, Region};

// A loop of these addresses, its greatest count and its register.
#[tactic(auto, unfolding(crate::specs::Table::in_limits))]
fn loop_value(first: u32, last: u32, header: u32, n: u64, r: u64) -> Result<Row, LineKind>
    ensures { result ≡ valued (limited (Some (row.Loop (record { first = first; last = last; header = header; count = n; counter = r })))) }
{
    let Some(count) = word_in(n, 1, u32::MAX) else {
        return Err(LineKind::Value)
    };
    let Some(counter) = word_in(r, 1, 31) else {
        return Err(LineKind::Value)
    };
    Ok(Row::Loop(Region {
        first,
        last,
        header,
        count,
        counter: counter as u8,
    }))
}

#[tactic(auto, unfolding(crate::specs::Reading::parsed, crate::specs::Reading::row_of, crate::specs::Table::is_formed))]
fn loop_of(a: &[u8], b: &[u8], c: &[u8], n: &[u8], r: &[u8]) -> Result<Row, LineKind>
    ensures { result ≡ parsed k.Loop (a.now ∷ b.now ∷ c.now ∷ n.now ∷ r.now ∷ []) }
{
    let Some(first) = hex_word(a) else {
        return Err(LineKind::Field);
    };
    let Some(last) = hex_word(b) else {
        return Err(LineKind::Field);
    };
    let Some(header) = hex_word(c) else {
        return Err(LineKind::Field);
    };
    let Some(count) = number(n) else {
        return Err(LineKind::Field);
    };
    let Some(counter) = number(r) else {
        return Err(LineKind::Field);
    };
    loop_value(first, last, header, count, counter)
}

#[tactic(auto, unfolding(crate::specs::Reading::parsed, crate::specs::Table::is_formed))]
pub(crate) fn region(others: &[&[u8]]) -> Result<Row, LineKind>
    ensures { result ≡ parsed k.Loop (map (λ x. x.now) others.now) }
{
    match others {
        [a, b, c, n, r] => loop_of(a, b, c, n, r),
        _ => Err(LineKind::Field),
    }
}

// Whether the stride, which isn't 0, divides the distance of two numbers, and is 1 where they are one.
fn divides(lo: i64, hi: i64, stride: u32) -> bool
    requires { 1 ≤ stride }
    ensures { result ≡ cond (int_le hi lo) (nat_eq stride 1) (nat_eq (unsigned_abs (hi -ℤ lo) % stride) 0) }
{
    if hi <= lo {
        stride == 1
    } else {
        hi.abs_diff(lo) % u64::from(stride) == 0
    }
}

#[tactic(auto, unfolding(crate::specs::Table::is_strided))]
fn is_strided(lo: i64, hi: i64, stride: u32) -> bool
    ensures { result ≡ is_strided_lem lo hi stride }
{
    lo <= hi && (1 <= stride && divides(lo, hi, stride))
}

// A number that is one of a signed word.
#[tactic(auto, unfolding(text_fields::specs::Numbers::is_signed_word))]
fn signed_word(z: i128) -> Option<i64>
    ensures { result ≡ cond (is_signed_word z) (Some z) None }
{
    if -0x8000_0000 <= z && z <= 0x7fff_ffff {
        Some(z as i64)
    } else {
        None
    }
}

#[tactic(auto, unfolding(crate::specs::Table::in_limits))]
fn fact_value(at: u32, r: u64, l: i128, h: i128, s: u64) -> Result<Row, LineKind>
    ensures { result ≡ valued (limited (Some (row.Fact (record { at = at; register = r; lo = l; hi = h; stride = s })))) }
{
    let Some(register) = word_in(r, 1, 31) else {
        return Err(LineKind::Value)
    };
    let Some(lo) = signed_word(l) else {
        return Err(LineKind::Value)
    };
    let Some(hi) = signed_word(h) else {
        return Err(LineKind::Value)
    };
    let Some(stride) = word_in(s, 0, u32::MAX) else {
        return Err(LineKind::Value)
    };
    if is_strided(lo, hi, stride) {
        Ok(Row::Fact(FactLine {
            at,
            register: register as u8,
            lo,
            hi,
            stride,
        }))
    } else {
        Err(LineKind::Value)
    }
}

// Whether a number may stand in a field, by its form.
#[tactic(auto, using(text_fields::proofs::Digits::signed_of_number))]
fn is_signed(field: &[u8]) -> bool
    ensures { result ≡ is_signed_number field.now }
{
    signed_number(field).is_some()
}

// A fact whose register and stride are numbers without a sign.
#[tactic(auto, using(text_fields::proofs::Digits::signed_of_number))]
fn fact_numbers(at: u32, r: &[u8], l: i128, h: i128, s: &[u8]) -> Result<Row, LineKind>
    ensures { result ≡ cond (is_signed_number r.now && is_signed_number s.now)
        (valued (limited (cond (is_number r.now && is_number s.now) (Some (row.Fact (record { at = at; register = saturated r.now; lo = l; hi = h; stride = saturated s.now }))) None)))
        (Err Field) }
{
    match (number(r), number(s)) {
        (Some(register), Some(stride)) => fact_value(at, register, l, h, stride),
        _ => if is_signed(r) && is_signed(s) {
            Err(LineKind::Value)
        } else {
            Err(LineKind::Field)
        },
    }
}

#[tactic(auto, unfolding(crate::specs::Reading::parsed, crate::specs::Reading::row_of, crate::specs::Table::is_formed))]
fn fact_of(a: &[u8], r: &[u8], l: &[u8], h: &[u8], s: &[u8]) -> Result<Row, LineKind>
    ensures { result ≡ parsed k.Fact (a.now ∷ r.now ∷ l.now ∷ h.now ∷ s.now ∷ []) }
{
    let Some(at) = hex_word(a) else {
        return Err(LineKind::Field);
    };
    let Some(lo) = signed_number(l) else {
        return Err(LineKind::Field);
    };
    let Some(hi) = signed_number(h) else {
        return Err(LineKind::Field);
    };
    fact_numbers(at, r, lo, hi, s)
}

#[tactic(auto, unfolding(crate::specs::Reading::parsed, crate::specs::Table::is_formed))]
pub(crate) fn fact(others: &[&[u8]]) -> Result<Row, LineKind>
    ensures { result ≡ parsed k.Fact (map (λ x. x.now) others.now) }
{
    match others {
        [a, r, l, h, s] => fact_of(a, r, l, h, s),
        _ => Err(LineKind::Field),
    }
}
