// Lines on addresses: entry, stack, ram, input, output, show and cuts.
ghost use Rattle.std.specs.Prelude.{◌≡◌, ◌∷◌, [], true, Some, None, cond, nat_le, nat_lt, ◌+◌, ◌*◌, ◌^◌, map, codes, length, IfOk, ◌<◌, ◌≤◌};
ghost use Rattle.task_text.specs.declared.row.Keyword.TheVariants as k;
ghost use Rattle.task_text.specs.declared.row.Row.TheVariants as row;
ghost use Rattle.task_text.specs.Reading.{parsed, valued, limited};
ghost use Rattle.std.specs.Str.{bytes_eq};
ghost use Rattle.task_text.specs.Table.{ends_in_time as ends_in_time_lem};
ghost use Rattle.task_text.specs.Reading.{entry_of as entry_of_lem};

use crate::fault::LineKind;
use crate::limits::{number_in, word_in};
use crate::row::{Extent, Row};
use text_fields::{hex_word, number};

// Whether a range ends at 2^32 or before.
fn ends_in_time(start: u32, len: u32) -> bool
    ensures { result ≡ ends_in_time_lem start len }
{
    u64::from(start) + u64::from(len) <= 1 << 32
}

fn is_dash(a: &[u8]) -> bool
    ensures { result ≡ bytes_eq a.now (codes "-") }
{
    a == b"-".as_slice()
}

#[tactic(auto, unfolding(crate::specs::Reading::parsed, crate::specs::Reading::row_of, crate::specs::Table::is_formed, crate::specs::Reading::entry_of, crate::specs::Table::in_limits))]
fn entry_of(a: &[u8]) -> Result<Row, LineKind>
    ensures { result ≡ parsed k.Entry (a.now ∷ []) }
{
    if is_dash(a) {
        return Ok(Row::Entry(None));
    }
    match hex_word(a) {
        Some(a) => Ok(Row::Entry(Some(a))),
        None => Err(LineKind::Field),
    }
}

#[tactic(auto, unfolding(crate::specs::Reading::parsed, crate::specs::Table::is_formed))]
pub(crate) fn entry(others: &[&[u8]]) -> Result<Row, LineKind>
    ensures { result ≡ parsed k.Entry (map (λ x. x.now) others.now) }
{
    match others {
        [a] => entry_of(a),
        _ => Err(LineKind::Field),
    }
}

#[tactic(auto, unfolding(crate::specs::Reading::parsed, crate::specs::Reading::row_of, crate::specs::Table::is_formed, crate::specs::Table::in_limits))]
fn stack_of(a: &[u8]) -> Result<Row, LineKind>
    ensures { result ≡ parsed k.Stack (a.now ∷ []) }
{
    match hex_word(a) {
        Some(a) => Ok(Row::Stack(a)),
        None => Err(LineKind::Field),
    }
}

#[tactic(auto, unfolding(crate::specs::Reading::parsed, crate::specs::Table::is_formed))]
pub(crate) fn stack(others: &[&[u8]]) -> Result<Row, LineKind>
    ensures { result ≡ parsed k.Stack (map (λ x. x.now) others.now) }
{
    match others {
        [a] => stack_of(a),
        _ => Err(LineKind::Field),
    }
}

#[tactic(auto, unfolding(crate::specs::Reading::parsed, crate::specs::Reading::row_of, crate::specs::Table::is_formed, crate::specs::Table::in_limits))]
fn cut_of(a: &[u8]) -> Result<Row, LineKind>
    ensures { result ≡ parsed k.Cut (a.now ∷ []) }
{
    match hex_word(a) {
        Some(a) => Ok(Row::Cut(a)),
        None => Err(LineKind::Field),
    }
}

#[tactic(auto, unfolding(crate::specs::Reading::parsed, crate::specs::Table::is_formed))]
pub(crate) fn cut(others: &[&[u8]]) -> Result<Row, LineKind>
    ensures { result ≡ parsed k.Cut (map (λ x. x.now) others.now) }
{
    match others {
        [a] => cut_of(a),
        _ => Err(LineKind::Field),
    }
}

#[tactic(auto, unfolding(crate::specs::Table::in_limits))]
fn ram_value(start: u32, n: u64) -> Result<Row, LineKind>
    ensures { result ≡ valued (limited (Some (row.Ram (record { start = start; len = n })))) }
{
    let Some(len) = word_in(n, 1, u32::MAX) else {
        return Err(LineKind::Value)
    };
    if ends_in_time(start, len) {
        Ok(Row::Ram(Extent { start, len }))
    } else {
        Err(LineKind::Value)
    }
}

#[tactic(auto, unfolding(crate::specs::Reading::parsed, crate::specs::Reading::row_of, crate::specs::Table::is_formed))]
fn ram_of(a: &[u8], n: &[u8]) -> Result<Row, LineKind>
    ensures { result ≡ parsed k.Ram (a.now ∷ n.now ∷ []) }
{
    let Some(start) = hex_word(a) else {
        return Err(LineKind::Field);
    };
    let Some(len) = number(n) else {
        return Err(LineKind::Field);
    };
    ram_value(start, len)
}

#[tactic(auto, unfolding(crate::specs::Reading::parsed, crate::specs::Table::is_formed))]
pub(crate) fn ram(others: &[&[u8]]) -> Result<Row, LineKind>
    ensures { result ≡ parsed k.Ram (map (λ x. x.now) others.now) }
{
    match others {
        [a, n] => ram_of(a, n),
        _ => Err(LineKind::Field),
    }
}

#[tactic(auto, unfolding(crate::specs::Table::in_limits))]
fn input_value(start: u32, n: u64) -> Result<Row, LineKind>
    ensures { result ≡ valued (limited (Some (row.Input (record { start = start; len = n })))) }
{
    let Some(len) = word_in(n, 0, 65_536) else {
        return Err(LineKind::Value)
    };
    if ends_in_time(start, len) {
        Ok(Row::Input(Extent { start, len }))
    } else {
        Err(LineKind::Value)
    }
}

#[tactic(auto, unfolding(crate::specs::Reading::parsed, crate::specs::Reading::row_of, crate::specs::Table::is_formed))]
fn input_of(a: &[u8], n: &[u8]) -> Result<Row, LineKind>
    ensures { result ≡ parsed k.Input (a.now ∷ n.now ∷ []) }
{
    let Some(start) = hex_word(a) else {
        return Err(LineKind::Field);
    };
    let Some(len) = number(n) else {
        return Err(LineKind::Field);
    };
    input_value(start, len)
}

#[tactic(auto, unfolding(crate::specs::Reading::parsed, crate::specs::Table::is_formed))]
pub(crate) fn input(others: &[&[u8]]) -> Result<Row, LineKind>
    ensures { result ≡ parsed k.Input (map (λ x. x.now) others.now) }
{
    match others {
        [a, n] => input_of(a, n),
        _ => Err(LineKind::Field),
    }
}

#[tactic(auto, unfolding(crate::specs::Table::in_limits))]
fn show_value(start: u32, n: u64) -> Result<Row, LineKind>
    ensures { result ≡ valued (limited (Some (row.Show (record { start = start; len = n })))) }
{
    let Some(len) = word_in(n, 1, 256) else {
        return Err(LineKind::Value)
    };
    if ends_in_time(start, len) {
        Ok(Row::Show(Extent { start, len }))
    } else {
        Err(LineKind::Value)
    }
}

#[tactic(auto, unfolding(crate::specs::Reading::parsed, crate::specs::Reading::row_of, crate::specs::Table::is_formed))]
fn show_of(a: &[u8], n: &[u8]) -> Result<Row, LineKind>
    ensures { result ≡ parsed k.Show (a.now ∷ n.now ∷ []) }
{
    let Some(start) = hex_word(a) else {
        return Err(LineKind::Field);
    };
    let Some(len) = number(n) else {
        return Err(LineKind::Field);
    };
    show_value(start, len)
}

#[tactic(auto, unfolding(crate::specs::Reading::parsed, crate::specs::Table::is_formed))]
pub(crate) fn show(others: &[&[u8]]) -> Result<Row, LineKind>
    ensures { result ≡ parsed k.Show (map (λ x. x.now) others.now) }
{
    match others {
        [a, n] => show_of(a, n),
        _ => Err(LineKind::Field),
    }
}

#[tactic(auto, unfolding(crate::specs::Table::in_limits))]
fn output_value(n: u64) -> Result<Row, LineKind>
    ensures { result ≡ valued (limited (Some (row.Output n))) }
{
    match word_in(n, 1, 65_536) {
        Some(most) => Ok(Row::Output(most)),
        None => Err(LineKind::Value),
    }
}

#[tactic(auto, unfolding(crate::specs::Reading::parsed, crate::specs::Reading::row_of, crate::specs::Table::is_formed))]
fn output_of(n: &[u8]) -> Result<Row, LineKind>
    ensures { result ≡ parsed k.Output (n.now ∷ []) }
{
    match number(n) {
        Some(n) => output_value(n),
        None => Err(LineKind::Field),
    }
}

#[tactic(auto, unfolding(crate::specs::Reading::parsed, crate::specs::Table::is_formed))]
pub(crate) fn output(others: &[&[u8]]) -> Result<Row, LineKind>
    ensures { result ≡ parsed k.Output (map (λ x. x.now) others.now) }
{
    match others {
        [n] => output_of(n),
        _ => Err(LineKind::Field),
    }
}
