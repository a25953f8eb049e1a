// Lines on the machine: the version, the byte order, the cores, memory, caches, points and times.
ghost use Rattle.std.specs.Prelude.{◌≡◌, true, cond, nat_eq, ℤ, Some, None, Result, Ok, Err, [], ◌∷◌, map, codes, Option};
ghost use Rattle.std.specs.Str.{bytes_eq};
ghost use Rattle.std.specs.List.{list_any};
ghost use Rattle.task_text.specs.declared.row.Keyword.TheVariants as k;
ghost use Rattle.task_text.specs.declared.row.Row.TheVariants as row;
ghost use Rattle.task_text.specs.Table.{is_size as is_size_lem, is_shape_text};
ghost use Rattle.task_text.specs.Reading.{parsed, valued, limited, shape_limited, shape_parsed, shape_of};

use crate::fault::LineKind;
use crate::limits::{is_shape, is_width, number_in, word_in};
use crate::row::{CoreRow, MemoryRow, Row, TimeRow};
use text_fields::number;
use visa_io::Shape;

#[tactic(auto, unfolding(crate::specs::Table::in_limits))]
fn version_value(v: u64) -> Result<Row, LineKind>
    ensures { result ≡ valued (limited (cond (nat_eq v 1) (Some row.Version) None)) }
{
    if v == 1 {
        Ok(Row::Version)
    } else {
        Err(LineKind::Value)
    }
}

#[tactic(auto, unfolding(crate::specs::Reading::parsed, crate::specs::Reading::row_of, crate::specs::Table::is_formed))]
fn version_of(v: &[u8]) -> Result<Row, LineKind>
    ensures { result ≡ parsed k.Version (v.now ∷ []) }
{
    match number(v) {
        Some(v) => version_value(v),
        None => Err(LineKind::Field),
    }
}

#[tactic(auto, unfolding(crate::specs::Reading::parsed, crate::specs::Table::is_formed))]
pub(crate) fn version(others: &[&[u8]]) -> Result<Row, LineKind>
    ensures { result ≡ parsed k.Version (map (λ x. x.now) others.now) }
{
    match others {
        [v] => version_of(v),
        _ => Err(LineKind::Field),
    }
}

fn is_big(o: &[u8]) -> bool
    ensures { result ≡ bytes_eq o.now (codes "big") }
{
    o == b"big".as_slice()
}

fn is_little(o: &[u8]) -> bool
    ensures { result ≡ bytes_eq o.now (codes "little") }
{
    o == b"little".as_slice()
}

#[tactic(auto, unfolding(crate::specs::Reading::parsed, crate::specs::Reading::row_of, crate::specs::Table::is_formed, crate::specs::Table::in_limits))]
fn order_of(o: &[u8]) -> Result<Row, LineKind>
    ensures { result ≡ parsed k.Order (o.now ∷ []) }
{
    if is_big(o) || is_little(o) {
        Ok(Row::Order(is_big(o)))
    } else {
        Err(LineKind::Field)
    }
}

#[tactic(auto, unfolding(crate::specs::Reading::parsed, crate::specs::Table::is_formed))]
pub(crate) fn order(others: &[&[u8]]) -> Result<Row, LineKind>
    ensures { result ≡ parsed k.Order (map (λ x. x.now) others.now) }
{
    match others {
        [o] => order_of(o),
        _ => Err(LineKind::Field),
    }
}

fn width(n: u64) -> Option<u32>
    ensures { result ≡ cond (list_any (λ x. nat_eq n x) (1 ∷ 2 ∷ 4 ∷ [])) (Some n) None }
{
    match word_in(n, 0, 4) {
        Some(n) => if is_width(n) { Some(n) } else { None },
        None => None,
    }
}

#[tactic(auto, unfolding(crate::specs::Table::in_limits))]
fn core_value(a: u64, b: u64, c: u64, d: u64) -> Result<Row, LineKind>
    ensures { result ≡ valued (limited (Some (row.Core (record { width = a; rob = b; mul = c; div = d })))) }
{
    let Some(width) = width(a) else {
        return Err(LineKind::Value)
    };
    let Some(rob) = word_in(b, 8, 128) else {
        return Err(LineKind::Value)
    };
    let Some(mul) = word_in(c, 1, 32) else {
        return Err(LineKind::Value)
    };
    let Some(div) = word_in(d, 1, 64) else {
        return Err(LineKind::Value)
    };
    Ok(Row::Core(CoreRow {
        width,
        rob,
        mul,
        div,
    }))
}

#[tactic(auto, unfolding(crate::specs::Reading::parsed, crate::specs::Reading::row_of, crate::specs::Table::is_formed))]
fn core_of(a: &[u8], b: &[u8], c: &[u8], d: &[u8]) -> Result<Row, LineKind>
    ensures { result ≡ parsed k.Core (a.now ∷ b.now ∷ c.now ∷ d.now ∷ []) }
{
    let Some(a) = number(a) else {
        return Err(LineKind::Field);
    };
    let Some(b) = number(b) else {
        return Err(LineKind::Field);
    };
    let Some(c) = number(c) else {
        return Err(LineKind::Field);
    };
    let Some(d) = number(d) else {
        return Err(LineKind::Field);
    };
    core_value(a, b, c, d)
}

#[tactic(auto, unfolding(crate::specs::Reading::parsed, crate::specs::Table::is_formed))]
pub(crate) fn core(others: &[&[u8]]) -> Result<Row, LineKind>
    ensures { result ≡ parsed k.Core (map (λ x. x.now) others.now) }
{
    match others {
        [a, b, c, d] => core_of(a, b, c, d),
        _ => Err(LineKind::Field),
    }
}

#[tactic(auto, unfolding(crate::specs::Table::in_limits))]
fn memory_value(a: u64, b: u64, settle_ps: u64, start_ps: u64) -> Result<Row, LineKind>
    ensures { result ≡ valued (limited (Some (row.Memory (record { mem_ps = a; store_ps = b; settle_ps = settle_ps; start_ps = start_ps })))) }
{
    let Some(mem_ps) = number_in(a, 1, 10_000_000) else {
        return Err(LineKind::Value)
    };
    let Some(store_ps) = number_in(b, 1, 10_000_000) else {
        return Err(LineKind::Value)
    };
    if settle_ps > 1_000_000_000 || start_ps > 1_000_000_000 {
        return Err(LineKind::Value);
    }
    Ok(Row::Memory(MemoryRow {
        mem_ps,
        store_ps,
        settle_ps,
        start_ps,
    }))
}

#[tactic(auto, unfolding(crate::specs::Reading::parsed, crate::specs::Reading::row_of, crate::specs::Table::is_formed))]
fn memory_of(a: &[u8], b: &[u8], c: &[u8], d: &[u8]) -> Result<Row, LineKind>
    ensures { result ≡ parsed k.Memory (a.now ∷ b.now ∷ c.now ∷ d.now ∷ []) }
{
    let Some(a) = number(a) else {
        return Err(LineKind::Field);
    };
    let Some(b) = number(b) else {
        return Err(LineKind::Field);
    };
    let Some(c) = number(c) else {
        return Err(LineKind::Field);
    };
    let Some(d) = number(d) else {
        return Err(LineKind::Field);
    };
    memory_value(a, b, c, d)
}

#[tactic(auto, unfolding(crate::specs::Reading::parsed, crate::specs::Table::is_formed))]
pub(crate) fn memory(others: &[&[u8]]) -> Result<Row, LineKind>
    ensures { result ≡ parsed k.Memory (map (λ x. x.now) others.now) }
{
    match others {
        [a, b, c, d] => memory_of(a, b, c, d),
        _ => Err(LineKind::Field),
    }
}

#[tactic(auto, unfolding(crate::specs::Table::in_limits))]
fn point_value(p: u64) -> Result<Row, LineKind>
    ensures { result ≡ valued (limited (Some (row.Point p))) }
{
    match number_in(p, 100, 1_000_000) {
        Some(period) => Ok(Row::Point(period)),
        None => Err(LineKind::Value),
    }
}

#[tactic(auto, unfolding(crate::specs::Reading::parsed, crate::specs::Reading::row_of, crate::specs::Table::is_formed))]
fn point_of(p: &[u8]) -> Result<Row, LineKind>
    ensures { result ≡ parsed k.Point (p.now ∷ []) }
{
    match number(p) {
        Some(p) => point_value(p),
        None => Err(LineKind::Field),
    }
}

#[tactic(auto, unfolding(crate::specs::Reading::parsed, crate::specs::Table::is_formed))]
pub(crate) fn point(others: &[&[u8]]) -> Result<Row, LineKind>
    ensures { result ≡ parsed k.Point (map (λ x. x.now) others.now) }
{
    match others {
        [p] => point_of(p),
        _ => Err(LineKind::Field),
    }
}

#[tactic(auto, unfolding(crate::specs::Table::in_limits))]
fn time_value(p: u64, d: u64) -> Result<Row, LineKind>
    ensures { result ≡ valued (limited (Some (row.Time (record { period_ps = p; deadline_ps = d })))) }
{
    let Some(period_ps) = number_in(p, 1, 1_000_000_000_000) else {
        return Err(LineKind::Value)
    };
    let Some(deadline_ps) = number_in(d, 1, period_ps) else {
        return Err(LineKind::Value)
    };
    Ok(Row::Time(TimeRow {
        period_ps,
        deadline_ps,
    }))
}

#[tactic(auto, unfolding(crate::specs::Reading::parsed, crate::specs::Reading::row_of, crate::specs::Table::is_formed))]
fn time_of(p: &[u8], d: &[u8]) -> Result<Row, LineKind>
    ensures { result ≡ parsed k.Time (p.now ∷ d.now ∷ []) }
{
    let Some(p) = number(p) else {
        return Err(LineKind::Field);
    };
    let Some(d) = number(d) else {
        return Err(LineKind::Field);
    };
    time_value(p, d)
}

#[tactic(auto, unfolding(crate::specs::Reading::parsed, crate::specs::Table::is_formed))]
pub(crate) fn time(others: &[&[u8]]) -> Result<Row, LineKind>
    ensures { result ≡ parsed k.Time (map (λ x. x.now) others.now) }
{
    match others {
        [p, d] => time_of(p, d),
        _ => Err(LineKind::Field),
    }
}
