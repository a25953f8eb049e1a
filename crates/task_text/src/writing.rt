// Lines of a task text are written.
ghost use Rattle.std.specs.Prelude.{◌≡◌, ◌++◌, ◌∷◌, [], map, OnOk};
ghost use Rattle.std.specs.List.{flat_map};
ghost use Rattle.text_fields.specs.Lines.{line, space};
ghost use Rattle.task_text.specs.declared.row.Keyword.TheVariants as k;
ghost use Rattle.task_text.specs.declared.row.Row.TheVariants as row;
ghost use Rattle.task_text.specs.Table.{name, shape_values, entry_value};
ghost use Rattle.task_text.specs.Writing.{value_text, line_text, values_text, words_text, row_text, extent};

use crate::keyword::name_of;
use crate::row::Keyword;
use std::alloc::AllocError;
use text_fields::{push_decimal, push_hex, push_signed};
use visa_io::{FactLine, Machine, Region, Shape, Span};

// A value of a line.
#[derive(Clone, Copy)]
pub(crate) enum Value<'a> {
    Decimal(u64),
    Hex(u32),
    Signed(i64),
    Text(&'a [u8]),
}

// Appends a space and a value.
fn push_value(out: &mut Vec<u8>, v: Value) -> Result<(), AllocError>
    ensures { OnOk result (out.new.items ≡ out.old.items ++ (space ∷ value_text v.entry)) }
{
    out.push(b' ')?;
    match v {
        Value::Decimal(n) => push_decimal(out, n),
        Value::Hex(n) => push_hex(out, n),
        Value::Signed(z) => push_signed(out, z),
        Value::Text(x) => out.extend_from_slice(x),
    }
}

// Appends values, each after a space.
fn push_values(out: &mut Vec<u8>, values: &[Value]) -> Result<(), AllocError>
    ensures { OnOk result (out.new.items ≡ out.old.items ++ values_text values.now) }
{
    for v in values {
        push_value(out, *v)?;
    }
    Ok(())
}

// Appends a line's feed.
fn end_line(out: &mut Vec<u8>) -> Result<(), AllocError>
    ensures { OnOk result (out.new.items ≡ line out.old.items) }
{
    out.push(b'\n')?;
    Ok(())
}

// Appends a line.
fn push_line(out: &mut Vec<u8>, key: Keyword, values: &[Value]) -> Result<(), AllocError>
    ensures { OnOk result (out.new.items ≡ out.old.items ++ line_text key (map value_text values.now)) }
{
    out.extend_from_slice(name_of(key))?;
    push_values(out, values)?;
    end_line(out)
}

pub(crate) fn push_version(out: &mut Vec<u8>) -> Result<(), AllocError>
    ensures { OnOk result (out.new.items ≡ out.old.items ++ row_text row.Version) }
{
    push_line(out, Keyword::Version, &[Value::Text(b"1")])
}

pub(crate) fn push_order(out: &mut Vec<u8>, big: bool) -> Result<(), AllocError>
    ensures { OnOk result (out.new.items ≡ out.old.items ++ row_text (row.Order big)) }
{
    if big {
        push_line(out, Keyword::Order, &[Value::Text(b"big")])
    } else {
        push_line(out, Keyword::Order, &[Value::Text(b"little")])
    }
}

pub(crate) fn push_core(out: &mut Vec<u8>, m: Machine) -> Result<(), AllocError>
    ensures { OnOk result (out.new.items ≡ out.old.items ++ row_text (row.Core (record { width = m.width; rob = m.rob; mul = m.mul; div = m.div }))) }
{
    push_line(
        out,
        Keyword::Core,
        &[
            Value::Decimal(u64::from(m.width)),
            Value::Decimal(u64::from(m.rob)),
            Value::Decimal(u64::from(m.mul)),
            Value::Decimal(u64::from(m.div)),
        ],
    )
}

pub(crate) fn push_memory(out: &mut Vec<u8>, m: Machine) -> Result<(), AllocError>
    ensures { OnOk result (out.new.items ≡ out.old.items ++ row_text (row.Memory (record { mem_ps = m.mem_ps; store_ps = m.store_ps; settle_ps = m.settle_ps; start_ps = m.start_ps }))) }
{
    push_line(
        out,
        Keyword::Memory,
        &[
            Value::Decimal(m.mem_ps),
            Value::Decimal(m.store_ps),
            Value::Decimal(m.settle_ps),
            Value::Decimal(m.start_ps),
        ],
    )
}

pub(crate) fn push_shape(
    out: &mut Vec<u8>,
    key: Keyword,
    shape: Option<Shape>,
) -> Result<(), AllocError>
    ensures { OnOk result (out.new.items ≡ out.old.items ++ line_text key (shape_values shape)) }
{
    match shape {
        None => push_line(out, key, &[Value::Text(b"none")]),
        Some(s) => push_line(
            out,
            key,
            &[
                Value::Decimal(u64::from(s.sets)),
                Value::Decimal(u64::from(s.ways)),
                Value::Decimal(u64::from(s.line)),
            ],
        ),
    }
}

pub(crate) fn push_points(out: &mut Vec<u8>, points: &[u64]) -> Result<(), AllocError>
    ensures { OnOk result (out.new.items ≡ out.old.items ++ flat_map (λ p. row_text (row.Point p)) points.now) }
{
    for p in points {
        push_line(out, Keyword::Point, &[Value::Decimal(*p)])?;
    }
    Ok(())
}

pub(crate) fn push_time(
    out: &mut Vec<u8>,
    period_ps: u64,
    deadline_ps: u64,
) -> Result<(), AllocError>
    ensures { OnOk result (out.new.items ≡ out.old.items ++ row_text (row.Time (record { period_ps = period_ps; deadline_ps = deadline_ps }))) }
{
    push_line(
        out,
        Keyword::Time,
        &[Value::Decimal(period_ps), Value::Decimal(deadline_ps)],
    )
}

pub(crate) fn push_image(out: &mut Vec<u8>, image: &[u8]) -> Result<(), AllocError>
    ensures { OnOk result (out.new.items ≡ out.old.items ++ row_text (row.Image image.now)) }
{
    push_line(out, Keyword::Image, &[Value::Text(image)])
}

// Appends words, each after a space.
fn push_hex_words(out: &mut Vec<u8>, words: &[u32]) -> Result<(), AllocError>
    ensures { OnOk result (out.new.items ≡ out.old.items ++ words_text words.now) }
{
    for w in words {
        push_value(out, Value::Hex(*w))?;
    }
    Ok(())
}

pub(crate) fn push_words(out: &mut Vec<u8>, start: u32, words: &[u32]) -> Result<(), AllocError>
    ensures { OnOk result (out.new.items ≡ out.old.items ++ row_text (row.Words (record { start = start; words = words.now }))) }
{
    out.extend_from_slice(name_of(Keyword::Words))?;
    push_value(out, Value::Hex(start))?;
    push_hex_words(out, words)?;
    end_line(out)
}

pub(crate) fn push_entry(out: &mut Vec<u8>, entry: Option<u32>) -> Result<(), AllocError>
    ensures { OnOk result (out.new.items ≡ out.old.items ++ row_text (row.Entry entry)) }
{
    match entry {
        None => push_line(out, Keyword::Entry, &[Value::Text(b"-")]),
        Some(a) => push_line(out, Keyword::Entry, &[Value::Hex(a)]),
    }
}

pub(crate) fn push_stack(out: &mut Vec<u8>, a: u32) -> Result<(), AllocError>
    ensures { OnOk result (out.new.items ≡ out.old.items ++ row_text (row.Stack a)) }
{
    push_line(out, Keyword::Stack, &[Value::Hex(a)])
}

pub(crate) fn push_ram(out: &mut Vec<u8>, spans: &[Span]) -> Result<(), AllocError>
    ensures { OnOk result (out.new.items ≡ out.old.items ++ flat_map (λ s. row_text (row.Ram (extent s))) spans.now) }
{
    for s in spans {
        push_line(
            out,
            Keyword::Ram,
            &[Value::Hex(s.start), Value::Decimal(u64::from(s.len))],
        )?;
    }
    Ok(())
}

pub(crate) fn push_input(out: &mut Vec<u8>, start: u32, len: u32) -> Result<(), AllocError>
    ensures { OnOk result (out.new.items ≡ out.old.items ++ row_text (row.Input (record { start = start; len = len }))) }
{
    push_line(
        out,
        Keyword::Input,
        &[Value::Hex(start), Value::Decimal(u64::from(len))],
    )
}

pub(crate) fn push_output(out: &mut Vec<u8>, most: u32) -> Result<(), AllocError>
    ensures { OnOk result (out.new.items ≡ out.old.items ++ row_text (row.Output most)) }
{
    push_line(out, Keyword::Output, &[Value::Decimal(u64::from(most))])
}

pub(crate) fn push_show(out: &mut Vec<u8>, spans: &[Span]) -> Result<(), AllocError>
    ensures { OnOk result (out.new.items ≡ out.old.items ++ flat_map (λ s. row_text (row.Show (extent s))) spans.now) }
{
    for s in spans {
        push_line(
            out,
            Keyword::Show,
            &[Value::Hex(s.start), Value::Decimal(u64::from(s.len))],
        )?;
    }
    Ok(())
}

pub(crate) fn push_cuts(out: &mut Vec<u8>, cuts: &[u32]) -> Result<(), AllocError>
    ensures { OnOk result (out.new.items ≡ out.old.items ++ flat_map (λ a. row_text (row.Cut a)) cuts.now) }
{
    for a in cuts {
        push_line(out, Keyword::Cut, &[Value::Hex(*a)])?;
    }
    Ok(())
}

pub(crate) fn push_regions(out: &mut Vec<u8>, regions: &[Region]) -> Result<(), AllocError>
    ensures { OnOk result (out.new.items ≡ out.old.items ++ flat_map (λ r. row_text (row.Loop r)) regions.now) }
{
    for r in regions {
        push_line(
            out,
            Keyword::Loop,
            &[
                Value::Hex(r.first),
                Value::Hex(r.last),
                Value::Hex(r.header),
                Value::Decimal(u64::from(r.count)),
                Value::Decimal(u64::from(r.counter)),
            ],
        )?;
    }
    Ok(())
}

fn push_fact(out: &mut Vec<u8>, f: &FactLine) -> Result<(), AllocError>
    ensures { OnOk result (out.new.items ≡ out.old.items ++ row_text (row.Fact f.now)) }
{
    let register = u64::from(f.register);
    let stride = u64::from(f.stride);
    push_line(
        out,
        Keyword::Fact,
        &[
            Value::Hex(f.at),
            Value::Decimal(register),
            Value::Signed(f.lo),
            Value::Signed(f.hi),
            Value::Decimal(stride),
        ],
    )
}

pub(crate) fn push_facts(out: &mut Vec<u8>, facts: &[FactLine]) -> Result<(), AllocError>
    ensures { OnOk result (out.new.items ≡ out.old.items ++ flat_map (λ f. row_text (row.Fact f)) facts.now) }
{
    for f in facts {
        push_fact(out, f)?;
    }
    Ok(())
}
