// The addresses of code by rising address, and what stands there.
ghost use Rattle.std.specs.Prelude.{◌≡◌, ◌+◌, ◌*◌, ◌/◌, ◌^◌, ◌≤◌, ◌<◌, ◌++◌, IfOk, OnOk, length, map};
ghost use Rattle.std.specs.List.Sorted.{IsStrictlyIncreasing};
ghost use Rattle.flow_graph.specs.Code.{IsCode};
ghost use Rattle.flow_graph.specs.Table.{AreLines, IsTable, IsFound, HaveWords, lines_of, lines_upto};

use mips_isa::{Instr, decode};
use std::alloc::{AllocError, Global};
use visa_io::{Code, Span};

/// An address of code, and its instruction; `None` where its word is reserved.
#[derive(Clone, Copy, Debug)]
pub(crate) struct Line {
    pub(crate) at: u32,
    pub(crate) instr: Option<Instr>,
}

/// The addresses of code, rising, and their instructions beside them.
#[derive(Debug, Drop)]
pub(crate) struct Table {
    pub(crate) addresses: Vec<u32>,
    pub(crate) instrs: Vec<Option<Instr>>,
}

impl Table {
    /// The table of a code.
    pub(crate) fn new(alloc: Global, code: &Code) -> Result<Table, AllocError>
        requires { IsCode code.now }
        ensures { IfOk result (IsTable code.now) }
    {
        let lines = lines_by_address(alloc, code)?;
        Ok(Table {
            addresses: addresses_of(alloc, &lines)?,
            instrs: instrs_of(alloc, &lines)?,
        })
    }
}

fn addresses_of(alloc: Global, lines: &[Line]) -> Result<Vec<u32>, AllocError>
    ensures { IfOk result (λ addresses. addresses.items ≡ map (λ line. line.at) lines.now) }
{
    let mut addresses = Vec::new(alloc);
    for line in lines {
        addresses.push(line.at)?;
    }
    Ok(addresses)
}

fn instrs_of(alloc: Global, lines: &[Line]) -> Result<Vec<Option<Instr>>, AllocError>
    ensures { IfOk result (λ instrs. instrs.items ≡ map (λ line. line.instr) lines.now) }
{
    let mut instrs = Vec::new(alloc);
    for line in lines {
        instrs.push(line.instr)?;
    }
    Ok(instrs)
}

fn lines_by_address(alloc: Global, code: &Code) -> Result<Vec<Line>, AllocError>
    requires { IsCode code.now }
    ensures { IfOk result (λ lines. AreLines code.now lines.items) }
{
    let mut lines = lines(alloc, code.spans.as_slice(), code.words.as_slice())?;
    lines.sort_by_key(|line| line.at)?;
    Ok(lines)
}

// The lines of spans, in the order of the spans.
fn lines(alloc: Global, spans: &[Span], words: &[u32]) -> Result<Vec<Line>, AllocError>
    requires { HaveWords spans.now (length words.now) }
    ensures { IfOk result (λ lines. lines.items ≡ lines_of spans.now words.now) }
{
    let mut lines = Vec::new(alloc);
    let mut rest = words;
    for span in spans {
        let count = span.len as usize / 4;
        push_lines(&mut lines, span.start, rest, count)?;
        let (_, others) = rest.split_at(count);
        rest = others;
    }
    Ok(lines)
}

#[tactic(auto, unfolding(crate::specs::Table::lines_upto))]
// The lines of a span, which has the first `count` words.
fn push_lines(
    lines: &mut Vec<Line>,
    start: u32,
    words: &[u32],
    count: usize,
) -> Result<(), AllocError>
    requires words { count ≤ length words.now }
    requires ends { start + 4 * count ≤ 2 ^ 32 }
    ensures { OnOk result (lines.new.items ≡ lines.old.items ++ lines_upto start words.now count) }
{
    for k in 0..count {
        lines.push(Line {
            at: start + 4 * k as u32,
            instr: decode(words[k]),
        })?;
    }
    Ok(())
}

/// The place of an address.
pub(crate) fn find(addresses: &[u32], at: u64) -> Option<usize>
    requires { IsStrictlyIncreasing addresses.now }
    ensures { IsFound addresses.now at result }
{
    let Ok(at) = u32::try_from(at) else {
        return None;
    };
    match addresses.binary_search(&at) {
        Ok(place) => Some(place),
        Err(_) => None,
    }
}
