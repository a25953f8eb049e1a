// What the instructions of a region say of its count.
ghost use Rattle.std.specs.Prelude.{◌≡◌, ◌+◌, ◌^◌, ◌<◌};
ghost use Rattle.flow_graph.specs.Own as own;
ghost use Rattle.range_facts.specs.Ranges.{IsFact};
ghost use Rattle.range_facts.specs.Transfer.{AreFacts};
ghost use Rattle.bound_checker.specs.Tally as meaning;
ghost use Rattle.bound_checker.specs.Units.{IsSoundUnit};

use crate::ends::behind_first;
use crate::steps::{stays_fit, step_by, writes_counter};
use flow_graph::Unit;
use mips_isa::Instr;
use range_facts::{Along, Strided};

// The least address of a step upward and of one downward, the least size of a step, and the least address of another write of the
// counter and of a step that may wrap.
#[derive(Clone, Copy, Debug, PartialEq, Eq)]
pub(crate) struct Tally {
    pub(crate) up: Option<u32>,
    pub(crate) down: Option<u32>,
    pub(crate) size: Option<u32>,
    pub(crate) other: Option<u32>,
    pub(crate) wraps: Option<u32>,
}

pub(crate) fn empty() -> Tally
    ensures { result ≡ meaning.empty }
{
    Tally {
        up: None,
        down: None,
        size: None,
        other: None,
        wraps: None,
    }
}

// The less of two numbers.
pub(crate) fn lesser(a: Option<u32>, b: Option<u32>) -> Option<u32>
    ensures { result ≡ own.lesser a b }
{
    match a {
        None => b,
        Some(x) => lesser_of(x, b),
    }
}

fn lesser_of(x: u32, b: Option<u32>) -> Option<u32>
    ensures { result ≡ meaning.lesser_of x b }
{
    match b {
        None => Some(x),
        Some(y) => Some(x.min(y)),
    }
}

pub(crate) fn joined(s: Tally, t: Tally) -> Tally
    ensures { result ≡ meaning.joined s t }
{
    Tally {
        up: lesser(s.up, t.up),
        down: lesser(s.down, t.down),
        size: lesser(s.size, t.size),
        other: lesser(s.other, t.other),
        wraps: lesser(s.wraps, t.wraps),
    }
}

pub(crate) fn only_if(test: bool, at: u32) -> Option<u32>
    ensures { result ≡ meaning.only_if test at }
{
    if test { Some(at) } else { None }
}

fn of_step(at: u32, by: i32, s: Strided) -> Tally
    requires { IsFact s }
    ensures { result ≡ meaning.of_step at by s }
{
    Tally {
        up: only_if(0 < by, at),
        down: only_if(0 >= by, at),
        size: Some(by.unsigned_abs()),
        other: None,
        wraps: only_if(!stays_fit(s, by), at),
    }
}

fn of_other(at: u32, writes: bool) -> Tally
    ensures { result ≡ meaning.of_other at writes }
{
    Tally {
        up: None,
        down: None,
        size: None,
        other: only_if(writes, at),
        wraps: None,
    }
}

// Of an instruction, with the counter's fact before it.
#[tactic(auto, unfolding(crate::specs::Tally::of_instr))]
fn of_instr(c: u8, at: u32, i: Instr, s: Strided) -> Tally
    requires { IsFact s }
    ensures { result ≡ meaning.of_instr c at i s }
{
    match step_by(c, i) {
        Some(by) => of_step(at, by, s),
        None => of_other(at, writes_counter(c, i)),
    }
}

// Of a unit, with the facts before it.
#[tactic(auto, unfolding(crate::specs::Tally::of_unit))]
pub(crate) fn of_unit(c: u8, unit: Unit, a: Along) -> Tally
    requires unit { IsSoundUnit unit }
    requires facts { AreFacts a.facts }
    ensures { result ≡ meaning.of_unit c unit a }
{
    let first = of_instr(c, unit.at, unit.first, a.facts.fact(c));
    match unit.slot {
        None => first,
        Some(slot) => {
            let behind = behind_first(unit, a);
            joined(first, of_instr(c, unit.at + 4, slot, behind.facts.fact(c)))
        }
    }
}
