// The units of a region: what their instructions say of its count, with the facts before them.
ghost use Rattle.std.specs.Prelude.{◌≡◌, ◌<◌, ◌≤◌, ◌+◌, ℕ, length};
ghost use Rattle.std.specs.List.Sorted.{IsStrictlyIncreasing};
ghost use Rattle.range_facts.specs.Ranges.{IsFact, unknown};
ghost use Rattle.bound_checker.specs.Input.{IsBefore, IsInput, IsTable};
ghost use Rattle.bound_checker.specs.Walk as meaning;

use crate::before::first;
use crate::gone::moved;
use crate::lost::any_word;
use crate::tally::{Tally, empty, joined, of_unit};
use crate::units::unit_at;
use flow_graph::{Graph, Unit};
use range_facts::{Along, Facts, Strided};
use std::collections::BTreeMap;
use visa_io::{Code, FactLine, Region};

// How far the units of a region are gone through: the facts before the unit of a number, what the instructions so far say, and the
// counter's fact before the header, if it is among them.
#[derive(Clone, Copy, Debug, PartialEq, Eq)]
pub(crate) struct Walked {
    pub(crate) n: usize,
    pub(crate) along: Along,
    pub(crate) tally: Tally,
    pub(crate) fact: Strided,
}

// The counter's fact before the header.
fn header_fact(region: Region, unit: Unit, a: Along, fact: Strided) -> Strided
    ensures { result ≡ meaning.header_fact region unit a fact }
{
    if unit.at == region.header {
        a.facts.fact(region.counter)
    } else {
        fact
    }
}

// Gone on over a unit.
fn over_unit(
    code: &Code,
    g: &Graph,
    lines: &[FactLine],
    table: &BTreeMap<u32, Facts>,
    region: Region,
    k: usize,
    w: Walked,
) -> Walked
    requires input { IsInput code.now g.now lines.now }
    requires table { IsTable lines.now table.now }
    requires before { IsBefore code.now g.now lines.now w.n w.along }
    requires later { w.n ≤ k }
    requires within { k < length g.now.units }
    ensures before { IsBefore code.now g.now lines.now result.n result.along }
    ensures at { result.n ≡ k }
    ensures walked { (lo : ℕ) → lo ≤ k → meaning.IsWalked code.now g.now lines.now region lo k w → meaning.IsWalked code.now g.now lines.now region lo (k + 1) result }
{
    let along = moved(code, g, lines, table, w.n, k, w.along);
    let unit = unit_at(g, k);
    Walked {
        n: k,
        along,
        tally: joined(w.tally, of_unit(region.counter, unit, along)),
        fact: header_fact(region, unit, along, w.fact),
    }
}

fn begun(code: &Code, g: &Graph, lines: &[FactLine], table: &BTreeMap<u32, Facts>) -> Walked
    requires input { IsInput code.now g.now lines.now }
    requires table { IsTable lines.now table.now }
    requires some { 0 < length g.now.units }
    ensures before { IsBefore code.now g.now lines.now 0 result.along }
    ensures is { result ≡ meaning.begun_with result.along }
{
    Walked {
        n: 0,
        along: first(code, g, lines, table),
        tally: empty(),
        fact: any_word(),
    }
}

// What the units of these numbers say.
pub(crate) fn walk(
    code: &Code,
    g: &Graph,
    lines: &[FactLine],
    table: &BTreeMap<u32, Facts>,
    region: Region,
    lo: usize,
    hi: usize,
) -> Walked
    requires input { IsInput code.now g.now lines.now }
    requires table { IsTable lines.now table.now }
    requires some { 0 < length g.now.units }
    requires order { lo ≤ hi }
    requires within { hi ≤ length g.now.units }
    ensures { meaning.IsWalked code.now g.now lines.now region lo hi result }
{
    let mut w = begun(code, g, lines, table);
    for k in lo..hi {
        w = over_unit(code, g, lines, table, region, k, w);
    }
    w
}

// The number of the first unit from an address on.
pub(crate) fn first_number(addresses: &[u32], a: u64) -> usize
    requires { IsStrictlyIncreasing addresses.now }
    ensures { meaning.IsFirstNumber addresses.now a result }
{
    addresses.partition_point(|u| u64::from(*u) < a)
}
