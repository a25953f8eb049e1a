// All edges into starts of blocks, with the facts along them.
ghost use Rattle.std.specs.Prelude.{◌≡◌, ◌<◌, ◌≤◌, ◌++◌, ◌==◌, [], ◌∷◌, Contains, List, Some, false, length, slice_index, slice_index_or, true};
ghost use Rattle.std.specs.List.{list_any};
ghost use Rattle.flow_graph.specs.Reached.{Leads, Reached};
ghost use Rattle.flow_graph.specs.declared.parts.Edge.{Edge as FlowEdge};
ghost use Rattle.range_facts.specs.Transfer.{AreFacts};
ghost use Rattle.bound_checker.specs.Gone.{AreRowsOf, IsBestOf, IsFaultOf, IsLostAlong, is_return};
ghost use Rattle.bound_checker.specs.Gone as meaning;
ghost use Rattle.bound_checker.specs.Input.{IsBefore, IsInput, IsTable};
ghost use Rattle.bound_checker.specs.Lines.{addresses_of};

use crate::before::{first, next};
use crate::ends::end_of;
use crate::lines::facts_in;
use crate::lost::{callee_of, least_lost};
use crate::masks::Masks;
use crate::place::{Lost, better, earlier_of};
use crate::units::{number_of, starts, unit_at};
use flow_graph::{Edge, EdgeKind, Graph};
use range_facts::{Along, Facts};
use std::collections::BTreeMap;
use visa_io::{Code, FactLine};

// The facts before a later unit.
pub(crate) fn moved(
    code: &Code,
    g: &Graph,
    lines: &[FactLine],
    table: &BTreeMap<u32, Facts>,
    n: usize,
    to: usize,
    a: Along,
) -> Along
    requires input { IsInput code.now g.now lines.now }
    requires table { IsTable lines.now table.now }
    requires before { IsBefore code.now g.now lines.now n a }
    requires later { n ≤ to }
    requires within { to < length g.now.units }
    ensures { IsBefore code.now g.now lines.now to result }
{
    let mut at = n;
    let mut a = a;
    while at < to {
        a = next(code, g, lines, table, at, at + 1, a);
        at += 1;
    }
    a
}

// The facts before any unit, from those before one. It starts anew where that is an earlier one.
fn known_at(
    code: &Code,
    g: &Graph,
    lines: &[FactLine],
    table: &BTreeMap<u32, Facts>,
    n: usize,
    to: usize,
    a: Along,
) -> Along
    requires input { IsInput code.now g.now lines.now }
    requires table { IsTable lines.now table.now }
    requires before { IsBefore code.now g.now lines.now n a }
    requires within { to < length g.now.units }
    ensures { IsBefore code.now g.now lines.now to result }
{
    if n <= to {
        moved(code, g, lines, table, n, to, a)
    } else {
        moved(code, g, lines, table, 0, to, first(code, g, lines, table))
    }
}

pub(crate) fn is_return_kind(kind: EdgeKind) -> bool
    ensures { result ≡ is_return kind }
{
    matches!(kind, EdgeKind::Return)
}

// The least register whose fact isn't kept along an edge, from the facts before the unit that it leaves.
fn edge_lost(
    code: &Code,
    g: &Graph,
    lines: &[FactLine],
    table: &BTreeMap<u32, Facts>,
    masks: &Masks,
    e: Edge,
    n: usize,
    a: Along,
) -> Option<u8>
    requires input { IsInput code.now g.now lines.now }
    requires table { IsTable lines.now table.now }
    requires masks { AreRowsOf g.now masks.now }
    requires before { IsBefore code.now g.now lines.now n a }
    requires from { slice_index (addresses_of g.now) n ≡ e.from }
    requires reached { Reached code.now g.now.entry e.from }
    requires leads { Leads code.now e }
    ensures { IsLostAlong code.now g.now lines.now masks.now e result }
{
    let _ = code;
    let _ = lines;
    let unit = unit_at(g, n);
    let target = facts_in(table, e.to);
    match end_of(unit, e.kind, a) {
        None => None,
        Some(end) => least_lost(masks, callee_of(e.kind, unit), &end.facts, &target),
    }
}

fn edge_count(g: &Graph) -> usize
    ensures { result ≡ length g.now.edges }
{
    g.edges().len()
}

fn edge_at(g: &Graph, k: usize) -> Edge
    requires { k < length g.now.edges }
    ensures { (d : FlowEdge) → slice_index_or g.now.edges k d ≡ result }
{
    g.edges()[k]
}

// How far edges are gone through: the facts before the unit of a number, and the first place so far where a fact isn't kept.
#[derive(Clone, Copy, Debug, PartialEq, Eq)]
pub(crate) struct Gone {
    pub(crate) n: usize,
    pub(crate) along: Along,
    pub(crate) best: Option<Lost>,
}

// Gone on over an edge into a block's start.
fn over_edge(
    code: &Code,
    g: &Graph,
    lines: &[FactLine],
    table: &BTreeMap<u32, Facts>,
    masks: &Masks,
    addresses: &[u32],
    w: Gone,
    e: Edge,
) -> Gone
    requires input { IsInput code.now g.now lines.now }
    requires table { IsTable lines.now table.now }
    requires masks { AreRowsOf g.now masks.now }
    requires addresses { addresses.now ≡ addresses_of g.now }
    requires before { IsBefore code.now g.now lines.now w.n w.along }
    requires edge { Contains g.now.edges e }
    requires leads { is_return e.kind ≡ false }
    requires start { list_any (λ b. b == e.to) g.now.blocks ≡ true }
    ensures before { IsBefore code.now g.now lines.now result.n result.along }
    ensures best { (es : List FlowEdge) → IsBestOf code.now g.now lines.now masks.now es w.best
        → IsBestOf code.now g.now lines.now masks.now (es ++ e ∷ []) result.best }
{
    let to = number_of(addresses, e.from);
    let along = known_at(code, g, lines, table, w.n, to, w.along);
    let lost = edge_lost(code, g, lines, table, masks, e, to, along);
    Gone {
        n: to,
        along,
        best: better(w.best, e, lost),
    }
}

// Gone on over any edge.
fn gone_on(
    code: &Code,
    g: &Graph,
    lines: &[FactLine],
    table: &BTreeMap<u32, Facts>,
    masks: &Masks,
    addresses: &[u32],
    w: Gone,
    e: Edge,
) -> Gone
    requires input { IsInput code.now g.now lines.now }
    requires table { IsTable lines.now table.now }
    requires masks { AreRowsOf g.now masks.now }
    requires addresses { addresses.now ≡ addresses_of g.now }
    requires before { IsBefore code.now g.now lines.now w.n w.along }
    requires edge { Contains g.now.edges e }
    ensures before { IsBefore code.now g.now lines.now result.n result.along }
    ensures best { (es : List FlowEdge) → IsBestOf code.now g.now lines.now masks.now es w.best
        → IsBestOf code.now g.now lines.now masks.now (es ++ e ∷ []) result.best }
{
    if is_return_kind(e.kind) {
        w
    } else if starts(g.blocks(), e.to) {
        over_edge(code, g, lines, table, masks, addresses, w, e)
    } else {
        w
    }
}

// The first place, by from, to and register, where an edge into a block's start doesn't keep a fact, if any.
pub(crate) fn first_lost(
    code: &Code,
    g: &Graph,
    lines: &[FactLine],
    table: &BTreeMap<u32, Facts>,
    masks: &Masks,
    addresses: &[u32],
) -> Option<Lost>
    requires input { IsInput code.now g.now lines.now }
    requires table { IsTable lines.now table.now }
    requires masks { AreRowsOf g.now masks.now }
    requires addresses { addresses.now ≡ addresses_of g.now }
    requires some { 0 < length g.now.units }
    ensures { IsBestOf code.now g.now lines.now masks.now g.now.edges result }
{
    let mut w = Gone {
        n: 0,
        along: first(code, g, lines, table),
        best: None,
    };
    for k in 0..edge_count(g) {
        w = gone_on(code, g, lines, table, masks, addresses, w, edge_at(g, k));
    }
    w.best
}

// Where a job is entered from: behind all units.
const OUTSIDE: u32 = 0xffff_fff0;

fn with_opening(entry: u32, best: Option<Lost>, lost: Option<u8>) -> Option<Lost>
    ensures { result ≡ meaning.with_opening entry best lost }
{
    match lost {
        None => best,
        Some(register) => Some(earlier_of(
            best,
            Lost {
                from: OUTSIDE,
                to: entry,
                register,
            },
        )),
    }
}

// The first place of all where a fact isn't kept, the opening edge's included; None where all are kept.
pub(crate) fn first_fault(
    code: &Code,
    g: &Graph,
    lines: &[FactLine],
    table: &BTreeMap<u32, Facts>,
    masks: &Masks,
    addresses: &[u32],
    opening: &Facts,
) -> Option<Lost>
    requires input { IsInput code.now g.now lines.now }
    requires table { IsTable lines.now table.now }
    requires masks { AreRowsOf g.now masks.now }
    requires addresses { addresses.now ≡ addresses_of g.now }
    requires some { 0 < length g.now.units }
    requires opening { AreFacts opening.now }
    ensures { IsFaultOf code.now g.now lines.now masks.now opening.now result }
{
    let best = first_lost(code, g, lines, table, masks, addresses);
    let target = facts_in(table, g.entry());
    let lost = least_lost(masks, None, opening, &target);
    with_opening(g.entry(), best, lost)
}
