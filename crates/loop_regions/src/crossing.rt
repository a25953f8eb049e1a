// Whether regions stand beside each other, and where control enters them.
ghost use Rattle.loop_regions.specs.Nested.{NotBack};
ghost use Rattle.flow_graph.specs.Reached.{is_inner};
ghost use Rattle.flow_graph.specs.declared.parts.Edge.{Edge as FlowEdge};
ghost use Rattle.loop_regions.specs.Sides.{IsFirstEdge, IsFirstFunction, IsFirstSide, earlier_of, is_no_later_pair};
ghost use Rattle.loop_regions.specs.Regions.{IsNoLaterPair, begins_aside, clashes, crosses_at, is_aside, is_crossing, is_unit, is_within, shares};
ghost use Rattle.loop_regions.specs.Walks.{holds};
ghost use Rattle.std.specs.List.Sorted.{IsStrictlyIncreasing};
ghost use Rattle.std.specs.List.{list_any};
ghost use Rattle.std.specs.Prelude.{◌≡◌, ◌<◌, ◌≤◌, ◌^◌, ◌&&◌, ℕ, if◌then◌else◌, MatchOption, AllPairs, Contains, length, true, false};

use flow_graph::{Edge, EdgeKind, Graph, Unit};
use visa_io::Region;

/// Whether a region holds an address.
pub(crate) fn is_held(r: &Region, a: u32) -> bool
    ensures { result ≡ holds r.now a }
{
    r.first <= a && a <= r.last
}

fn lies_within(r: &Region, x: &Region) -> bool
    ensures { result ≡ is_within r.now x.now }
{
    x.first <= r.first && r.last <= x.last
}

fn shares_address(r: &Region, x: &Region) -> bool
    ensures { result ≡ shares r.now x.now }
{
    r.first <= x.last && x.first <= r.last
}

fn do_clash(r: &Region, x: &Region) -> bool
    ensures { result ≡ clashes r.now x.now }
{
    r.header == x.header || shares_address(r, x) && !(lies_within(r, x) || lies_within(x, r))
}

fn has_unit(units: &[Unit], a: u32) -> bool
    ensures { result ≡ is_unit units.now a }
{
    units.iter().any(|unit| unit.at == a)
}

fn clashes_with_one(earlier: &[Region], r: &Region) -> bool
    ensures { result ≡ list_any (clashes r.now) earlier.now }
{
    earlier.iter().any(|x| do_clash(r, x))
}

fn has_its_header(units: &[Unit], r: &Region) -> bool
    ensures { result ≡ (holds r.now r.now.header && is_unit units.now r.now.header) }
{
    is_held(r, r.header) && has_unit(units, r.header)
}

fn crosses(units: &[Unit], earlier: &[Region], r: &Region) -> bool
    ensures { result ≡ is_crossing units.now earlier.now r.now }
{
    !has_its_header(units, r) || clashes_with_one(earlier, r)
}

/// The place of the first region that crosses.
pub(crate) fn first_crossing(units: &[Unit], regions: &[Region]) -> Option<u32>
    requires { length regions.now < 2 ^ 32 }
    ensures { MatchOption result ((k : ℕ) → crosses_at units.now regions.now k ≡ false) (λ k. (k < length regions.now) × (crosses_at units.now regions.now k ≡ true) × ((j : ℕ) → j < k → crosses_at units.now regions.now j ≡ false)) }
{
    for k in 0..regions.len() {
        if crosses(units, &regions[..k], &regions[k]) {
            return Some(k as u32);
        }
    }
    None
}

/// Whether an edge inside a function enters a region aside from its header.
fn enters_aside(r: &Region, e: &Edge) -> bool
    ensures { result ≡ is_aside r.now e.now }
{
    is_inside(e.kind) && (is_held(r, e.to) && !(is_held(r, e.from) || e.to == r.header))
}

fn starts_aside(r: &Region, f: u32) -> bool
    ensures { result ≡ begins_aside r.now f }
{
    is_held(r, f) && f != r.header
}

/// Whether edges of a kind lie inside a function.
pub(crate) fn is_inside(kind: EdgeKind) -> bool
    ensures { result ≡ is_inner kind }
{
    match kind {
        EdgeKind::Next | EdgeKind::Taken | EdgeKind::Over => true,
        EdgeKind::Call | EdgeKind::Return => false,
    }
}

/// Where control enters a region aside from its header.
#[derive(Clone, Copy, Debug, PartialEq, Eq)]
pub(crate) struct Side {
    pub(crate) from: u32,
    pub(crate) to: u32,
}

fn first_edge_aside(edges: &[Edge], r: &Region) -> Option<Side>
    requires { AllPairs NotBack edges.now }
    ensures { IsFirstEdge edges.now r.now result }
{
    for e in edges {
        if enters_aside(r, e) {
            return Some(Side {
                from: e.from,
                to: e.to,
            });
        }
    }
    None
}

fn first_function_aside(functions: &[u32], r: &Region) -> Option<u32>
    requires { IsStrictlyIncreasing functions.now }
    ensures { IsFirstFunction functions.now r.now result }
{
    for f in functions {
        if starts_aside(r, *f) {
            return Some(*f);
        }
    }
    None
}

/// Where a function begins, as the place that control comes from: no unit comes after it by address.
const OUTSIDE: u32 = 0xffff_fff0;

fn is_no_later(one: Side, other: Side) -> bool
    ensures { result ≡ is_no_later_pair one.from one.to other.from other.to }
{
    one.from < other.from || one.from == other.from && one.to <= other.to
}

/// The first of both, if any.
fn earlier(edge: Option<Side>, function: Option<u32>) -> Option<Side>
    ensures { result ≡ earlier_of edge function }
{
    match (edge, function) {
        (side, None) => side,
        (None, Some(to)) => Some(Side { from: OUTSIDE, to }),
        (Some(side), Some(to)) => Some(earlier_side(side, Side { from: OUTSIDE, to })),
    }
}

fn earlier_side(one: Side, other: Side) -> Side
    ensures { result ≡ (if is_no_later_pair one.from one.to other.from other.to then one else other) }
{
    if is_no_later(one, other) { one } else { other }
}

/// The first edge that enters a region aside from its header.
pub(crate) fn side_entry(g: &Graph, r: &Region) -> Option<Side>
    requires edges { AllPairs NotBack g.now.edges }
    requires functions { IsStrictlyIncreasing g.now.functions }
    ensures { IsFirstSide g.now r.now result }
{
    earlier(
        first_edge_aside(g.edges(), r),
        first_function_aside(g.functions(), r),
    )
}
