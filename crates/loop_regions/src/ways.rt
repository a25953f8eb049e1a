// The edges inside functions, with the numbers of the units that they join.
ghost use Rattle.loop_regions.specs.Regions.{is_back};
ghost use Rattle.flow_graph.specs.Reached.{is_inner};
ghost use Rattle.flow_graph.specs.declared.parts.EdgeKind.TheVariants.{Over};
ghost use Rattle.loop_regions.specs.Ways.{AreAllJoined, AreWays, IsCalled, IsCalleeOf, IsWay, calls_from, goes_back, is_call_kind, is_over_kind};
ghost use Rattle.std.specs.List.Sorted.{IsStrictlyIncreasing};
ghost use Rattle.std.specs.Prelude.{◌≡◌, ◌<◌, Contains, IfOk, IfSome, Some, length, slice_index, true};

use crate::crossing::{is_held, is_inside};
use flow_graph::{Edge, EdgeKind};
use std::alloc::{AllocError, Global};
use visa_io::Region;

/// An edge inside a function, with the numbers of the units that it joins, by rising address.
#[derive(Clone, Copy, Debug, PartialEq, Eq)]
pub struct Way {
    pub edge: Edge,
    pub from: usize,
    pub to: usize,
    /// Of an edge over a call the number of the unit where the called function begins.
    pub callee: Option<usize>,
    /// Whether it leads back to the header of a region that it lies in.
    pub back: bool,
}

/// The number of the unit at an address, by rising address; `addresses` are those of all units.
pub fn number_of(addresses: &[u32], a: u32) -> usize
    requires rise { IsStrictlyIncreasing addresses.now }
    requires among { Contains addresses.now a }
    ensures inside { result < length addresses.now }
    ensures at { slice_index addresses.now result ≡ a }
{
    match addresses.binary_search(&a) {
        Ok(i) => i,
        Err(_) => unreachable!(),
    }
}

fn goes_back_in(r: &Region, e: &Edge) -> bool
    ensures { result ≡ goes_back e.now r.now }
{
    e.to == r.header && is_held(r, e.from)
}

fn leads_back(regions: &[Region], e: &Edge) -> bool
    ensures { result ≡ is_back regions.now e.now }
{
    regions.iter().any(|r| goes_back_in(r, e))
}

fn is_call_of(e: &Edge, unit: u32) -> bool
    ensures { result ≡ calls_from unit e.now }
{
    e.from == unit && is_call(e.kind)
}

fn is_call(kind: EdgeKind) -> bool
    ensures { result ≡ is_call_kind kind }
{
    match kind {
        EdgeKind::Call => true,
        EdgeKind::Next | EdgeKind::Taken | EdgeKind::Return | EdgeKind::Over => false,
    }
}

/// The function that a unit calls, sought among all edges.
fn called_anywhere(edges: &[Edge], unit: u32) -> Option<u32>
    ensures { IsCalled edges.now unit result }
{
    for e in edges {
        if is_call_of(e, unit) {
            return Some(e.to);
        }
    }
    None
}

/// The function that a unit calls, by a call edge of this number, if that is one.
fn called_at(edges: &[Edge], unit: u32, i: usize) -> Option<u32>
    ensures { IfSome result (λ f. IsCalled edges.now unit (Some f)) }
{
    if i < edges.len() && is_call_of(&edges[i], unit) {
        Some(edges[i].to)
    } else {
        None
    }
}

/// The function that the unit calls whose edge over the call has this number: the edge to it stands beside that one.
fn called_from(edges: &[Edge], unit: u32, i: usize) -> Option<u32>
    ensures { IsCalled edges.now unit result }
{
    if let Some(f) = called_at(edges, unit, i.saturating_add(1)) {
        return Some(f);
    }
    if let Some(f) = called_at(edges, unit, i.saturating_sub(1)) {
        return Some(f);
    }
    called_anywhere(edges, unit)
}

fn callee_of(edges: &[Edge], addresses: &[u32], e: Edge, i: usize) -> Option<usize>
    requires rise { IsStrictlyIncreasing addresses.now }
    requires joined { AreAllJoined addresses.now edges.now }
    ensures { e.kind ≡ Over → IsCalleeOf addresses.now edges.now e.from result }
{
    if !is_over(e.kind) {
        return None;
    }
    match called_from(edges, e.from, i) {
        Some(f) => Some(number_of(addresses, f)),
        None => None,
    }
}

fn is_over(kind: EdgeKind) -> bool
    ensures { result ≡ is_over_kind kind }
{
    match kind {
        EdgeKind::Over => true,
        EdgeKind::Next | EdgeKind::Taken | EdgeKind::Call | EdgeKind::Return => false,
    }
}

fn way_of(edges: &[Edge], addresses: &[u32], regions: &[Region], edge: Edge, i: usize) -> Way
    requires rise { IsStrictlyIncreasing addresses.now }
    requires joined { AreAllJoined addresses.now edges.now }
    requires among { Contains edges.now edge }
    requires inner { is_inner edge.kind ≡ true }
    ensures edge_is { result.edge ≡ edge }
    ensures is { IsWay addresses.now edges.now regions.now result }
{
    Way {
        edge,
        from: number_of(addresses, edge.from),
        to: number_of(addresses, edge.to),
        callee: callee_of(edges, addresses, edge, i),
        back: leads_back(regions, &edge),
    }
}

/// The edges inside functions, in their order.
pub(crate) fn all_ways(
    alloc: Global,
    edges: &[Edge],
    addresses: &[u32],
    regions: &[Region],
) -> Result<Vec<Way>, AllocError>
    requires rise { IsStrictlyIncreasing addresses.now }
    requires joined { AreAllJoined addresses.now edges.now }
    ensures { IfOk result (λ ways. AreWays addresses.now edges.now regions.now ways.items) }
{
    let mut ways = Vec::new(alloc);
    for i in 0..edges.len() {
        let edge = edges[i];
        if is_inside(edge.kind) {
            ways.push(way_of(edges, addresses, regions, edge, i))?;
        }
    }
    Ok(ways)
}
