// The edges of returns.
ghost use Rattle.std.specs.Prelude.{◌≡◌, ◌<◌, ◌++◌, All, OnOk, length, map};
ghost use Rattle.std.specs.List.Sorted.{IsStrictlyIncreasing};
ghost use Rattle.flow_graph.specs.EdgeLists as lists;

use crate::function_parts::Parts;
use crate::parts::{Edge, EdgeKind};
use crate::places::Places;
use std::alloc::AllocError;

/// Puts the edges from the returns of functions to the return points of their calls.
pub(crate) fn push_returns(
    edges: &mut Vec<Edge>,
    places: &Places,
    functions: &[usize],
    returns: &Parts,
    reached: &[usize],
) -> Result<(), AllocError>
    requires functions { IsStrictlyIncreasing functions.now }
    requires parts { lists.HaveParts returns.now (length functions.now) }
    requires inside { lists.AreInside places.now.net.items (length places.now.addresses.items) }
    requires within { All (λ p. p < length places.now.net.items) reached.now }
    ensures { OnOk result (lists.More edges.old.items (lists.IsPointAmong places.now functions.now returns.now reached.now (length reached.now)) edges.new.items) }
{
    for place in reached {
        push_points(edges, places, functions, returns, *place)?;
    }
    Ok(())
}

// Puts the edges to the return point of a call.
fn push_points(
    edges: &mut Vec<Edge>,
    places: &Places,
    functions: &[usize],
    returns: &Parts,
    place: usize,
) -> Result<(), AllocError>
    requires functions { IsStrictlyIncreasing functions.now }
    requires parts { lists.HaveParts returns.now (length functions.now) }
    requires inside { lists.AreInside places.now.net.items (length places.now.addresses.items) }
    requires within { place < length places.now.net.items }
    ensures { OnOk result (lists.More edges.old.items (lists.IsPointOf places.now functions.now returns.now place) edges.new.items) }
{
    let exits = places.net[place];
    match exits.call {
        None => Ok(()),
        Some(function) => push_point(edges, places, functions, returns, function, exits.over),
    }
}

fn push_point(
    edges: &mut Vec<Edge>,
    places: &Places,
    functions: &[usize],
    returns: &Parts,
    function: usize,
    point: Option<usize>,
) -> Result<(), AllocError>
    requires functions { IsStrictlyIncreasing functions.now }
    requires parts { lists.HaveParts returns.now (length functions.now) }
    requires inside { lists.IsInside point (length places.now.addresses.items) }
    ensures { OnOk result (lists.More edges.old.items (lists.IsPointBy places.now functions.now returns.now function point) edges.new.items) }
{
    match point {
        None => Ok(()),
        Some(point) => {
            let own = returns_of(functions, returns, function);
            push_edges(edges, own, places.addresses[point])
        }
    }
}

// The returns of a function.
fn returns_of<'a>(functions: &[usize], returns: &'a Parts, function: usize) -> &'a [u32]
    requires functions { IsStrictlyIncreasing functions.now }
    requires parts { lists.HaveParts returns.now (length functions.now) }
    ensures { lists.AreReturnsOf functions.now returns.now function result.now }
{
    match functions.binary_search(&function) {
        Err(_) => &[],
        Ok(k) => {
            let own = returns.places[k];
            &returns.addresses[own.start..own.end]
        }
    }
}

fn push_edges(edges: &mut Vec<Edge>, returns: &[u32], to: u32) -> Result<(), AllocError>
    ensures { OnOk result (edges.new.items ≡ edges.old.items ++ map (λ r. lists.return_edge to r) returns.now) }
{
    for from in returns {
        edges.push(Edge {
            from: *from,
            to,
            kind: EdgeKind::Return,
        })?;
    }
    Ok(())
}
