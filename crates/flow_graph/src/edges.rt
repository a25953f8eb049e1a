// The edges of a graph.
ghost use Rattle.std.specs.Prelude.{◌≡◌, ◌<◌, ◌++◌, All, OnOk, length, slice_index};
ghost use Rattle.flow_graph.specs.EdgeLists as lists;
ghost use Rattle.flow_graph.specs.Places.{exits_at};

use crate::parts::{Edge, EdgeKind};
use crate::site::Exits;
use std::alloc::AllocError;

/// Sorts edges by `from`, `to` and kind, and keeps each once.
pub(crate) fn put_in_order(edges: &mut Vec<Edge>) -> Result<(), AllocError>
    ensures ok { OnOk result (lists.AreOrdered edges.old.items edges.new.items) }
{
    edges.sort()?;
    edges.dedup();
    Ok(())
}

/// Puts the edges along which the units at places lead on.
#[tactic(auto, unfolding(crate::specs::EdgeLists::own_upto))]
pub(crate) fn push_own(
    edges: &mut Vec<Edge>,
    addresses: &[u32],
    net: &[Exits],
    places: &[usize],
) -> Result<(), AllocError>
    requires beside { length net.now ≡ length addresses.now }
    requires within { All (λ p. p < length net.now) places.now }
    requires inside { lists.AreInside net.now (length addresses.now) }
    ensures { OnOk result (edges.new.items ≡ edges.old.items ++ lists.own_upto addresses.now net.now places.now (length places.now)) }
{
    for place in places {
        push_exits(edges, addresses, net, *place)?;
    }
    Ok(())
}

fn push_exits(
    edges: &mut Vec<Edge>,
    addresses: &[u32],
    net: &[Exits],
    place: usize,
) -> Result<(), AllocError>
    requires beside { length net.now ≡ length addresses.now }
    requires within { place < length net.now }
    requires inside { lists.AreInside net.now (length addresses.now) }
    ensures { OnOk result (edges.new.items ≡ edges.old.items ++ lists.exit_edges addresses.now (slice_index addresses.now place) (exits_at net.now place)) }
{
    let from = addresses[place];
    let exits = net[place];
    push_exit(edges, addresses, from, exits.next, EdgeKind::Next)?;
    push_exit(edges, addresses, from, exits.taken, EdgeKind::Taken)?;
    push_exit(edges, addresses, from, exits.call, EdgeKind::Call)?;
    push_exit(edges, addresses, from, exits.over, EdgeKind::Over)?;
    Ok(())
}

fn push_exit(
    edges: &mut Vec<Edge>,
    addresses: &[u32],
    from: u32,
    exit: Option<usize>,
    kind: EdgeKind,
) -> Result<(), AllocError>
    requires { lists.IsInside exit (length addresses.now) }
    ensures { OnOk result (edges.new.items ≡ edges.old.items ++ lists.exit_edge addresses.now from kind exit) }
{
    if let Some(place) = exit {
        edges.push(Edge {
            from,
            to: addresses[place],
            kind,
        })?;
    }
    Ok(())
}
