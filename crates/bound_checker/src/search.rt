// The units that others lead to, with no memory but the room for them.
ghost use Rattle.std.specs.Prelude.{◌≡◌, ◌<◌, ◌≤◌, ◌↔◌, Contains, IsTrue, length, slice_index, slice_index_or};
ghost use Rattle.flow_graph.specs.Code.{IsCode};
ghost use Rattle.flow_graph.specs.Flow.{IsGraph, IsUnit};
ghost use Rattle.flow_graph.specs.Reached.{is_inner};
ghost use Rattle.loop_regions.specs.Walks as walks;
ghost use Rattle.bound_checker.specs.Lines.{addresses_of};
ghost use Rattle.bound_checker.specs.Room.{Adds, IsRoom, seen_at};
ghost use Rattle.bound_checker.specs.Search as meaning;

use crate::gone::is_return_kind;
use crate::room::{Room, put};
use crate::steps::is_quiet;
use crate::units::{number_of, unit_at};
use flow_graph::{Edge, EdgeKind, Graph, Unit};
use visa_io::{Code, Region};

// The edges along which units are looked for: those of a region from units without a step of its counter, or all but returns.
#[derive(Clone, Copy, Debug)]
pub(crate) enum Scope {
    Quiet(Region),
    Called,
}

pub(crate) fn holds(r: Region, u: u32) -> bool
    ensures { result ≡ walks.holds r u }
{
    r.first <= u && u <= r.last
}

fn is_inner_kind(kind: EdgeKind) -> bool
    ensures { result ≡ is_inner kind }
{
    match kind {
        EdgeKind::Next | EdgeKind::Taken | EdgeKind::Over => true,
        EdgeKind::Call | EdgeKind::Return => false,
    }
}

fn is_quiet_edge(r: Region, unit: Unit, e: Edge) -> bool
    ensures { result ≡ meaning.is_quiet_edge r unit e }
{
    is_inner_kind(e.kind) && holds(r, e.from) && holds(r, e.to) && is_quiet(r.counter, unit)
}

// Whether an edge of a unit is one of these.
fn allows(scope: Scope, unit: Unit, e: Edge) -> bool
    ensures { result ≡ meaning.allows scope unit e }
{
    match scope {
        Scope::Quiet(r) => is_quiet_edge(r, unit, e),
        Scope::Called => !is_return_kind(e.kind),
    }
}

// The place of the first edge that leaves an address or a later one.
fn first_edge(edges: &[Edge], a: u64) -> usize
    requires { meaning.AreFromRising edges.now }
    ensures { meaning.IsFirstFrom edges.now a result }
{
    edges.partition_point(|e| u64::from(e.from) < a)
}

// Where an edge of a unit leads is found, if it is one of these.
fn pass_edge(
    code: &Code,
    g: &Graph,
    addresses: &[u32],
    room: &mut Room,
    scope: Scope,
    k: usize,
    e: Edge,
)
    requires graph { IsGraph code.now g.now.entry g.now }
    requires addresses { addresses.now ≡ addresses_of g.now }
    requires room { IsRoom (length g.now.units) room.old }
    requires within { k < length g.now.units }
    requires edge { Contains g.now.edges e }
    requires from { slice_index (addresses_of g.now) k ≡ e.from }
    ensures room { IsRoom (length g.now.units) room.new }
    ensures adds { Adds (meaning.EndsAt code.now g.now scope e) room.old room.new }
{
    let _ = code;
    if allows(scope, unit_at(g, k), e) {
        put(room, number_of(addresses, e.to));
    }
}

// Where a unit leads is found.
pub(crate) fn pass_on(
    code: &Code,
    g: &Graph,
    addresses: &[u32],
    room: &mut Room,
    scope: Scope,
    k: usize,
)
    requires graph { IsGraph code.now g.now.entry g.now }
    requires addresses { addresses.now ≡ addresses_of g.now }
    requires room { IsRoom (length g.now.units) room.old }
    requires within { k < length g.now.units }
    ensures room { IsRoom (length g.now.units) room.new }
    ensures adds { Adds (meaning.LeadsTo code.now g.now scope k) room.old room.new }
{
    let a = u64::from(unit_at(g, k).at);
    let edges = g.edges();
    for i in first_edge(edges, a)..first_edge(edges, a + 1) {
        pass_edge(code, g, addresses, room, scope, k, edges[i]);
    }
}

fn is_more(room: &Room, done: usize) -> bool
    ensures { IsTrue result ↔ (done < room.now.count) }
{
    done < room.count
}

fn found(room: &Room, i: usize) -> usize
    requires { i < length room.now.found.items }
    ensures { result ≡ slice_index room.now.found.items i }
{
    room.found[i]
}

// All that the units found lead to are found too.
pub(crate) fn spread(code: &Code, g: &Graph, addresses: &[u32], room: &mut Room, scope: Scope)
    requires graph { IsGraph code.now g.now.entry g.now }
    requires addresses { addresses.now ≡ addresses_of g.now }
    requires room { IsRoom (length g.now.units) room.old }
    ensures room { IsRoom (length g.now.units) room.new }
    ensures spread { meaning.IsSpread code.now g.now scope room.old room.new }
{
    let mut done = 0;
    while is_more(room, done) {
        pass_on(code, g, addresses, room, scope, found(room, done));
        done += 1;
    }
}
