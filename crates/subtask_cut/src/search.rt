// Searches over the edges of a graph, with a list of work. Units are numbered by their addresses' places.
ghost use Rattle.flow_graph.specs.declared.parts.Edge.{Edge as FlowEdge};
ghost use Rattle.loop_regions.specs.Nested.{NotBack};
ghost use Rattle.std.specs.List.Sorted.{IsStrictlyIncreasing};
ghost use Rattle.std.specs.Prelude.{◌≡◌, ◌<◌, ◌≤◌, ℕ, AllPairs, Contains, IfOk, OnOk, false, length, replicate, slice_index_or, true};
ghost use Rattle.subtask_cut.specs.Search.{AreCharted, AreFrom, AreListed, AreMarked, SaysWhether, HasCome, HasFollowed, IsOn, asked_by, is_this};

use flow_graph::{Edge, EdgeKind};
use loop_regions::number_of;
use std::alloc::{AllocError, Global};

/// The edges that a search follows.
#[derive(Clone, Copy, Debug, PartialEq, Eq)]
pub(crate) enum Along {
    /// Those inside functions: a call leads to its return point.
    Inside,
    /// Those along which control goes on in a sub-task: into what it calls and over it, but not by a return.
    Onward,
}

impl Along {
    fn asks(self, kind: EdgeKind) -> bool
        ensures { result ≡ asked_by self kind }
    {
        match (self, kind) {
            (_, EdgeKind::Next | EdgeKind::Taken | EdgeKind::Over) => true,
            (Along::Inside, EdgeKind::Call) => false,
            (Along::Onward, EdgeKind::Call) => true,
            (_, EdgeKind::Return) => false,
        }
    }
}

fn is_that(avoid: Option<u32>, a: u32) -> bool
    ensures { result ≡ is_this avoid a }
{
    match avoid {
        Some(b) => b == a,
        None => false,
    }
}

/// How many edges leave units before an address.
fn before(edges: &[Edge], a: u32) -> usize
    requires { AllPairs NotBack edges.now }
    ensures within { result ≤ length edges.now }
    ensures below { (k : ℕ) (d : FlowEdge) → k < result → (slice_index_or edges.now k d).from < a }
    ensures past { (k : ℕ) (d : FlowEdge) → result ≤ k → k < length edges.now → a ≤ (slice_index_or edges.now k d).from }
{
    edges.partition_point(|e| e.from < a)
}

/// How many edges leave units up to an address.
fn up_to(edges: &[Edge], a: u32) -> usize
    requires { AllPairs NotBack edges.now }
    ensures within { result ≤ length edges.now }
    ensures below { (k : ℕ) (d : FlowEdge) → k < result → (slice_index_or edges.now k d).from ≤ a }
    ensures past { (k : ℕ) (d : FlowEdge) → result ≤ k → k < length edges.now → a < (slice_index_or edges.now k d).from }
{
    edges.partition_point(|e| e.from <= a)
}

/// The edges that leave a unit.
fn edges_from(edges: &[Edge], u: u32) -> &[Edge]
    requires { AllPairs NotBack edges.now }
    ensures { AreFrom edges.now u result.now }
{
    let start = before(edges, u);
    let end = up_to(edges, u);
    &edges[start..end]
}

/// Comes to a unit: marks it and puts it on the list of work, unless it is marked or to be avoided.
fn come_to(
    addresses: &[u32],
    avoid: Option<u32>,
    a: u32,
    marks: &mut Vec<bool>,
    work: &mut Vec<u32>,
) -> Result<(), AllocError>
    requires rise { IsStrictlyIncreasing addresses.now }
    requires among { Contains addresses.now a }
    requires beside { length marks.old.items ≡ length addresses.now }
    ensures { OnOk result (HasCome addresses.now avoid a marks.old.items marks.new.items work.old.items work.new.items) }
{
    let u = number_of(addresses, a);
    if is_that(avoid, a) {
        return Ok(());
    }
    if marks[u] {
        return Ok(());
    }
    marks[u] = true;
    work.push(a)?;
    Ok(())
}

/// Comes to each unit that one of these edges leads to.
fn follow(
    addresses: &[u32],
    edges: &[Edge],
    along: Along,
    avoid: Option<u32>,
    marks: &mut Vec<bool>,
    work: &mut Vec<u32>,
) -> Result<(), AllocError>
    requires rise { IsStrictlyIncreasing addresses.now }
    requires among { (e : FlowEdge) → Contains edges.now e → asked_by along e.kind ≡ true → Contains addresses.now e.to }
    requires beside { length marks.old.items ≡ length addresses.now }
    ensures { OnOk result (HasFollowed addresses.now (asked_by along) avoid edges.now marks.old.items marks.new.items work.old.items work.new.items) }
{
    for e in edges {
        if along.asks(e.kind) {
            come_to(addresses, avoid, e.to, marks, work)?;
        }
    }
    Ok(())
}

/// So many units without a mark.
fn no_marks(alloc: Global, count: usize) -> Result<Vec<bool>, AllocError>
    ensures { IfOk result (λ marks. marks.items ≡ replicate count false) }
{
    vec![in alloc; false; count]
}

/// Marks the units that are reached from one without coming to another, which is to be avoided.
pub(crate) fn search(
    alloc: Global,
    addresses: &[u32],
    edges: &[Edge],
    along: Along,
    avoid: Option<u32>,
    start: u32,
) -> Result<Vec<bool>, AllocError>
    requires charted { AreCharted addresses.now edges.now }
    requires among { Contains addresses.now start }
    ensures { IfOk result (λ marks. AreMarked addresses.now edges.now (asked_by along) avoid start marks.items) }
{
    let mut marks = no_marks(alloc, addresses.len())?;
    let mut work = Vec::new(alloc);
    come_to(addresses, avoid, start, &mut marks, &mut work)?;
    while let Some(u) = work.pop() {
        let ways = edges_from(edges, u);
        follow(addresses, ways, along, avoid, &mut marks, &mut work)?;
    }
    Ok(marks)
}

/// Whether the unit at an address is marked.
pub(crate) fn is_marked(addresses: &[u32], marks: &[bool], a: u32) -> bool
    requires rise { IsStrictlyIncreasing addresses.now }
    requires beside { length marks.now ≡ length addresses.now }
    ensures { SaysWhether result (IsOn addresses.now marks.now a) }
{
    match addresses.binary_search(&a) {
        Ok(u) => marks[u],
        Err(_) => false,
    }
}

/// The marked units, by rising address.
pub(crate) fn marked(
    alloc: Global,
    addresses: &[u32],
    marks: &[bool],
) -> Result<Vec<u32>, AllocError>
    requires rise { IsStrictlyIncreasing addresses.now }
    requires beside { length marks.now ≡ length addresses.now }
    ensures { IfOk result (λ us. AreListed addresses.now marks.now us.items) }
{
    let mut us = Vec::new(alloc);
    for u in 0..addresses.len() {
        if marks[u] {
            us.push(addresses[u])?;
        }
    }
    Ok(us)
}
