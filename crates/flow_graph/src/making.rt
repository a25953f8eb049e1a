// The graph of code, or why it has none.
ghost use Rattle.std.specs.Prelude.{◌≡◌, ◌<◌, Err, All, true, false, IfOk, length};
ghost use Rattle.std.specs.List.{list_any};
ghost use Rattle.flow_graph.specs.Build.{IsReach};
ghost use Rattle.flow_graph.specs.Code.{IsCode, holds, is_code};
ghost use Rattle.flow_graph.specs.Flow.{IsFlow};
ghost use Rattle.flow_graph.specs.FunctionParts.{AreParts};
ghost use Rattle.flow_graph.specs.Making as making;
ghost use Rattle.flow_graph.specs.declared.fault.FlowFault.TheVariants.{OffCode};

use crate::blocks::starts;
use crate::build::{addresses_at, functions, reach, units};
use crate::calls::{is_deep, recursive_call};
use crate::edges::{push_own, put_in_order};
use crate::fault::FlowFault;
use crate::faults::first_fault;
use crate::function_parts::{FunctionParts, parts_of};
use crate::parts::Edge;
use crate::places::Places;
use crate::returns::push_returns;
use crate::search::no_stamps;
use crate::table::find;
use crate::view::Graph;
use std::alloc::{AllocError, Global};
use visa_io::{Code, Span};

/// The graph of code that is entered at `entry`.
///
/// A fault of a unit by itself (the first four kinds of `FlowFault`, and `OffCode`) ends the way there; the other kinds are
/// told of what is then reached. The answer is the first kind, in the order of `FlowFault`, for which there is a fault, with
/// its least address.
pub fn graph(alloc: Global, code: &Code, entry: u32) -> Result<Graph, FlowFault>
    requires { IsCode code.now }
    ensures flow { IsFlow code.now entry result }
    // This fault takes no memory to find.
    ensures entry { is_code code.now entry ≡ false → result ≡ Err (OffCode entry) }
{
    if !has_word(code, entry) {
        return Err(FlowFault::OffCode { at: entry });
    }
    match made(alloc, code, entry) {
        Ok(answer) => answer,
        Err(_) => Err(FlowFault::Memory),
    }
}

// Whether an address is one of code.
fn has_word(code: &Code, at: u32) -> bool
    requires { IsCode code.now }
    ensures { result ≡ is_code code.now at }
{
    at % 4 == 0 && is_held(code.spans.as_slice(), at)
}

fn is_held(spans: &[Span], at: u32) -> bool
    ensures { result ≡ list_any (λ span. holds span at) spans.now }
{
    for span in spans {
        if holds(*span, at) {
            return true;
        }
    }
    false
}

fn holds(span: Span, at: u32) -> bool
    ensures { result ≡ holds span at }
{
    span.start <= at && at - span.start < span.len
}

fn made(alloc: Global, code: &Code, entry: u32) -> Result<Result<Graph, FlowFault>, AllocError>
    requires code { IsCode code.now }
    requires entry { is_code code.now entry ≡ true }
    ensures { IfOk result (IsFlow code.now entry) }
{
    let places = Places::new(alloc, code)?;
    match find(&places.addresses, u64::from(entry)) {
        None => Ok(Err(FlowFault::OffCode { at: entry })),
        Some(start) => from(alloc, &places, start),
    }
}

fn from(
    alloc: Global,
    places: &Places,
    start: usize,
) -> Result<Result<Graph, FlowFault>, AllocError>
    requires net { making.AreBeside places.now }
    requires start { start < length places.now.net.items }
    ensures { IfOk result (making.IsAnswer places.now start) }
{
    let mut stamps = no_stamps(alloc, places.net.len())?;
    let reached = reach(alloc, &places.net, true, start, &mut stamps, 1)?;
    let at = addresses_at(alloc, &places.addresses, &reached)?;
    match first_fault(&places.sites, &reached, &at) {
        Some(fault) => Ok(Err(fault)),
        None => without_own_fault(alloc, places, start, &reached, &at),
    }
}

fn without_own_fault(
    alloc: Global,
    places: &Places,
    start: usize,
    reached: &[usize],
    at: &[u32],
) -> Result<Result<Graph, FlowFault>, AllocError>
    requires net { making.AreBeside places.now }
    requires start { start < length places.now.net.items }
    requires reached { IsReach places.now.net.items true start reached.now }
    requires at { making.AreUnits places.now reached.now at.now }
    ensures { IfOk result (making.IsDeepOr places.now start reached.now at.now) }
{
    let functions = functions(alloc, &places.net, start, reached)?;
    if is_deep(alloc, &places.net, start)? {
        let fault = deep_fault(alloc, places, &functions)?;
        return Ok(Err(fault));
    }
    let graph = built(alloc, places, start, reached, at, &functions)?;
    Ok(Ok(graph))
}

// A call that is reached again from what it calls; where there is none, the depth of calls alone is the fault.
fn deep_fault(alloc: Global, places: &Places, functions: &[usize]) -> Result<FlowFault, AllocError>
    requires net { making.AreBeside places.now }
    requires within { All (λ f. f < length places.now.net.items) functions.now }
    ensures { IfOk result (making.IsDeepFault places.now functions.now) }
{
    match recursive_call(alloc, &places.net, functions)? {
        None => Ok(FlowFault::Deep),
        Some(place) => Ok(FlowFault::Recursion {
            at: places.addresses[place],
        }),
    }
}

fn built(
    alloc: Global,
    places: &Places,
    start: usize,
    reached: &[usize],
    at: &[u32],
    functions: &[usize],
) -> Result<Graph, AllocError>
    requires net { making.AreBeside places.now }
    requires start { start < length places.now.net.items }
    requires within { All (λ p. p < length places.now.net.items) reached.now }
    requires at { making.AreUnits places.now reached.now at.now }
    requires functions { making.AreFunctionPlaces places.now functions.now }
    ensures { IfOk result (making.IsBuilt places.now start reached.now at.now functions.now) }
{
    let parts = parts_of(alloc, places, functions)?;
    let edges = edges(alloc, places, reached, functions, &parts)?;
    let entry = places.addresses[start];
    Ok(Graph {
        entry,
        units: units(alloc, &places.sites, reached)?,
        edges,
        functions: addresses_at(alloc, &places.addresses, functions)?,
        addresses: parts.units.addresses,
        places: parts.units.places,
        blocks: starts(alloc, &places.sites, reached, at, entry)?,
    })
}

fn edges(
    alloc: Global,
    places: &Places,
    reached: &[usize],
    functions: &[usize],
    parts: &FunctionParts,
) -> Result<Vec<Edge>, AllocError>
    requires net { making.AreBeside places.now }
    requires within { All (λ p. p < length places.now.net.items) reached.now }
    requires functions { making.AreFunctionPlaces places.now functions.now }
    requires parts { AreParts places.now functions.now (length functions.now) parts.now }
    ensures { IfOk result (λ edges. making.AreEdges places.now reached.now functions.now parts.now.returns edges.items) }
{
    let mut edges = Vec::new(alloc);
    push_own(&mut edges, &places.addresses, &places.net, reached)?;
    push_returns(&mut edges, places, functions, &parts.returns, reached)?;
    put_in_order(&mut edges)?;
    Ok(edges)
}
