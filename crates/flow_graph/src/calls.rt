// Chains of calls, and calls that are reached again from what they call.
ghost use Rattle.std.specs.Prelude.{◌≡◌, ◌<◌, ◌≤◌, ◌++◌, All, IfOk, OnOk, length};
ghost use Rattle.flow_graph.specs.Calls as calls;
ghost use Rattle.flow_graph.specs.Own as own;
ghost use Rattle.flow_graph.specs.Places.{IsNet};

use crate::search::{no_stamps, owe_one, search};
use crate::site::Exits;
use std::alloc::{AllocError, Global};

/// How many calls a chain may not have: the return stack holds 64 addresses, one of which is the exit address.
const TOO_MANY: usize = 64;

/// Whether a chain of 64 calls begins in the function at `entry`.
pub(crate) fn is_deep(alloc: Global, net: &[Exits], entry: usize) -> Result<bool, AllocError>
    requires net { IsNet net.now }
    requires entry { entry < length net.now }
    ensures { IfOk result (calls.IsDeep net.now entry) }
{
    let mut stamps = no_stamps(alloc, net.len())?;
    let mut starts = vec![in alloc; entry]?;
    for level in 0..TOO_MANY {
        let found = search(alloc, net, false, &starts, &mut stamps, level + 1)?;
        starts = called(alloc, net, &found)?;
    }
    Ok(!starts.is_empty())
}

/// The functions that units call.
#[tactic(auto, unfolding(crate::specs::Calls::called_upto))]
pub(crate) fn called(
    alloc: Global,
    net: &[Exits],
    places: &[usize],
) -> Result<Vec<usize>, AllocError>
    requires { All (λ p. p < length net.now) places.now }
    ensures { IfOk result (λ functions. functions.items ≡ calls.called_upto net.now places.now (length places.now)) }
{
    let mut functions = Vec::new(alloc);
    for place in places {
        owe_one(&mut functions, net[*place].call)?;
    }
    Ok(functions)
}

/// The least call that is reached again from the function that it calls, of these functions.
pub(crate) fn recursive_call(
    alloc: Global,
    net: &[Exits],
    functions: &[usize],
) -> Result<Option<usize>, AllocError>
    requires net { IsNet net.now }
    requires within { All (λ f. f < length net.now) functions.now }
    ensures { IfOk result (calls.IsLeast (calls.IsAgain net.now functions.now (length functions.now))) }
{
    let mut stamps = no_stamps(alloc, net.len())?;
    let mut best = None;
    for k in 0..functions.len() {
        let function = functions[k];
        let starts = [function];
        let found = search(alloc, net, true, &starts, &mut stamps, k + 1)?;
        best = lesser(best, again(net, function, &found));
    }
    Ok(best)
}

fn again(net: &[Exits], function: usize, found: &[usize]) -> Option<usize>
    requires { All (λ p. p < length net.now) found.now }
    ensures { calls.IsLeast (calls.CallsAmong net.now function found.now (length found.now)) result }
{
    let mut best = None;
    for place in found {
        best = lesser(best, caller(net, function, *place));
    }
    best
}

fn caller(net: &[Exits], function: usize, place: usize) -> Option<usize>
    requires { place < length net.now }
    ensures { result ≡ calls.caller_of net.now function place }
{
    if net[place].call == Some(function) {
        Some(place)
    } else {
        None
    }
}

fn lesser(best: Option<usize>, other: Option<usize>) -> Option<usize>
    ensures { result ≡ own.lesser best other }
{
    match (best, other) {
        (Some(a), Some(b)) => Some(a.min(b)),
        (Some(a), None) => Some(a),
        (None, b) => b,
    }
}
