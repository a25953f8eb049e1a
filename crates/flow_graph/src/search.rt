// The places that are reached from others.
ghost use Rattle.std.specs.Prelude.{◌≡◌, ◌≢◌, ◌<◌, ◌≤◌, ◌++◌, All, IfOk, OnOk, length, replicate, slice_index, slice_set};
ghost use Rattle.std.specs.Bool.{OnTrue, OnFalse};
ghost use Rattle.flow_graph.specs.Places.{IsNet, IsSpread, exits_asked, exits_at, listed};

use crate::site::Exits;
use std::alloc::{AllocError, Global};

/// The places that are reached from `starts`, entering functions or going over their calls alone. Each gets the stamp, which
/// none has before.
pub(crate) fn search(
    alloc: Global,
    net: &[Exits],
    enters: bool,
    starts: &[usize],
    stamps: &mut Vec<usize>,
    stamp: usize,
) -> Result<Vec<usize>, AllocError>
    requires net { IsNet net.now }
    requires starts { All (λ s. s < length net.now) starts.now }
    requires beside { length stamps.old.items ≡ length net.now }
    requires fresh { All (λ s. s < stamp) stamps.old.items }
    ensures found { IfOk result (λ found. IsSpread net.now enters starts.now found.items) }
    ensures stamps { OnOk result (All (λ s. s ≤ stamp) stamps.new.items) }
    ensures length { OnOk result (length stamps.new.items ≡ length net.now) }
{
    let mut found = Vec::new(alloc);
    let mut work = Vec::from_slice(alloc, starts)?;
    while let Some(place) = work.pop() {
        if mark(stamps, place, stamp) {
            found.push(place)?;
            owe(&mut work, net, place, enters)?;
        }
    }
    Ok(found)
}

// Stamps a place; whether it had another stamp before.
fn mark(stamps: &mut Vec<usize>, place: usize, stamp: usize) -> bool
    requires { place < length stamps.old.items }
    ensures old { OnFalse result ((slice_index stamps.old.items place ≡ stamp) × (stamps.new.items ≡ stamps.old.items)) }
    ensures new { OnTrue result ((slice_index stamps.old.items place ≢ stamp) × (stamps.new.items ≡ slice_set stamps.old.items place stamp)) }
{
    if stamps[place] == stamp {
        return false;
    }
    stamps[place] = stamp;
    true
}

// Puts the exits of a place on the list of work.
fn owe(work: &mut Vec<usize>, net: &[Exits], place: usize, enters: bool) -> Result<(), AllocError>
    requires { place < length net.now }
    ensures { OnOk result (work.new.items ≡ work.old.items ++ exits_asked (exits_at net.now place) enters) }
{
    let exits = net[place];
    owe_one(work, exits.next)?;
    owe_one(work, exits.taken)?;
    owe_one(work, exits.over)?;
    if enters {
        owe_one(work, exits.call)?;
    }
    Ok(())
}

/// Puts a place, if there is one, last.
pub(crate) fn owe_one(work: &mut Vec<usize>, exit: Option<usize>) -> Result<(), AllocError>
    ensures { OnOk result (work.new.items ≡ work.old.items ++ listed exit) }
{
    if let Some(place) = exit {
        work.push(place)?;
    }
    Ok(())
}

/// So many places without a stamp.
pub(crate) fn no_stamps(alloc: Global, count: usize) -> Result<Vec<usize>, AllocError>
    ensures { IfOk result (λ stamps. stamps.items ≡ replicate count 0) }
{
    vec![in alloc; 0; count]
}
