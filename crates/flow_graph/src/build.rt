// The parts of a graph.
ghost use Rattle.std.specs.Prelude.{◌≡◌, ◌<◌, ◌≤◌, ◌++◌, All, IfOk, OnOk, map, length, slice_index};
ghost use Rattle.flow_graph.specs.Build as build;
ghost use Rattle.flow_graph.specs.Places.{IsNet};

use crate::calls::called;
use crate::parts::Unit;
use crate::search::search;
use crate::site::{Exits, Site, Slot};
use mips_isa::Instr;
use std::alloc::{AllocError, Global};

/// The places reached from one, rising.
pub(crate) fn reach(
    alloc: Global,
    net: &[Exits],
    enters: bool,
    start: usize,
    stamps: &mut Vec<usize>,
    stamp: usize,
) -> Result<Vec<usize>, AllocError>
    requires net { IsNet net.now }
    requires start { start < length net.now }
    requires beside { length stamps.old.items ≡ length net.now }
    requires fresh { All (λ s. s < stamp) stamps.old.items }
    ensures found { IfOk result (λ found. build.IsReach net.now enters start found.items) }
    ensures stamps { OnOk result (All (λ s. s ≤ stamp) stamps.new.items) }
    ensures length { OnOk result (length stamps.new.items ≡ length net.now) }
{
    let starts = [start];
    let mut found = search(alloc, net, enters, &starts, stamps, stamp)?;
    found.sort()?;
    Ok(found)
}

/// The addresses of places.
pub(crate) fn addresses_at(
    alloc: Global,
    addresses: &[u32],
    places: &[usize],
) -> Result<Vec<u32>, AllocError>
    requires { All (λ p. p < length addresses.now) places.now }
    ensures { IfOk result (λ found. found.items ≡ map (λ p. slice_index addresses.now p) places.now) }
{
    let mut found = Vec::new(alloc);
    for place in places {
        found.push(addresses[*place])?;
    }
    Ok(found)
}

/// The functions: the entry, and what these units call, rising.
pub(crate) fn functions(
    alloc: Global,
    net: &[Exits],
    entry: usize,
    reached: &[usize],
) -> Result<Vec<usize>, AllocError>
    requires { All (λ p. p < length net.now) reached.now }
    ensures { IfOk result (λ fs. build.AreFunctions net.now entry reached.now fs.items) }
{
    let mut functions = called(alloc, net, reached)?;
    functions.push(entry)?;
    functions.sort()?;
    functions.dedup();
    Ok(functions)
}

/// The units at places.
#[tactic(auto, unfolding(crate::specs::Build::units_upto))]
pub(crate) fn units(
    alloc: Global,
    sites: &[Site],
    places: &[usize],
) -> Result<Vec<Unit>, AllocError>
    requires { All (λ p. p < length sites.now) places.now }
    ensures { IfOk result (λ units. units.items ≡ build.units_upto sites.now places.now (length places.now)) }
{
    let mut units = Vec::new(alloc);
    for place in places {
        push_unit(&mut units, sites[*place])?;
    }
    Ok(units)
}

fn push_unit(units: &mut Vec<Unit>, site: Site) -> Result<(), AllocError>
    ensures { OnOk result (units.new.items ≡ units.old.items ++ build.unit_at site) }
{
    if let Some(unit) = unit(site) {
        units.push(unit)?;
    }
    Ok(())
}

// The unit at a site that has no fault.
fn unit(site: Site) -> Option<Unit>
    ensures { build.listed_unit result ≡ build.unit_at site }
{
    match site.first {
        None => None,
        Some(first) => unit_of(site.at, first, site.slot),
    }
}

fn unit_of(at: u32, first: Instr, slot: Slot) -> Option<Unit>
    ensures { build.listed_unit result ≡ build.unit_by at first slot }
{
    match slot {
        Slot::Absent => Some(Unit {
            at,
            length: 4,
            first,
            slot: None,
        }),
        Slot::Holds(i) => Some(Unit {
            at,
            length: 8,
            first,
            slot: Some(i),
        }),
        Slot::OffCode | Slot::Reserved => None,
    }
}
