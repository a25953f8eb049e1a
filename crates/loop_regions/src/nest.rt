// Regions that nest in a graph.
ghost use Rattle.loop_regions.specs.Cycles.{AreIn, IsLeastOnCycle};
ghost use Rattle.loop_regions.specs.Nested.{IsAnswer, IsEntry, IsNestedAnswer, IsNumbered, IsWhole, NotBack};
ghost use Rattle.loop_regions.specs.Ways.{addresses_of};
ghost use Rattle.std.specs.List.Sorted.{IsStrictlyIncreasing};
ghost use Rattle.std.specs.Prelude.{◌≡◌, ◌<◌, ◌^◌, AllPairs, IfOk, length};

use crate::Way;
use crate::crossing::{first_crossing, side_entry};
use crate::cycles::least_on_cycle;
use crate::fault::RegionFault;
use crate::ranks::{do_fall, ranks_of};
use crate::ways::all_ways;
use flow_graph::{Graph, Unit};
use std::alloc::{AllocError, Global};
use std::marker::Model;
use visa_io::Region;

/// Regions that nest in a graph, with what the analyses above go over: the units' addresses, whose places are their numbers, the
/// edges inside functions, and ranks of the units that fall along ways on in all but hopeless cases.
#[derive(Debug, Drop)]
pub struct Nest {
    regions: Vec<Region>,
    addresses: Vec<u32>,
    ways: Vec<Way>,
    ranks: Vec<usize>,
}

impl Model for Nest {
    ghost use Rattle.loop_regions.specs.Nested.{Numbered};

    ghost Value = { Numbered };

    ghost use Rattle.loop_regions.specs.NestView.{numbered_of};

    ghost view = { numbered_of };
}

impl Nest {
    /// The regions, by rising number.
    pub fn regions(&self) -> &[Region]
        ensures { result.now ≡ self.now.regions }
    {
        self.regions.as_slice()
    }

    /// The addresses of the units, by rising address: a unit's number is its place here.
    pub fn addresses(&self) -> &[u32]
        ensures { result.now ≡ self.now.addresses }
    {
        self.addresses.as_slice()
    }

    /// The edges inside functions, by (from, to, kind).
    pub fn ways(&self) -> &[Way]
        ensures { result.now ≡ self.now.ways }
    {
        self.ways.as_slice()
    }

    /// A rank for each unit, by number: along a way on and from a call to the function called it falls.
    pub fn ranks(&self) -> &[usize]
        ensures { result.now ≡ self.now.ranks }
    {
        self.ranks.as_slice()
    }
}

/// An entry of a region aside from its header.
#[derive(Clone, Copy, Debug, PartialEq, Eq)]
pub(crate) struct Entry {
    pub(crate) r: u32,
    pub(crate) from: u32,
    pub(crate) to: u32,
}

fn first_entry(g: &Graph, regions: &[Region]) -> Option<Entry>
    requires edges { AllPairs NotBack g.now.edges }
    requires functions { IsStrictlyIncreasing g.now.functions }
    requires few { length regions.now < 2 ^ 32 }
    ensures { IsEntry g.now regions.now result }
{
    for k in 0..regions.len() {
        match side_entry(g, &regions[k]) {
            Some(side) => return Some(Entry {
                r: k as u32,
                from: side.from,
                to: side.to,
            }),
            None => {}
        }
    }
    None
}

/// Whether the regions stand beside each other and are entered at their headers alone. Takes no memory.
fn check_nested(g: &Graph, regions: &[Region]) -> Result<(), RegionFault>
    requires edges { AllPairs NotBack g.now.edges }
    requires functions { IsStrictlyIncreasing g.now.functions }
    requires few { length regions.now < 2 ^ 32 }
    ensures { IsNestedAnswer g.now regions.now result }
{
    if let Some(r) = first_crossing(g.units(), regions) {
        return Err(RegionFault::Crossing { r: r + 1 });
    }
    match first_entry(g, regions) {
        Some(entry) => Err(RegionFault::SideEntry {
            r: entry.r + 1,
            from: entry.from,
            to: entry.to,
        }),
        None => Ok(()),
    }
}

fn addresses_in(alloc: Global, units: &[Unit]) -> Result<Vec<u32>, AllocError>
    ensures { IfOk result (λ v. v.items ≡ addresses_of units.now) }
{
    let mut addresses = Vec::new(alloc);
    for unit in units {
        addresses.push(unit.at)?;
    }
    Ok(addresses)
}

fn numbered(alloc: Global, g: &Graph, regions: &[Region]) -> Result<Nest, AllocError>
    requires { IsWhole g.now }
    ensures { IfOk result (λ n. IsNumbered g.now regions.now n) }
{
    let addresses = addresses_in(alloc, g.units())?;
    let ways = all_ways(alloc, g.edges(), addresses.as_slice(), regions)?;
    let ranks = ranks_of(alloc, ways.as_slice(), addresses.len())?;
    Ok(Nest {
        regions: Vec::from_slice(alloc, regions)?,
        addresses,
        ways,
        ranks,
    })
}

/// The number of the least unit on a cycle of ways on. Where ranks fall along all of these there is none.
fn free_cycle(alloc: Global, nest: &Nest) -> Result<Option<usize>, AllocError>
    requires { AreIn (length nest.now.addresses) nest.now.ways }
    ensures { IfOk result (IsLeastOnCycle nest.now.ways (length nest.now.addresses)) }
{
    if do_fall(nest.ways(), nest.ranks()) {
        return Ok(None);
    }
    least_on_cycle(alloc, nest.ways(), nest.addresses().len())
}

/// Whether regions nest in a graph. A region holds the units with addresses from its first to its last.
///
/// # Errors
/// `Crossing`, where a region doesn't hold its header, its header is no unit, or it clashes with an earlier one; `SideEntry`,
/// where control comes into a region elsewhere than at its header; `FreeCycle`, where a cycle of a function is left without the
/// edges back to headers; of the first kind the first fault. `Memory`, and then there is no crossing and no side entry.
pub fn check_regions(alloc: Global, g: &Graph, regions: &[Region]) -> Result<Nest, RegionFault>
    requires whole { IsWhole g.now }
    requires few { length regions.now < 2 ^ 32 }
    ensures { IsAnswer g.now regions.now result }
{
    check_nested(g, regions)?;
    let Ok(nest) = numbered(alloc, g, regions) else {
        return Err(RegionFault::Memory);
    };
    let Ok(cycle) = free_cycle(alloc, &nest) else {
        return Err(RegionFault::Memory);
    };
    match cycle {
        Some(u) => Err(RegionFault::FreeCycle {
            at: nest.addresses()[u],
        }),
        None => Ok(nest),
    }
}
