// The faults that units have by themselves, and the least of each kind.
ghost use Rattle.std.specs.Prelude.{◌≡◌, ◌<◌, ◌+◌, All, length};
ghost use Rattle.std.specs.List.Sorted.{IsStrictlyIncreasing};
ghost use Rattle.flow_graph.specs.Code.{passes};
ghost use Rattle.flow_graph.specs.Faults as unit;
ghost use Rattle.flow_graph.specs.Own as own;
ghost use Rattle.flow_graph.specs.Sites.{site_of};

use crate::fault::FlowFault;
use crate::site::{Site, Slot};
use crate::table::find;
use crate::ways::{is_indirect, is_link_branch};
use mips_isa::{Instr, kind};

/// The kinds of faults that a unit has by itself, in the order in which they are told.
#[derive(Clone, Copy, Debug, PartialEq, Eq)]
pub(crate) enum Flaw {
    Reserved,
    Indirect,
    LinkBranch,
    SlotControl,
    SlotTarget,
    OffCode,
}

impl Flaw {
    fn told(self, at: Option<u32>) -> Option<FlowFault>
        ensures { result ≡ own.told_as self at }
    {
        match at {
            None => None,
            Some(at) => Some(self.at(at)),
        }
    }

    fn at(self, at: u32) -> FlowFault
        ensures { result ≡ own.fault_of self at }
    {
        match self {
            Flaw::Reserved => FlowFault::Reserved { at },
            Flaw::Indirect => FlowFault::Indirect { at },
            Flaw::LinkBranch => FlowFault::LinkBranch { at },
            Flaw::SlotControl => FlowFault::SlotControl { at },
            Flaw::SlotTarget => FlowFault::SlotTarget { at },
            Flaw::OffCode => FlowFault::OffCode { at },
        }
    }
}

/// The first kind of these faults that the sites at some places have, at its least address. `units` are the addresses of these
/// places.
pub(crate) fn first_fault(sites: &[Site], places: &[usize], units: &[u32]) -> Option<FlowFault>
    requires within { All (λ p. p < length sites.now) places.now }
    requires rise { IsStrictlyIncreasing units.now }
    ensures { result ≡ own.first_fault_of sites.now places.now units.now }
{
    least(sites, places, units, Flaw::Reserved)
        .or(least(sites, places, units, Flaw::Indirect))
        .or(least(sites, places, units, Flaw::LinkBranch))
        .or(least(sites, places, units, Flaw::SlotControl))
        .or(least(sites, places, units, Flaw::SlotTarget))
        .or(least(sites, places, units, Flaw::OffCode))
}

// A fault of one kind, at its least address.
fn least(sites: &[Site], places: &[usize], units: &[u32], flaw: Flaw) -> Option<FlowFault>
    requires within { All (λ p. p < length sites.now) places.now }
    requires rise { IsStrictlyIncreasing units.now }
    ensures { result ≡ own.least_of sites.now places.now units.now flaw }
{
    flaw.told(least_address(sites, places, units, flaw))
}

#[tactic(auto, unfolding(crate::specs::Own::least_upto))]
fn least_address(sites: &[Site], places: &[usize], units: &[u32], flaw: Flaw) -> Option<u32>
    requires within { All (λ p. p < length sites.now) places.now }
    requires rise { IsStrictlyIncreasing units.now }
    ensures { result ≡ own.least_upto sites.now places.now units.now flaw (length places.now) }
{
    let mut best = None;
    for place in places {
        best = lesser(best, told_at(sites, *place, units, flaw));
    }
    best
}

fn told_at(sites: &[Site], place: usize, units: &[u32], flaw: Flaw) -> Option<u32>
    requires within { place < length sites.now }
    requires rise { IsStrictlyIncreasing units.now }
    ensures { result ≡ own.told_of units.now flaw (site_of sites.now place) }
{
    told(sites[place], units, flaw)
}

fn lesser(best: Option<u32>, other: Option<u32>) -> Option<u32>
    ensures { result ≡ own.lesser best other }
{
    match (best, other) {
        (Some(a), Some(b)) => Some(a.min(b)),
        (Some(a), None) => Some(a),
        (None, b) => b,
    }
}

// Where the site has the fault.
fn told(site: Site, units: &[u32], flaw: Flaw) -> Option<u32>
    requires { IsStrictlyIncreasing units.now }
    ensures { result ≡ own.told_of units.now flaw site }
{
    match flaw {
        Flaw::Reserved => reserved(site),
        Flaw::Indirect => at_if(site.at, passes_indirect(site.first)),
        Flaw::LinkBranch => at_if(site.at, passes_link_branch(site.first)),
        Flaw::SlotControl => slot_if(site.at, holds_control(site.slot)),
        Flaw::SlotTarget => slot_if(site.at, has_slot(site.slot) && is_slot_unit(units, site.at)),
        Flaw::OffCode => at_if(site.at, site.leaves),
    }
}

fn at_if(at: u32, test: bool) -> Option<u32>
    ensures { result ≡ own.at_if at test }
{
    if test { Some(at) } else { None }
}

fn slot_if(at: u32, test: bool) -> Option<u32>
    ensures { result ≡ own.slot_if at test }
{
    if test { at.checked_add(4) } else { None }
}

fn reserved(site: Site) -> Option<u32>
    ensures { result ≡ own.reserved_of site }
{
    match site.first {
        None => Some(site.at),
        Some(_) => slot_if(site.at, is_reserved(site.slot)),
    }
}

fn is_reserved(slot: Slot) -> bool
    ensures { result ≡ own.is_reserved_slot slot }
{
    matches!(slot, Slot::Reserved)
}

fn has_slot(slot: Slot) -> bool
    ensures { result ≡ own.has_slot slot }
{
    !matches!(slot, Slot::Absent)
}

fn holds_control(slot: Slot) -> bool
    ensures { result ≡ own.holds_control slot }
{
    match slot {
        Slot::Holds(i) => kind(i).is_control(),
        _ => false,
    }
}

fn is_slot_unit(units: &[u32], at: u32) -> bool
    requires { IsStrictlyIncreasing units.now }
    ensures { result ≡ own.is_among units.now (at + 4) }
{
    find(units, u64::from(at) + 4).is_some()
}

fn passes_indirect(first: Option<Instr>) -> bool
    ensures { result ≡ passes unit.is_indirect first }
{
    match first {
        None => false,
        Some(i) => is_indirect(i),
    }
}

fn passes_link_branch(first: Option<Instr>) -> bool
    ensures { result ≡ passes unit.is_link_branch first }
{
    match first {
        None => false,
        Some(i) => is_link_branch(i),
    }
}
