// The units of functions, and the edges of their returns.
ghost use Rattle.std.specs.Prelude.{◌≡◌, ◌<◌, ◌++◌, All, IfOk, OnOk, length, map, slice_index};
ghost use Rattle.flow_graph.specs.FunctionParts as part;
ghost use Rattle.flow_graph.specs.Places.{IsNet};

use crate::build::{addresses_at, reach};
use crate::places::Places;
use crate::search::no_stamps;
use crate::site::Site;
use crate::view::Place;
use mips_isa::{Kind, kind};
use std::alloc::{AllocError, Global};

/// Lists of addresses, one after the other.
#[derive(Debug, Drop)]
pub(crate) struct Parts {
    pub(crate) addresses: Vec<u32>,
    pub(crate) places: Vec<Place>,
}

impl Parts {
    fn new(alloc: Global) -> Parts
        ensures { part.IsEmpty result }
    {
        Parts {
            addresses: Vec::new(alloc),
            places: Vec::new(alloc),
        }
    }

    fn push(&mut self, own: &[u32]) -> Result<(), AllocError>
        ensures { OnOk result (part.Pushes self.old own.now self.new) }
    {
        let start = self.addresses.len();
        self.addresses.extend_from_slice(own)?;
        let end = self.addresses.len();
        self.places.push(Place { start, end })?;
        Ok(())
    }
}

/// The units of each function, and of these the returns.
#[derive(Debug, Drop)]
pub(crate) struct FunctionParts {
    pub(crate) units: Parts,
    pub(crate) returns: Parts,
}

/// The units and the returns of functions.
pub(crate) fn parts_of(
    alloc: Global,
    places: &Places,
    functions: &[usize],
) -> Result<FunctionParts, AllocError>
    requires net { IsNet places.now.net.items }
    requires sites { length places.now.sites.items ≡ length places.now.net.items }
    requires addresses { length places.now.addresses.items ≡ length places.now.net.items }
    requires within { All (λ f. f < length places.now.net.items) functions.now }
    ensures { IfOk result (part.AreParts places.now functions.now (length functions.now)) }
{
    let mut stamps = no_stamps(alloc, places.net.len())?;
    let mut units = Parts::new(alloc);
    let mut returns = Parts::new(alloc);
    for k in 0..functions.len() {
        let found = reach(alloc, &places.net, false, functions[k], &mut stamps, k + 1)?;
        push_units(alloc, &mut units, &places.addresses, &found)?;
        push_returns(alloc, &mut returns, places, &found)?;
    }
    Ok(FunctionParts { units, returns })
}

fn push_units(
    alloc: Global,
    units: &mut Parts,
    addresses: &[u32],
    found: &[usize],
) -> Result<(), AllocError>
    requires { All (λ p. p < length addresses.now) found.now }
    ensures { OnOk result (part.Pushes units.old (map (λ p. slice_index addresses.now p) found.now) units.new) }
{
    let own = addresses_at(alloc, addresses, found)?;
    units.push(&own)
}

fn push_returns(
    alloc: Global,
    returns: &mut Parts,
    places: &Places,
    found: &[usize],
) -> Result<(), AllocError>
    requires addresses { All (λ p. p < length places.now.addresses.items) found.now }
    requires sites { All (λ p. p < length places.now.sites.items) found.now }
    ensures { OnOk result (part.Pushes returns.old (part.returns_upto places.now.addresses.items places.now.sites.items found.now (length found.now)) returns.new) }
{
    let own = returns_at(alloc, &places.addresses, &places.sites, found)?;
    returns.push(&own)
}

// The addresses of the returns among units.
#[tactic(auto, unfolding(crate::specs::FunctionParts::returns_upto))]
fn returns_at(
    alloc: Global,
    addresses: &[u32],
    sites: &[Site],
    places: &[usize],
) -> Result<Vec<u32>, AllocError>
    requires addresses { All (λ p. p < length addresses.now) places.now }
    requires sites { All (λ p. p < length sites.now) places.now }
    ensures { IfOk result (λ found. found.items ≡ part.returns_upto addresses.now sites.now places.now (length places.now)) }
{
    let mut found = Vec::new(alloc);
    for place in places {
        push_if(&mut found, addresses[*place], is_return(sites[*place]))?;
    }
    Ok(found)
}

fn push_if(found: &mut Vec<u32>, at: u32, test: bool) -> Result<(), AllocError>
    ensures { OnOk result (found.new.items ≡ found.old.items ++ part.only_if test at) }
{
    if test {
        found.push(at)?;
    }
    Ok(())
}

fn is_return(site: Site) -> bool
    ensures { result ≡ part.is_return site }
{
    match site.first {
        None => false,
        Some(i) => matches!(kind(i), Kind::Return),
    }
}
