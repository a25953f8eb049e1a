// The instructions of a scope.
ghost use Rattle.std.specs.Prelude.{◌≡◌, ◌<◌, ◌≤◌, ◌++◌, ℕ, map, length, slice_index, IfOk, OnOk};
ghost use Rattle.std.specs.List.Sorted.{IsStrictlyIncreasing};
ghost use Rattle.persistence.specs.Counts.{IsNarrowed};
ghost use Rattle.persistence.specs.Charges.{addresses_in, addresses_of, has_slot, is_long_in};

use flow_graph::{Graph, Unit};
use std::alloc::{AllocError, Global};

/// The addresses of the instructions of a scope's units, unit by unit.
pub(crate) fn addresses_of(alloc: Global, g: &Graph, scope: &[u32]) -> Result<Vec<u64>, AllocError>
    requires { IsStrictlyIncreasing (map (λ unit. unit.at) g.now.units) }
    ensures { IfOk result (λ addresses. addresses.items ≡ addresses_of g.now scope.now) }
{
    let mut addresses = Vec::new(alloc);
    for u in scope {
        push_unit(&mut addresses, *u, has_slot(g.units(), *u))?;
    }
    Ok(addresses)
}

fn push_unit(addresses: &mut Vec<u64>, u: u32, has_slot: bool) -> Result<(), AllocError>
    ensures { OnOk result (addresses.new.items ≡ addresses.old.items ++ addresses_in has_slot u) }
{
    let at = u64::from(u);
    addresses.push(at)?;
    if has_slot {
        addresses.push(at + 4)?;
    }
    Ok(())
}

/// Whether a unit has a delay slot; the units stand by rising address.
fn has_slot(units: &[Unit], u: u32) -> bool
    requires { IsStrictlyIncreasing (map (λ unit. unit.at) units.now) }
    ensures { result ≡ is_long_in units.now u }
{
    let place = place_of(units, u);
    if place < units.len() && units[place].at == u {
        units[place].length == 8
    } else {
        false
    }
}

// How many units stand before an address.
fn place_of(units: &[Unit], u: u32) -> usize
    requires { IsStrictlyIncreasing (map (λ unit. unit.at) units.now) }
    ensures { IsNarrowed (map (λ unit. unit.at) units.now) u result result }
{
    let mut low = 0;
    let mut high = units.len();
    while low < high {
        let middle = low + (high - low) / 2;
        if units[middle].at < u {
            low = middle + 1;
        } else {
            high = middle;
        }
    }
    low
}
