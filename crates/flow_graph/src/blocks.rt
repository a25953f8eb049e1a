// Where blocks begin.
ghost use Rattle.std.specs.Prelude.{◌≡◌, ◌<◌, ◌∷◌, ◌++◌, All, IfOk, OnOk, length, map};
ghost use Rattle.std.specs.List.{filter};
ghost use Rattle.std.specs.List.Sorted.{IsStrictlyIncreasing};
ghost use Rattle.flow_graph.specs.Blocks as blocks;
ghost use Rattle.flow_graph.specs.Own.{is_among};
ghost use Rattle.flow_graph.specs.Sites.{site_of};

use crate::parts::Unit;
use crate::site::Site;
use crate::table::find;
use crate::ways::target;
use mips_isa::kind;
use std::alloc::{AllocError, Global};

/// Where blocks begin among units: at the entry, at targets and after control instructions.
pub(crate) fn starts(
    alloc: Global,
    sites: &[Site],
    places: &[usize],
    units: &[u32],
    entry: u32,
) -> Result<Vec<u32>, AllocError>
    requires within { All (λ p. p < length sites.now) places.now }
    requires fits { blocks.AllFit sites.now }
    requires rise { IsStrictlyIncreasing units.now }
    ensures { IfOk result (λ starts. blocks.AreInOrder (entry ∷ blocks.starts_upto units.now sites.now places.now (length places.now)) starts.items) }
{
    let mut starts = Vec::new(alloc);
    starts.push(entry)?;
    push_all(&mut starts, sites, places, units)?;
    put_in_order(&mut starts)?;
    Ok(starts)
}

/// These starts, and those of further addresses that are units, by rising address.
pub(crate) fn more_starts(
    alloc: Global,
    units: &[Unit],
    starts: &[u32],
    extra: &[u32],
) -> Result<Vec<u32>, AllocError>
    requires { IsStrictlyIncreasing (map (λ unit. unit.at) units.now) }
    ensures { IfOk result (λ all. blocks.AreInOrder (starts.now ++ filter (is_among (map (λ unit. unit.at) units.now)) extra.now) all.items) }
{
    let units = unit_addresses(alloc, units)?;
    let mut all = Vec::from_slice(alloc, starts)?;
    push_units(&mut all, &units, extra)?;
    put_in_order(&mut all)?;
    Ok(all)
}

fn unit_addresses(alloc: Global, units: &[Unit]) -> Result<Vec<u32>, AllocError>
    ensures { IfOk result (λ addresses. addresses.items ≡ map (λ unit. unit.at) units.now) }
{
    let mut addresses = Vec::new(alloc);
    for unit in units {
        addresses.push(unit.at)?;
    }
    Ok(addresses)
}

// Puts those of some addresses that are units.
fn push_units(starts: &mut Vec<u32>, units: &[u32], extra: &[u32]) -> Result<(), AllocError>
    requires { IsStrictlyIncreasing units.now }
    ensures { OnOk result (starts.new.items ≡ starts.old.items ++ filter (is_among units.now) extra.now) }
{
    for at in extra {
        push_unit(starts, units, u64::from(*at))?;
    }
    Ok(())
}

#[tactic(auto, unfolding(crate::specs::Blocks::starts_upto))]
fn push_all(
    starts: &mut Vec<u32>,
    sites: &[Site],
    places: &[usize],
    units: &[u32],
) -> Result<(), AllocError>
    requires within { All (λ p. p < length sites.now) places.now }
    requires fits { blocks.AllFit sites.now }
    requires rise { IsStrictlyIncreasing units.now }
    ensures { OnOk result (starts.new.items ≡ starts.old.items ++ blocks.starts_upto units.now sites.now places.now (length places.now)) }
{
    for place in places {
        push_starts(starts, sites, *place, units)?;
    }
    Ok(())
}

fn push_starts(
    starts: &mut Vec<u32>,
    sites: &[Site],
    place: usize,
    units: &[u32],
) -> Result<(), AllocError>
    requires within { place < length sites.now }
    requires fits { blocks.AllFit sites.now }
    requires rise { IsStrictlyIncreasing units.now }
    ensures { OnOk result (starts.new.items ≡ starts.old.items ++ blocks.starts_of units.now (site_of sites.now place)) }
{
    let site = sites[place];
    match site.first {
        None => Ok(()),
        Some(first) => {
            push_target(starts, units, target(first, site.at))?;
            push_past(starts, units, kind(first).is_control(), site.at)
        }
    }
}

fn push_target(starts: &mut Vec<u32>, units: &[u32], target: Option<u64>) -> Result<(), AllocError>
    requires { IsStrictlyIncreasing units.now }
    ensures { OnOk result (starts.new.items ≡ starts.old.items ++ blocks.target_start units.now target) }
{
    match target {
        None => Ok(()),
        Some(at) => push_unit(starts, units, at),
    }
}

fn push_past(
    starts: &mut Vec<u32>,
    units: &[u32],
    is_control: bool,
    at: u32,
) -> Result<(), AllocError>
    requires { IsStrictlyIncreasing units.now }
    ensures { OnOk result (starts.new.items ≡ starts.old.items ++ blocks.past_start units.now is_control at) }
{
    if is_control {
        push_unit(starts, units, u64::from(at) + 8)?;
    }
    Ok(())
}

// Puts an address, if it is a unit.
fn push_unit(starts: &mut Vec<u32>, units: &[u32], at: u64) -> Result<(), AllocError>
    requires { IsStrictlyIncreasing units.now }
    ensures { OnOk result (starts.new.items ≡ starts.old.items ++ blocks.start_if units.now at) }
{
    if let Some(k) = find(units, at) {
        starts.push(units[k])?;
    }
    Ok(())
}

/// Sorts addresses, and keeps each once.
pub(crate) fn put_in_order(starts: &mut Vec<u32>) -> Result<(), AllocError>
    ensures ok { OnOk result (blocks.AreInOrder starts.old.items starts.new.items) }
{
    starts.sort()?;
    starts.dedup();
    Ok(())
}
