// The lists of a table, from the graph.
ghost use Rattle.path_wcet.specs.Known.{is_this};
ghost use Rattle.path_wcet.specs.Tables.{AreApart, ArePut, IsCountPut, edge_entry, first_entry, return_entry, unit_entry};
ghost use Rattle.std.specs.List.Sorted.{IsStrictlyIncreasing};
ghost use Rattle.std.specs.List.{All};
ghost use Rattle.std.specs.Prelude.{◌≡◌, ◌<◌, ◌-◌, ◌*◌, ◌≤◌, ◌^◌, Contains, IfOk, length, map, min, slice_set};

use crate::costs::{Costs, price, unit_cost};
use crate::lists::{CAP, LIMIT};
use flow_graph::{EdgeKind, Unit};
use loop_regions::number_of;
use mips_isa::{Kind, kind};
use std::alloc::{AllocError, Global};
use visa_io::Region;

fn is_address(o: Option<u32>, a: u32) -> bool
    ensures { result ≡ is_this o a }
{
    match o {
        Some(b) => a == b,
        None => false,
    }
}

fn priced(unit: &Unit, costs: &Costs, to: Option<u32>) -> u64
    ensures { result ≡ unit_entry costs.now to unit.now }
{
    if is_address(to, unit.at) {
        0
    } else {
        unit_cost(unit, costs).min(CAP)
    }
}

/// What each unit costs, up to the cap; nothing where the walk stops.
pub(crate) fn unit_costs(
    alloc: Global,
    units: &[Unit],
    costs: &Costs,
    to: Option<u32>,
) -> Result<Vec<u64>, AllocError>
    ensures { IfOk result (λ v. v.items ≡ map (unit_entry costs.now to) units.now) }
{
    let mut prices = Vec::new(alloc);
    for unit in units {
        prices.push(priced(unit, costs, to))?;
    }
    Ok(prices)
}

/// What the edge of this kind costs that leaves each unit.
pub(crate) fn edge_costs(alloc: Global, units: &[Unit], k: EdgeKind) -> Result<Vec<u64>, AllocError>
    ensures { IfOk result (λ v. v.items ≡ map (edge_entry k) units.now) }
{
    let mut costs = Vec::new(alloc);
    for unit in units {
        costs.push(price(k, unit.first))?;
    }
    Ok(costs)
}

fn entry_of(k: Kind) -> Option<u64>
    ensures { result ≡ return_entry k }
{
    match k {
        Kind::Return => Some(0),
        _ => None,
    }
}

fn first_of(unit: &Unit, to: Option<u32>) -> Option<u64>
    ensures { result ≡ first_entry to unit.now }
{
    if is_address(to, unit.at) {
        None
    } else {
        entry_of(kind(unit.first))
    }
}

/// What is ahead of each unit to a return of its function, before any way is tried: nothing at the returns.
pub(crate) fn first_returns(
    alloc: Global,
    units: &[Unit],
    to: Option<u32>,
) -> Result<Vec<Option<u64>>, AllocError>
    ensures { IfOk result (λ v. v.items ≡ map (first_entry to) units.now) }
{
    let mut rets = Vec::new(alloc);
    for unit in units {
        rets.push(first_of(unit, to))?;
    }
    Ok(rets)
}

/// All laps but the first, up to the limit.
pub(crate) fn laps_cost(count: u32, turn: u64) -> u64
    ensures is { result ≡ min 3000000000000000000 ((count - 1) * turn) }
    ensures within { result ≤ 3000000000000000000 }
{
    let laps = u128::from(count.saturating_sub(1)) * u128::from(turn);
    laps.min(u128::from(LIMIT)) as u64
}

fn set_count(counts: &mut [u32], k: usize, n: u32)
    requires { k < length counts.old }
    ensures beside { length counts.new ≡ length counts.old }
    ensures set { counts.new ≡ slice_set counts.old k n }
{
    counts[k] = n;
}

fn put_count(addresses: &[u32], r: &Region, counts: &mut [u32])
    requires rise { IsStrictlyIncreasing addresses.now }
    requires header { Contains addresses.now r.now.header }
    requires beside { length counts.old ≡ length addresses.now }
    ensures { IsCountPut addresses.now r.now counts.old counts.new }
{
    set_count(counts, number_of(addresses, r.header), r.count);
}

/// How often the region is gone round at most that begins at each unit, whose number it has. `counts` are noughts before.
pub(crate) fn put_counts(addresses: &[u32], regions: &[Region], counts: &mut [u32])
    requires rise { IsStrictlyIncreasing addresses.now }
    requires headers { All (λ r. Contains addresses.now r.header) regions.now }
    requires beside { length counts.old ≡ length addresses.now }
    requires apart { AreApart regions.now }
    ensures beside { length counts.new ≡ length counts.old }
    ensures counts { ArePut addresses.now regions.now counts.new }
{
    for r in regions {
        put_count(addresses, r, counts);
    }
}
