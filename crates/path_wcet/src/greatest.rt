// The longest legal walk.
ghost use Rattle.loop_regions.specs.Cycles.{AreIn};
ghost use Rattle.loop_regions.specs.Nested.{IsNest, IsWhole};
ghost use Rattle.path_wcet.specs.Known.{is_this};
ghost use Rattle.path_wcet.specs.Longest.{AreCalls, AreCounted, IsAmong, IsLast, IsLongest, IsOpening, IsSmallPen, IsTableOf};
ghost use Rattle.path_wcet.specs.Paths.{AreCounts};
ghost use Rattle.path_wcet.specs.Settled.{AreKnown, AreStops};
ghost use Rattle.path_wcet.specs.Tables.{AreApart};
ghost use Rattle.std.specs.List.Sorted.{IsPermutation, IsStrictlyIncreasing};
ghost use Rattle.std.specs.List.{All};
ghost use Rattle.std.specs.Prelude.{◌≡◌, Contains, IfOk, false, length, replicate, Some};

use crate::ahead::{Aim, Table, settle};
use crate::costs::Costs;
use crate::lists::{CAP, entry_at};
use crate::tables::{edge_costs, first_returns, put_counts, unit_costs};
use crate::turns::{Found, find, or_zero, ways_by_rank};
use flow_graph::{EdgeKind, Graph};
use loop_regions::{Nest, Way, number_of};
use std::alloc::{AllocError, Global};

fn last_of(addresses: &[u32], to: Option<u32>) -> Option<usize>
    requires rise { IsStrictlyIncreasing addresses.now }
    requires among { IsAmong addresses.now to }
    ensures { IsLast addresses.now to result }
{
    match to {
        Some(a) => Some(number_of(addresses, a)),
        None => None,
    }
}

fn counts_of(alloc: Global, n: &Nest) -> Result<Vec<u32>, AllocError>
    requires rise { IsStrictlyIncreasing n.now.addresses }
    requires headers { All (λ r. Contains n.now.addresses r.header) n.now.regions }
    requires apart { AreApart n.now.regions }
    ensures { IfOk result (λ v. AreCounts n.now v.items) }
{
    let mut counts = vec![in alloc; 0; n.addresses().len()]?;
    put_counts(n.addresses(), n.regions(), counts.as_mut_slice());
    Ok(counts)
}

/// The table of a graph.
fn table_of(
    alloc: Global,
    g: &Graph,
    n: &Nest,
    costs: &Costs,
    to: Option<u32>,
) -> Result<Table, AllocError>
    requires rise { IsStrictlyIncreasing n.now.addresses }
    requires among { IsAmong n.now.addresses to }
    requires headers { All (λ r. Contains n.now.addresses r.header) n.now.regions }
    requires apart { AreApart n.now.regions }
    ensures { IfOk result (IsTableOf g.now n.now costs.now to) }
{
    Ok(Table {
        units: unit_costs(alloc, g.units(), costs, to)?,
        next: edge_costs(alloc, g.units(), EdgeKind::Next)?,
        taken: edge_costs(alloc, g.units(), EdgeKind::Taken)?,
        counts: counts_of(alloc, n)?,
        ends: first_returns(alloc, g.units(), to)?,
        last: last_of(n.addresses(), to),
    })
}

fn starts(alloc: Global, n: usize) -> Result<Vec<Option<u64>>, AllocError>
    ensures { IfOk result (λ v. v.items ≡ replicate n (Some 0)) }
{
    vec![in alloc; Some(0); n]
}

/// What is ahead of each unit that may stop anywhere.
fn stops_of(
    alloc: Global,
    table: &Table,
    n: &Nest,
    found: &Found,
    ways: &[Way],
) -> Result<Vec<Option<u64>>, AllocError>
    requires inside { AreIn (length n.now.addresses) ways.now }
    requires ways { IsPermutation n.now.ways ways.now }
    ensures { IfOk result (λ v. AreStops table.now n.now found.now.turns.items found.now.rets.items v.items) }
{
    let mut stops = starts(alloc, n.addresses().len())?;
    settle(
        table,
        Aim::Stop,
        found.turns.as_slice(),
        found.rets.as_slice(),
        ways,
        0,
        stops.as_mut_slice(),
    );
    Ok(stops)
}

/// The greatest cost of the legal walks that begin at `from` and stop where they come to `to`, whose own cost doesn't count, up to
/// 10^18: some legal walk costs so much, or it is 10^18 and one costs at least that; and no legal walk costs more, where it is below
/// 10^18. `n` is a nest of this graph, and `from` lies in no region aside from its header. This project's own.
pub fn longest(
    alloc: Global,
    g: &Graph,
    n: &Nest,
    from: u32,
    to: Option<u32>,
    costs: &Costs,
) -> Result<u64, AllocError>
    requires whole { IsWhole g.now }
    requires calls { AreCalls g.now }
    requires nest { IsNest g.now n.now }
    requires counted { AreCounted n.now.regions }
    requires small { IsSmallPen costs.now.pen }
    requires among { Contains n.now.addresses from }
    requires opening { IsOpening n.now from }
    requires target { IsAmong n.now.addresses to }
    requires other { is_this to from ≡ false }
    ensures { IfOk result (IsLongest g.now n.now costs.now from to) }
{
    let table = table_of(alloc, g, n, costs, to)?;
    let ways = ways_by_rank(alloc, n)?;
    let found = find(alloc, &table, n, ways.as_slice())?;
    let stops = stops_of(alloc, &table, n, &found, ways.as_slice())?;
    let u = number_of(n.addresses(), from);
    let ahead = or_zero(entry_at(0, stops.as_slice(), u));
    Ok((table.unit(u) + table.laps(found.turns.as_slice(), u) + ahead).min(CAP))
}
