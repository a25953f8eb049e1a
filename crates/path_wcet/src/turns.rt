// What a lap of each region costs, and what is ahead of each unit to a return: raised in rounds, until a round raises nothing.
ghost use Rattle.loop_regions.specs.Cycles.{AreIn};
ghost use Rattle.loop_regions.specs.Walks.{holds};
ghost use Rattle.path_wcet.specs.Known.{IsWithin};
ghost use Rattle.path_wcet.specs.Paths.{AreCounts};
ghost use Rattle.path_wcet.specs.Settled.{AreCircuits, AreRounds, AreTurnsRaised, IsCircuit, IsFound, IsRound, IsTurnOf, IsTurnRaised, or_zero};
ghost use Rattle.std.specs.List.{All, filter};
ghost use Rattle.std.specs.List.Sorted.{IsPermutation, IsStrictlyIncreasing};
ghost use Rattle.std.specs.Prelude.{◌≡◌, ◌<◌, ◌≤◌, Contains, IfOk, OnOk, length, replicate, None};

use crate::ahead::{Aim, Table, settle};
use crate::lists::{entry_at, raise};
use loop_regions::{Nest, Way, number_of};
use std::alloc::{AllocError, Global};
use std::marker::Model;
use visa_io::Region;

/// The ways that leave the units of a region, by rising rank, and the number of its header. The first of these units has the
/// number `base`, and the last one a number below `base + len`.
#[derive(Debug, Drop)]
pub(crate) struct Circuit {
    region: Region,
    header: usize,
    base: usize,
    len: usize,
    ways: Vec<Way>,
}

impl Model for Circuit {
    ghost use Rattle.path_wcet.specs.Settled.{Circuit};

    ghost Value = { Circuit };

    ghost use Rattle.path_wcet.specs.CircuitView.{circuit_of};

    ghost view = { circuit_of };
}

fn is_from(r: &Region, w: &Way) -> bool
    ensures { result ≡ holds r.now w.now.edge.from }
{
    r.first <= w.edge.from && w.edge.from <= r.last
}

/// The ways that leave a region's units.
fn ways_in(alloc: Global, ways: &[Way], r: &Region) -> Result<Vec<Way>, AllocError>
    ensures { IfOk result (λ v. v.items ≡ filter (λ w. holds r.now w.edge.from) ways.now) }
{
    ways.iter()
        .copied()
        .filter(|w| is_from(r, w))
        .collect(alloc)
}

/// The least number of the units that ways leave, and one more than the greatest.
fn span_of(ways: &[Way], units: usize) -> (usize, usize)
    requires { AreIn units ways.now }
    ensures { All (λ w. (result.0 ≤ w.from) × (w.from < result.1)) ways.now }
{
    let mut low = units;
    let mut high = 0;
    for w in ways {
        low = low.min(w.from);
        high = high.max(w.from + 1);
    }
    (low, high)
}

fn circuit_of(alloc: Global, n: &Nest, ways: &[Way], region: Region) -> Result<Circuit, AllocError>
    requires rise { IsStrictlyIncreasing n.now.addresses }
    requires region { Contains n.now.regions region }
    requires header { Contains n.now.addresses region.header }
    requires inside { AreIn (length n.now.addresses) ways.now }
    requires ways { IsPermutation n.now.ways ways.now }
    ensures is { IfOk result (λ c. c.region ≡ region) }
    ensures circuit { IfOk result (IsCircuit n.now) }
{
    let own = ways_in(alloc, ways, &region)?;
    let (base, end) = span_of(own.as_slice(), n.addresses().len());
    Ok(Circuit {
        region,
        header: number_of(n.addresses(), region.header),
        base,
        len: end.saturating_sub(base),
        ways: own,
    })
}

fn rank_at(ranks: &[usize], u: usize) -> usize {
    if u < ranks.len() { ranks[u] } else { 0 }
}

/// The ways by rising rank of the units that they leave.
pub(crate) fn ways_by_rank(alloc: Global, n: &Nest) -> Result<Vec<Way>, AllocError>
    ensures { IfOk result (λ v. IsPermutation n.now.ways v.items) }
{
    let mut ways = Vec::from_slice(alloc, n.ways())?;
    let ranks = n.ranks();
    ways.sort_by_key(|w| rank_at(ranks, w.from))?;
    Ok(ways)
}

/// The regions by rising rank of their headers.
fn regions_by_rank(alloc: Global, n: &Nest) -> Result<Vec<Region>, AllocError>
    ensures { IfOk result (λ v. IsPermutation n.now.regions v.items) }
{
    let mut regions = Vec::from_slice(alloc, n.regions())?;
    let ranks = n.ranks();
    let addresses = n.addresses();
    regions.sort_by_key(|r| rank_at(ranks, place_of(addresses, r.header)))?;
    Ok(regions)
}

fn place_of(addresses: &[u32], a: u32) -> usize {
    match addresses.binary_search(&a) {
        Ok(u) => u,
        Err(u) => u,
    }
}

/// The circuits of regions, in their order.
fn circuits_in(
    alloc: Global,
    n: &Nest,
    ways: &[Way],
    regions: &[Region],
) -> Result<Vec<Circuit>, AllocError>
    requires rise { IsStrictlyIncreasing n.now.addresses }
    requires among { All (λ r. Contains n.now.regions r) regions.now }
    requires headers { All (λ r. Contains n.now.addresses r.header) regions.now }
    requires inside { AreIn (length n.now.addresses) ways.now }
    requires ways { IsPermutation n.now.ways ways.now }
    ensures { IfOk result (λ cs. AreCircuits n.now regions.now cs.items) }
{
    let mut circuits = Vec::new(alloc);
    for r in regions {
        circuits.push(circuit_of(alloc, n, ways, *r)?)?;
    }
    Ok(circuits)
}

/// The circuits of all regions, inner ones first.
pub(crate) fn circuits_of(alloc: Global, n: &Nest, ways: &[Way]) -> Result<Vec<Circuit>, AllocError>
    requires rise { IsStrictlyIncreasing n.now.addresses }
    requires headers { All (λ r. Contains n.now.addresses r.header) n.now.regions }
    requires inside { AreIn (length n.now.addresses) ways.now }
    requires ways { IsPermutation n.now.ways ways.now }
    ensures { IfOk result (λ cs. AreCircuits n.now n.now.regions cs.items) }
{
    let regions = regions_by_rank(alloc, n)?;
    circuits_in(alloc, n, ways, regions.as_slice())
}

fn nones(alloc: Global, n: usize) -> Result<Vec<Option<u64>>, AllocError>
    ensures { IfOk result (λ v. v.items ≡ replicate n None) }
{
    vec![in alloc; None; n]
}

/// A number, or nothing.
pub(crate) fn or_zero(o: Option<u64>) -> u64
    ensures { result ≡ or_zero o }
{
    match o {
        Some(n) => n,
        None => 0,
    }
}

/// What the costliest lap of a region costs, by what is known.
fn turn_of(
    alloc: Global,
    table: &Table,
    turns: &[u64],
    rets: &[Option<u64>],
    c: &Circuit,
) -> Result<u64, AllocError>
    requires { All (IsWithin c.now.base c.now.len) c.now.ways }
    ensures { IfOk result (IsTurnOf table.now turns.now rets.now c.now) }
{
    let mut inner = nones(alloc, c.len)?;
    settle(
        table,
        Aim::Lap(c.region),
        turns,
        rets,
        c.ways.as_slice(),
        c.base,
        inner.as_mut_slice(),
    );
    Ok(or_zero(entry_at(c.base, inner.as_slice(), c.header)))
}

/// Raises what a lap of a region costs. Says whether that was raised.
fn raise_turn(
    alloc: Global,
    table: &Table,
    turns: &mut [u64],
    rets: &[Option<u64>],
    c: &Circuit,
) -> Result<bool, AllocError>
    requires within { All (IsWithin c.now.base c.now.len) c.now.ways }
    requires header { c.now.header < length turns.old }
    ensures { IfOk result (IsTurnRaised table.now turns.old turns.new rets.now c.now) }
{
    let turn = turn_of(alloc, table, turns, rets, c)?;
    Ok(raise(turns, c.header, turn))
}

/// Raises what laps of all regions cost. Says whether any was raised.
fn raise_turns(
    alloc: Global,
    table: &Table,
    turns: &mut [u64],
    rets: &[Option<u64>],
    circuits: &[Circuit],
) -> Result<bool, AllocError>
    requires within { All (λ c. All (IsWithin c.base c.len) c.ways) circuits.now }
    requires headers { All (λ c. c.header < length turns.old) circuits.now }
    ensures { IfOk result (AreTurnsRaised table.now turns.old turns.new rets.now circuits.now) }
{
    let mut changed = false;
    for c in circuits {
        let raised = raise_turn(alloc, table, turns, rets, c)?;
        if raised {
            changed = true;
        }
    }
    Ok(changed)
}

/// One round: what is ahead of each unit to a return, and then what laps of all regions cost. Says whether anything was raised.
fn round(
    alloc: Global,
    table: &Table,
    turns: &mut [u64],
    rets: &mut [Option<u64>],
    ways: &[Way],
    circuits: &[Circuit],
) -> Result<bool, AllocError>
    requires ways { AreIn (length rets.old) ways.now }
    requires within { All (λ c. All (IsWithin c.base c.len) c.ways) circuits.now }
    requires headers { All (λ c. c.header < length turns.old) circuits.now }
    ensures { IfOk result (IsRound table.now ways.now circuits.now turns.old turns.new rets.old rets.new) }
{
    let known = Vec::from_slice(alloc, rets)?;
    let back = settle(table, Aim::Return, turns, known.as_slice(), ways, 0, rets);
    let laps = raise_turns(alloc, table, turns, rets, circuits)?;
    Ok(back || laps)
}

fn rounds(
    alloc: Global,
    table: &Table,
    turns: &mut [u64],
    rets: &mut [Option<u64>],
    ways: &[Way],
    circuits: &[Circuit],
) -> Result<(), AllocError>
    requires ways { AreIn (length rets.old) ways.now }
    requires within { All (λ c. All (IsWithin c.base c.len) c.ways) circuits.now }
    requires headers { All (λ c. c.header < length turns.old) circuits.now }
    ensures { OnOk result (AreRounds table.now ways.now circuits.now turns.old turns.new rets.old rets.new) }
{
    while round(alloc, table, turns, rets, ways, circuits)? {}
    Ok(())
}

/// What a lap of each region costs, by the number of its header, and what is ahead of each unit to a return.
#[derive(Drop)]
pub(crate) struct Found {
    pub(crate) turns: Vec<u64>,
    pub(crate) rets: Vec<Option<u64>>,
}

/// What is found when a round raises nothing.
pub(crate) fn find(
    alloc: Global,
    table: &Table,
    n: &Nest,
    ways: &[Way],
) -> Result<Found, AllocError>
    requires rise { IsStrictlyIncreasing n.now.addresses }
    requires headers { All (λ r. Contains n.now.addresses r.header) n.now.regions }
    requires inside { AreIn (length n.now.addresses) ways.now }
    requires ways { IsPermutation n.now.ways ways.now }
    requires ends { length table.now.ends ≡ length n.now.addresses }
    requires counts { AreCounts n.now table.now.counts }
    ensures { IfOk result (λ f. IsFound table.now n.now f.turns.items f.rets.items) }
{
    let circuits = circuits_of(alloc, n, ways)?;
    let mut turns = noughts(alloc, n.addresses().len())?;
    let mut rets = Vec::from_slice(alloc, table.ends.as_slice())?;
    rounds(
        alloc,
        table,
        turns.as_mut_slice(),
        rets.as_mut_slice(),
        ways,
        circuits.as_slice(),
    )?;
    Ok(Found { turns, rets })
}

fn noughts(alloc: Global, n: usize) -> Result<Vec<u64>, AllocError>
    ensures { IfOk result (λ v. v.items ≡ replicate n 0) }
{
    vec![in alloc; 0; n]
}
