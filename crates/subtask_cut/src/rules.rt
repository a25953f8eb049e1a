// The rules that each cut keeps.
ghost use Rattle.loop_regions.specs.Nested.{IsNest, IsWhole};
ghost use Rattle.loop_regions.specs.Ways.{addresses_of};
ghost use Rattle.std.specs.List.Sorted.{IsStrictlyIncreasing};
ghost use Rattle.std.specs.Prelude.{◌≡◌, ◌≢◌, ◌<◌, ◌+◌, ◌^◌, [], ◌⊎◌, ℕ, Contains, IfOk, Some, length, slice_index, slice_index_or, take};
ghost use Rattle.subtask_cut.specs.Asked.{DoesReturn, HasFunctions, IsFaultOf, IsFaultOfAll, IsOther};
ghost use Rattle.subtask_cut.specs.Cuts.{IsBypassed, IsInCallee, IsInRegion, IsOutOfOrder, IsReachedWithout, IsReturn};
ghost use Rattle.subtask_cut.specs.Search.{AreMarked, SaysWhether, IsOn};
ghost use Rattle.subtask_cut.specs.Ways.{units_of};
ghost use Rattle.flow_graph.specs.Reached.{is_inner};
ghost use Rattle.flow_graph.specs.declared.parts.Unit.{Unit as FlowUnit};
ghost use Rattle.mips_isa.specs.Kinds.{kind_of};
ghost use Rattle.mips_isa.specs.declared.instr.Kind.TheVariants as kind_names;

use crate::CutFault;
use crate::search::{Along, is_marked, search};
use flow_graph::{Graph, Unit};
use loop_regions::Nest;
use mips_isa::{Kind, kind};
use std::alloc::{AllocError, Global};
use visa_io::Region;

/// Whether an address is one of some rising ones.
pub(crate) fn is_one_of(addresses: &[u32], a: u32) -> bool
    requires { IsStrictlyIncreasing addresses.now }
    ensures { SaysWhether result (Contains addresses.now a) }
{
    addresses.binary_search(&a).is_ok()
}

/// Whether a unit is one of the entry's function.
fn is_own(g: &Graph, c: u32) -> bool
    requires functions { HasFunctions g.now }
    requires rise { IsStrictlyIncreasing g.now.functions }
    ensures { SaysWhether result (Contains (units_of g.now g.now.entry) c) }
{
    match g.functions().binary_search(&g.entry()) {
        Ok(f) => is_one_of(g.function_units(f), c),
        Err(_) => false,
    }
}

/// Whether a unit is one of this function, and that is another than the entry's.
fn is_of_other(g: &Graph, f: usize, c: u32) -> bool
    requires functions { HasFunctions g.now }
    requires below { f < length g.now.functions }
    ensures { SaysWhether result (IsOther g.now f c) }
{
    g.functions()[f] != g.entry() && is_one_of(g.function_units(f), c)
}

/// Whether a unit is one of another function than the entry's.
fn is_of_another(g: &Graph, c: u32) -> bool
    requires functions { HasFunctions g.now }
    requires rise { IsStrictlyIncreasing g.now.functions }
    ensures { SaysWhether result ((f : ℕ) × (f ≢ g.now.entry) × Contains (units_of g.now f) c) }
{
    for f in 0..g.functions().len() {
        if is_of_other(g, f, c) {
            return true;
        }
    }
    false
}

fn is_in_callee(g: &Graph, c: u32) -> bool
    requires functions { HasFunctions g.now }
    requires rise { IsStrictlyIncreasing g.now.functions }
    ensures { SaysWhether result (IsInCallee g.now c) }
{
    !is_own(g, c) || is_of_another(g, c)
}

fn is_in_region(regions: &[Region], c: u32) -> bool
    ensures { SaysWhether result (IsInRegion regions.now c) }
{
    regions.iter().any(|r| r.first <= c && c <= r.last)
}

/// Marks the units that the entry's function reaches without another.
fn marked_without(alloc: Global, g: &Graph, n: &Nest, other: u32) -> Result<Vec<bool>, AllocError>
    requires whole { IsWhole g.now }
    requires functions { HasFunctions g.now }
    requires nest { IsNest g.now n.now }
    ensures { IfOk result (λ marks. AreMarked n.now.addresses g.now.edges is_inner (Some other) g.now.entry marks.items) }
{
    search(
        alloc,
        n.addresses(),
        g.edges(),
        Along::Inside,
        Some(other),
        g.entry(),
    )
}

/// Whether the entry's function reaches a unit without another.
fn is_reached_without(
    alloc: Global,
    g: &Graph,
    n: &Nest,
    other: u32,
    u: u32,
) -> Result<bool, AllocError>
    requires whole { IsWhole g.now }
    requires functions { HasFunctions g.now }
    requires nest { IsNest g.now n.now }
    ensures { IfOk result (λ b. SaysWhether b (IsReachedWithout g.now other u)) }
{
    let marks = marked_without(alloc, g, n, other)?;
    Ok(is_marked(n.addresses(), marks.as_slice(), u))
}

/// Whether cut number `k`, counted from 0, is one of those before.
fn is_again(cuts: &[u32], k: usize) -> bool
    requires { k < length cuts.now }
    ensures { SaysWhether result (Contains (take k cuts.now) (slice_index cuts.now k)) }
{
    cuts[..k].contains(&cuts[k])
}

fn is_out_of_order(
    alloc: Global,
    g: &Graph,
    n: &Nest,
    cuts: &[u32],
    k: usize,
) -> Result<bool, AllocError>
    requires whole { IsWhole g.now }
    requires functions { HasFunctions g.now }
    requires nest { IsNest g.now n.now }
    requires below { k < length cuts.now }
    ensures { IfOk result (λ b. SaysWhether b (IsOutOfOrder g.now cuts.now (k + 2) (slice_index cuts.now k))) }
{
    if cuts[k] == g.entry() {
        return Ok(true);
    }
    if is_again(cuts, k) {
        return Ok(true);
    }
    if k == 0 {
        return Ok(false);
    }
    is_reached_without(alloc, g, n, cuts[k - 1], cuts[k])
}

fn returns(unit: &Unit) -> bool
    ensures { SaysWhether result (kind_of unit.now.first ≡ kind_names.Return) }
{
    matches!(kind(unit.first), Kind::Return)
}

/// Whether one of these units returns and is marked.
fn does_return(units: &[Unit], addresses: &[u32], marks: &[bool]) -> bool
    requires rise { IsStrictlyIncreasing addresses.now }
    requires beside { length marks.now ≡ length addresses.now }
    ensures { SaysWhether result (DoesReturn units.now addresses.now marks.now) }
{
    units.iter().any(|unit| returns(unit) && is_marked(addresses, marks, unit.at))
}

fn is_bypassed(alloc: Global, g: &Graph, n: &Nest, c: u32) -> Result<bool, AllocError>
    requires whole { IsWhole g.now }
    requires functions { HasFunctions g.now }
    requires nest { IsNest g.now n.now }
    ensures { IfOk result (λ b. SaysWhether b (IsBypassed g.now c)) }
{
    let marks = marked_without(alloc, g, n, c)?;
    Ok(does_return(g.units(), n.addresses(), marks.as_slice()))
}

/// The first fault of cut number `k`, counted from 0.
fn fault_of(
    alloc: Global,
    g: &Graph,
    n: &Nest,
    cuts: &[u32],
    k: usize,
) -> Result<Option<CutFault>, AllocError>
    requires whole { IsWhole g.now }
    requires functions { HasFunctions g.now }
    requires nest { IsNest g.now n.now }
    requires few { length cuts.now < 2 ^ 31 }
    requires below { k < length cuts.now }
    ensures { IfOk result (IsFaultOf g.now n.now.regions cuts.now (k + 2)) }
{
    let i = k as u32 + 2;
    if !is_one_of(n.addresses(), cuts[k]) {
        return Ok(Some(CutFault::Slot { i }));
    }
    if is_in_callee(g, cuts[k]) {
        return Ok(Some(CutFault::InCallee { i }));
    }
    if is_in_region(n.regions(), cuts[k]) {
        return Ok(Some(CutFault::InRegion { i }));
    }
    if is_out_of_order(alloc, g, n, cuts, k)? {
        return Ok(Some(CutFault::Order { i }));
    }
    if is_bypassed(alloc, g, n, cuts[k])? {
        return Ok(Some(CutFault::Bypassed { i }));
    }
    Ok(None)
}

/// The first fault of all cuts.
pub(crate) fn first_fault(
    alloc: Global,
    g: &Graph,
    n: &Nest,
    cuts: &[u32],
) -> Result<Option<CutFault>, AllocError>
    requires whole { IsWhole g.now }
    requires functions { HasFunctions g.now }
    requires nest { IsNest g.now n.now }
    requires few { length cuts.now < 2 ^ 31 }
    ensures { IfOk result (IsFaultOfAll g.now n.now.regions cuts.now) }
{
    for k in 0..cuts.len() {
        if let Some(fault) = fault_of(alloc, g, n, cuts, k)? {
            return Ok(Some(fault));
        }
    }
    Ok(None)
}
