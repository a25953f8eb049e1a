// Sub-tasks: where they begin, and the units of each.
ghost use Rattle.loop_regions.specs.Nested.{IsNest, IsWhole};
ghost use Rattle.loop_regions.specs.Ways.{addresses_of};
ghost use Rattle.std.specs.Prelude.{◌≡◌, ◌≤◌, ◌<◌, ◌+◌, ◌-◌, ◌^◌, ◌∷◌, [], ℕ, Contains, IfOk, length, map, slice_get, slice_index_or};
ghost use Rattle.subtask_cut.specs.Asked.{AreReached, AreScopes, HasFunctions};
ghost use Rattle.subtask_cut.specs.Cuts.{IsAnswer};

use crate::CutFault;
use crate::rules::first_fault;
use crate::search::{Along, marked, search};
use flow_graph::Graph;
use loop_regions::Nest;
use std::alloc::{AllocError, Global};
use std::marker::Model;

/// Sub-tasks, numbered from 1: where each begins, and the units that control comes to in it.
#[derive(Debug, Drop)]
pub struct Cuts {
    firsts: Vec<u32>,
    scopes: Vec<Vec<u32>>,
}

impl Model for Cuts {
    ghost use Rattle.subtask_cut.specs.Cuts.{SubTasks};

    ghost Value = { SubTasks };

    ghost use Rattle.subtask_cut.specs.CutsView.{sub_tasks_of};

    ghost view = { sub_tasks_of };
}

impl Cuts {
    /// How many sub-tasks there are: one more than cuts.
    pub fn len(&self) -> usize
        ensures { result ≡ length self.now.firsts }
    {
        self.firsts.len()
    }

    /// The address where each sub-task begins: the entry, and the cuts in order.
    pub fn firsts(&self) -> &[u32]
        ensures { result.now ≡ self.now.firsts }
    {
        self.firsts.as_slice()
    }

    /// The units of sub-task number `i`, counted from 1, by rising address.
    pub fn scope(&self, i: usize) -> &[u32]
        requires from_one { 1 ≤ i }
        requires below { i ≤ length self.now.scopes }
        ensures { result.now ≡ slice_index_or self.now.scopes (i - 1) [] }
    {
        self.scopes[i - 1].as_slice()
    }
}

/// The units from a sub-task's first on, up to where the next one begins.
fn scope_of(
    alloc: Global,
    g: &Graph,
    n: &Nest,
    first: u32,
    next: Option<u32>,
) -> Result<Vec<u32>, AllocError>
    requires whole { IsWhole g.now }
    requires nest { IsNest g.now n.now }
    requires among { Contains (addresses_of g.now.units) first }
    ensures { IfOk result (λ us. AreReached g.now.edges next first us.items) }
{
    let marks = search(alloc, n.addresses(), g.edges(), Along::Onward, next, first)?;
    marked(alloc, n.addresses(), marks.as_slice())
}

/// Where the sub-task begins that follows one.
fn after(firsts: &[u32], k: usize) -> Option<u32>
    requires { k < length firsts.now }
    ensures { result ≡ slice_get firsts.now (k + 1) }
{
    firsts.get(k + 1).copied()
}

fn scopes_of(
    alloc: Global,
    g: &Graph,
    n: &Nest,
    firsts: &[u32],
) -> Result<Vec<Vec<u32>>, AllocError>
    requires whole { IsWhole g.now }
    requires nest { IsNest g.now n.now }
    requires among { (a : ℕ) → Contains firsts.now a → Contains (addresses_of g.now.units) a }
    ensures { IfOk result (λ scopes. AreScopes g.now firsts.now (map (λ us. us.items) scopes.items)) }
{
    let mut scopes = Vec::new(alloc);
    for k in 0..firsts.len() {
        scopes.push(scope_of(alloc, g, n, firsts[k], after(firsts, k))?)?;
    }
    Ok(scopes)
}

fn firsts_of(alloc: Global, entry: u32, cuts: &[u32]) -> Result<Vec<u32>, AllocError>
    ensures { IfOk result (λ firsts. firsts.items ≡ entry ∷ cuts.now) }
{
    let mut firsts = Vec::new(alloc);
    firsts.push(entry)?;
    firsts.extend_from_slice(cuts)?;
    Ok(firsts)
}

fn sub_tasks(alloc: Global, g: &Graph, n: &Nest, cuts: &[u32]) -> Result<Cuts, AllocError>
    requires whole { IsWhole g.now }
    requires functions { HasFunctions g.now }
    requires nest { IsNest g.now n.now }
    requires among { (a : ℕ) → Contains cuts.now a → Contains (addresses_of g.now.units) a }
    ensures { IfOk result (λ s. (s.firsts ≡ g.now.entry ∷ cuts.now) × AreScopes g.now s.firsts s.scopes) }
{
    let firsts = firsts_of(alloc, g.entry(), cuts)?;
    let scopes = scopes_of(alloc, g, n, firsts.as_slice())?;
    Ok(Cuts { firsts, scopes })
}

/// The sub-tasks into which a task is cut at these addresses. Sub-task 1 begins at the entry, and cut number i, from 2 on,
/// begins sub-task i. `n` is a nest of this graph.
///
/// # Errors
/// Of the first cut that breaks a rule the first rule broken: `Slot`, where no unit begins there; `InCallee`, where it is no
/// unit of the entry's function, or one of another function too; `InRegion`, where it lies in a loop region; `Order`, where
/// it is the entry or an earlier cut, or the entry's function reaches it without the cut before it; `Bypassed`, where the
/// entry's function returns without it. `Memory` for want of memory, at any time.
pub fn check_cuts(alloc: Global, g: &Graph, n: &Nest, cuts: &[u32]) -> Result<Cuts, CutFault>
    requires whole { IsWhole g.now }
    requires functions { HasFunctions g.now }
    requires nest { IsNest g.now n.now }
    requires few { length cuts.now < 2 ^ 31 }
    ensures { IsAnswer g.now n.now.regions cuts.now result }
{
    let Ok(found) = first_fault(alloc, g, n, cuts) else {
        return Err(CutFault::Memory);
    };
    if let Some(fault) = found {
        return Err(fault);
    }
    match sub_tasks(alloc, g, n, cuts) {
        Ok(cuts) => Ok(cuts),
        Err(_) => Err(CutFault::Memory),
    }
}
