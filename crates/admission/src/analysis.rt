// The analysis of a task, condition by condition.
ghost use Rattle.std.specs.Prelude.{◌≡◌, ◌<◌, ◌+◌, ◌++◌, IfErr, IfOk, Ok, OnOk, length, map};
ghost use Rattle.admission.specs.Analysing.{AreCounted, AreCountedTo, AreKept, AreNested, ArePassed, cut_refusal as cut_refusal_lem, fact_refusal as fact_refusal_lem, flow_refusal as flow_refusal_lem, region_refusal as region_refusal_lem};
ghost use Rattle.admission.specs.Found.{HasGraph, extra_starts as extra_starts_lem};
ghost use Rattle.admission.specs.Refused.{IsRefused};
ghost use Rattle.bound_checker.specs.Gone.{mask_in};
ghost use Rattle.flow_graph.specs.Code.{IsCode};
ghost use Rattle.flow_graph.specs.Flow.{IsFlow};
ghost use Rattle.task_text.specs.Limits.{KeepsLimits};

use crate::refusal::Refusal;
use bound_checker::{FactFault, Proved, check_count, check_facts};
use flow_graph::{FlowFault, Graph, graph};
use loop_regions::{Nest, RegionFault, check_regions};
use range_facts::opening_facts;
use std::alloc::{AllocError, Global};
use subtask_cut::{CutFault, Cuts, check_cuts};
use task_text::Task;
use visa_io::{Code, FactLine};

fn flow_refusal(fault: FlowFault) -> Refusal
    ensures { result ≡ flow_refusal_lem fault }
{
    match fault {
        FlowFault::Memory => Refusal::Memory,
        fault => Refusal::Flow(fault),
    }
}

fn region_refusal(fault: RegionFault) -> Refusal
    ensures { result ≡ region_refusal_lem fault }
{
    match fault {
        RegionFault::Memory => Refusal::Memory,
        fault => Refusal::Region(fault),
    }
}

fn fact_refusal(fault: FactFault) -> Refusal
    ensures { result ≡ fact_refusal_lem fault }
{
    match fault {
        FactFault::Memory => Refusal::Memory,
        fault => Refusal::Fact(fault),
    }
}

fn cut_refusal(fault: CutFault) -> Refusal
    ensures { result ≡ cut_refusal_lem fault }
{
    match fault {
        CutFault::Memory => Refusal::Memory,
        fault => Refusal::Cut(fault),
    }
}

// Where blocks begin beside the starts of the code's own.
fn extra_starts(alloc: Global, task: &Task) -> Result<Vec<u32>, AllocError>
    ensures { IfOk result (λ v. v.items ≡ extra_starts_lem task.now) }
{
    let mut starts = Vec::from_slice(alloc, task.cuts.as_slice())?;
    push_addresses(&mut starts, task.facts.as_slice())?;
    Ok(starts)
}

fn push_addresses(starts: &mut Vec<u32>, facts: &[FactLine]) -> Result<(), AllocError>
    ensures { OnOk result (starts.new.items ≡ starts.old.items ++ map (λ f. f.at) facts.now) }
{
    for fact in facts {
        starts.push(fact.at)?;
    }
    Ok(())
}

// A graph, with blocks that begin at cuts and facts too.
fn with_starts(
    alloc: Global,
    task: &Task,
    code: &Code,
    entry: u32,
    g: Graph,
) -> Result<Graph, AllocError>
    requires { IsFlow code.now entry (Ok g) }
    ensures { IfOk result (HasGraph task.now code.now entry) }
{
    let _ = code;
    let _ = entry;
    let mut g = g;
    let starts = extra_starts(alloc, task)?;
    g.graph_blocks(alloc, starts.as_slice())?;
    Ok(g)
}

// The graph of the code.
fn graph_of(alloc: Global, task: &Task, code: &Code, entry: u32) -> Result<Graph, Refusal>
    requires { IsCode code.now }
    ensures ok { IfOk result (HasGraph task.now code.now entry) }
    ensures refused { IfErr result (IsRefused task.now code.now entry) }
{
    match graph(alloc, code, entry) {
        Err(fault) => Err(flow_refusal(fault)),
        Ok(g) => with_starts(alloc, task, code, entry, g).map_err(|_| Refusal::Memory),
    }
}

// The nest of the regions.
fn nest_of(alloc: Global, task: &Task, code: &Code, entry: u32, g: &Graph) -> Result<Nest, Refusal>
    requires limits { KeepsLimits task.now }
    requires graph { HasGraph task.now code.now entry g.now }
    ensures ok { IfOk result (AreNested task.now code.now entry g.now) }
    ensures refused { IfErr result (IsRefused task.now code.now entry) }
{
    let _ = code;
    let _ = entry;
    match check_regions(alloc, g, task.regions.as_slice()) {
        Ok(n) => Ok(n),
        Err(fault) => Err(region_refusal(fault)),
    }
}

// The facts, which are kept along every edge.
fn facts_of(
    alloc: Global,
    task: &Task,
    code: &Code,
    entry: u32,
    g: &Graph,
    n: &Nest,
) -> Result<Proved, Refusal>
    requires limits { KeepsLimits task.now }
    requires code { IsCode code.now }
    requires nested { AreNested task.now code.now entry g.now n.now }
    ensures ok { IfOk result (AreKept task.now code.now entry g.now n.now) }
    ensures refused { IfErr result (IsRefused task.now code.now entry) }
{
    let _ = entry;
    let _ = n;
    let opening = opening_facts(task.input_at, task.input_len, task.stack);
    match check_facts(alloc, g, code, task.facts.as_slice(), &opening) {
        Ok(p) => Ok(p),
        Err(fault) => Err(fact_refusal(fault)),
    }
}

// The count of region number `k`, from 0, after those before it.
fn check_one(
    task: &Task,
    code: &Code,
    entry: u32,
    g: &Graph,
    n: &Nest,
    p: &mut Proved,
    k: usize,
) -> Result<(), Refusal>
    requires limits { KeepsLimits task.now }
    requires code { IsCode code.now }
    requires region { k < length task.now.regions }
    requires before { AreCountedTo task.now code.now entry g.now n.now k p.old }
    ensures ok { OnOk result (AreCountedTo task.now code.now entry g.now n.now (k + 1) p.new) }
    ensures refused { IfErr result (IsRefused task.now code.now entry) }
{
    let _ = entry;
    match check_count(p, g, n, code, task.facts.as_slice(), k) {
        Ok(()) => Ok(()),
        Err(fault) => Err(Refusal::Loop(fault)),
    }
}

// The counts of all regions.
fn check_counts(
    task: &Task,
    code: &Code,
    entry: u32,
    g: &Graph,
    n: &Nest,
    p: &mut Proved,
) -> Result<(), Refusal>
    requires limits { KeepsLimits task.now }
    requires code { IsCode code.now }
    requires kept { AreKept task.now code.now entry g.now n.now p.old }
    ensures ok { OnOk result (AreCountedTo task.now code.now entry g.now n.now (length task.now.regions) p.new) }
    ensures refused { IfErr result (IsRefused task.now code.now entry) }
{
    for k in 0..task.regions.len() {
        check_one(task, code, entry, g, n, p, k)?;
    }
    Ok(())
}

// The sub-tasks of the cuts.
fn cuts_of(
    alloc: Global,
    task: &Task,
    code: &Code,
    entry: u32,
    g: &Graph,
    n: &Nest,
    p: &Proved,
) -> Result<Cuts, Refusal>
    requires limits { KeepsLimits task.now }
    requires counted { AreCountedTo task.now code.now entry g.now n.now (length task.now.regions) p.now }
    ensures ok { IfOk result (ArePassed task.now code.now entry g.now n.now) }
    ensures refused { IfErr result (IsRefused task.now code.now entry) }
{
    let _ = code;
    let _ = entry;
    let _ = p;
    match check_cuts(alloc, g, n, task.cuts.as_slice()) {
        Ok(cuts) => Ok(cuts),
        Err(fault) => Err(cut_refusal(fault)),
    }
}

/// What the analysis finds in code: its graph, the nest of its regions, and its sub-tasks.
#[derive(Debug, Drop)]
pub(crate) struct Findings {
    pub(crate) graph: Graph,
    pub(crate) nest: Nest,
    pub(crate) cuts: Cuts,
}

/// The analysis of a task's code, or the first condition that fails.
pub(crate) fn analysed(
    alloc: Global,
    task: &Task,
    code: &Code,
    entry: u32,
) -> Result<Findings, Refusal>
    requires limits { KeepsLimits task.now }
    requires code { IsCode code.now }
    ensures ok { IfOk result (λ a. ArePassed task.now code.now entry a.graph a.nest a.cuts) }
    ensures refused { IfErr result (IsRefused task.now code.now entry) }
{
    let graph = graph_of(alloc, task, code, entry)?;
    let nest = nest_of(alloc, task, code, entry, &graph)?;
    let mut proved = facts_of(alloc, task, code, entry, &graph, &nest)?;
    check_counts(task, code, entry, &graph, &nest, &mut proved)?;
    let cuts = cuts_of(alloc, task, code, entry, &graph, &nest, &proved)?;
    Ok(Findings { graph, nest, cuts })
}
