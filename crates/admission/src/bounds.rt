// The bounds of sub-tasks.
ghost use Rattle.std.specs.Prelude.{◌≡◌, ◌<◌, ◌≤◌, ◌+◌, ◌*◌, ◌^◌, IfOk, OnOk, length, min, suc, slice_get, slice_index, vec_len};
ghost use Rattle.admission.specs.Bounding.{AreCosts, IsCostOf, IsGround, IsRow};
ghost use Rattle.admission.specs.Found.{AreBounds, IsBound, costs_with as costs_with_lem, pen_of as pen_of_lem};
ghost use Rattle.persistence.specs.Charges.{IsRising};
ghost use Rattle.admission.specs.Rows.{rows_of};
ghost use Rattle.checkpoint_plan.specs.Limits.{IsPeriod};
ghost use Rattle.path_wcet.specs.Paid.{cap};
ghost use Rattle.task_text.specs.Limits.{IsMachine, KeepsLimits};

use flow_graph::Graph;
use loop_regions::Nest;
use path_wcet::{Costs, Pen, longest};
use persistence::{LineCharge, charge};
use std::alloc::{AllocError, Global};
use subtask_cut::Cuts;
use task_text::Task;
use visa_io::{Code, Machine};

// No bound is greater, cycles.
const CAP: u64 = 1_000_000_000_000_000_000;

// The clock period of a point, ps.
fn period_of(task: &Task, point: usize) -> u64
    requires limits { KeepsLimits task.now }
    requires point { point < length task.now.points }
    ensures value { result ≡ slice_index task.now.points point }
    ensures period { IsPeriod result }
{
    task.points.as_slice()[point]
}

// The cycles of accesses and slow instructions at a clock period.
fn pen_of(m: &Machine, period_ps: u64) -> Pen
    requires machine { IsMachine m.now }
    requires period { IsPeriod period_ps }
    ensures { result ≡ pen_of_lem m.now period_ps }
{
    Pen {
        m: m.mem_ps.div_ceil(period_ps),
        w: m.store_ps.div_ceil(period_ps),
        mul: u64::from(m.mul),
        div: u64::from(m.div),
    }
}

// Where sub-task number `k`, from 0, begins.
fn first_of(cuts: &Cuts, k: usize) -> u32
    requires { k < length cuts.now.firsts }
    ensures { result ≡ slice_index cuts.now.firsts k }
{
    cuts.firsts()[k]
}

// Where the next one begins, if there is one.
fn next_of(cuts: &Cuts, k: usize) -> Option<u32>
    requires { k < length cuts.now.firsts }
    ensures { result ≡ slice_get cuts.now.firsts (suc k) }
{
    cuts.firsts().get(k + 1).copied()
}

// The bound with so much for the costliest walk, and a miss for each of so many lines.
fn with_lines(most: u64, miss: u64, lines: u64) -> u64
    ensures { result ≡ min cap (most + miss * lines) }
{
    most.saturating_add(miss.saturating_mul(lines)).min(CAP)
}

// What a scope is charged, and what costs at a point.
fn costs_with(charge: LineCharge, pen: Pen) -> Costs
    ensures { result ≡ costs_with_lem charge pen }
{
    Costs { charge, pen }
}

// What each sub-task is charged, by its number from 0, and what costs at some point.
fn costs_of(
    alloc: Global,
    task: &Task,
    g: &Graph,
    cuts: &Cuts,
    pen: Pen,
) -> Result<Vec<Costs>, AllocError>
    requires limits { KeepsLimits task.now }
    requires rising { IsRising g.now }
    requires scopes { length cuts.now.scopes ≡ length cuts.now.firsts }
    ensures { IfOk result (λ v. AreCosts task.now g.now cuts.now pen (length cuts.now.firsts) v.items) }
{
    let mut costs = Vec::new(alloc);
    for k in 0..cuts.len() {
        let charge = charge(alloc, g, cuts.scope(k + 1), task.machine.icache)?;
        costs.push(costs_with(charge, pen))?;
    }
    Ok(costs)
}

// The bound of sub-task number `k`, from 0, with what is charged there and costs at a point.
fn bound_of(
    alloc: Global,
    task: &Task,
    code: &Code,
    g: &Graph,
    n: &Nest,
    cuts: &Cuts,
    costs: &Costs,
    period_ps: u64,
    k: usize,
) -> Result<u64, AllocError>
    requires limits { KeepsLimits task.now }
    requires period { IsPeriod period_ps }
    requires ground { IsGround task.now code.now g.now n.now cuts.now }
    requires sub { k < length cuts.now.firsts }
    requires costs { IsCostOf task.now g.now cuts.now (pen_of_lem task.now.machine period_ps) k costs.now }
    ensures { IfOk result (IsBound task.now g.now n.now cuts.now period_ps k) }
{
    let _ = task;
    let _ = code;
    let _ = period_ps;
    let most = longest(alloc, g, n, first_of(cuts, k), next_of(cuts, k), costs)?;
    Ok(with_lines(most, costs.pen.m, costs.charge.persistent()))
}

// The bounds of all sub-tasks at a point, with what is charged in each and costs there.
fn row_of(
    alloc: Global,
    task: &Task,
    code: &Code,
    g: &Graph,
    n: &Nest,
    cuts: &Cuts,
    costs: &[Costs],
    period_ps: u64,
) -> Result<Vec<u64>, AllocError>
    requires limits { KeepsLimits task.now }
    requires period { IsPeriod period_ps }
    requires ground { IsGround task.now code.now g.now n.now cuts.now }
    requires costs { AreCosts task.now g.now cuts.now (pen_of_lem task.now.machine period_ps) (length cuts.now.firsts) costs.now }
    ensures { IfOk result (λ row. IsRow task.now g.now n.now cuts.now period_ps (length cuts.now.firsts) row.items) }
{
    let mut row = Vec::new(alloc);
    for k in 0..costs.len() {
        let bound = bound_of(alloc, task, code, g, n, cuts, &costs[k], period_ps, k)?;
        row.push(bound)?;
    }
    Ok(row)
}

// The same charges at another point.
fn set_pen(costs: &mut Costs, pen: Pen)
    ensures charge { costs.new.charge ≡ costs.old.charge }
    ensures pen { costs.new.pen ≡ pen }
{
    costs.pen = pen;
}

fn set_pens(task: &Task, g: &Graph, cuts: &Cuts, costs: &mut Vec<Costs>, old: Pen, pen: Pen)
    requires { AreCosts task.now g.now cuts.now old (length cuts.now.firsts) costs.old.items }
    ensures { AreCosts task.now g.now cuts.now pen (length cuts.now.firsts) costs.new.items }
{
    let _ = task;
    let _ = g;
    let _ = cuts;
    let _ = old;
    for k in 0..costs.len() {
        set_pen(&mut costs[k], pen);
    }
}

/// The bounds by point, and of each point by sub-task, cycles.
pub(crate) fn bounds_of(
    alloc: Global,
    task: &Task,
    code: &Code,
    g: &Graph,
    n: &Nest,
    cuts: &Cuts,
) -> Result<Vec<Vec<u64>>, AllocError>
    requires limits { KeepsLimits task.now }
    requires ground { IsGround task.now code.now g.now n.now cuts.now }
    ensures { IfOk result (λ rows. AreBounds task.now g.now n.now cuts.now (rows_of rows.items)) }
{
    let mut pen = pen_of(&task.machine, period_of(task, 0));
    let mut costs = costs_of(alloc, task, g, cuts, pen)?;
    let mut rows = Vec::new(alloc);
    for p in 0..task.points.len() {
        let period_ps = period_of(task, p);
        let next = pen_of(&task.machine, period_ps);
        set_pens(task, g, cuts, &mut costs, pen, next);
        pen = next;
        let row = row_of(alloc, task, code, g, n, cuts, costs.as_slice(), period_ps)?;
        rows.push(row)?;
    }
    Ok(rows)
}
