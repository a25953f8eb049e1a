// Whether a task is admitted.
ghost use Rattle.std.specs.Prelude.{◌≡◌, ◌≤◌, ◌<◌, ◌^◌, All, IfErr, IfOk, length};
ghost use Rattle.visa_io.specs.ImageCode.{IsFilled, code_of_image};
ghost use Rattle.flow_graph.specs.Code.{IsCode};
ghost use Rattle.task_text.specs.Limits.{KeepsLimits};
ghost use Rattle.checkpoint_plan.specs.Limits.{AreBounds as AreRowBounds, IsPeriod};
ghost use Rattle.checkpoint_plan.specs.Plan.{rem_of};
ghost use Rattle.task_text.specs.TaskParts.{fastest_ps as fastest_ps_lem};
ghost use Rattle.admission.specs.Admitted.{fastest_bounds as fastest_bounds_lem, needed_of as needed_of_lem};
ghost use Rattle.admission.specs.Judging.{IsTimed, Judges};
ghost use Rattle.admission.specs.Analysing.{ArePassed};
ghost use Rattle.admission.specs.Found.{entry_of};
ghost use Rattle.admission.specs.Refused.{Admits, IsRefused};
ghost use Rattle.admission.specs.Rows.{rows_of};
ghost use Rattle.admission.specs.declared.mode.Mode.TheVariants.{Fast as FastMode, Simple as SimpleMode};

use crate::admitted::Admitted;
use crate::analysis::{Findings, analysed};
use crate::bounds::bounds_of;
use crate::mode::Mode;
use crate::planning::plans_of;
use crate::refusal::Refusal;
use crate::rows::row_at;
use checkpoint_plan::{overhead, rem};
use std::alloc::Global;
use task_text::Task;
use visa_io::{Code, Image, code_of};

// The clock period of the fastest point, ps.
fn fastest_ps(task: &Task) -> u64
    requires { KeepsLimits task.now }
    ensures value { result ≡ fastest_ps_lem task.now }
    ensures period { IsPeriod result }
{
    task.fastest_ps()
}

// The bounds at the fastest point.
fn fastest_bounds<'a>(task: &Task, bounds: &'a [Vec<u64>]) -> &'a [u64]
    requires limits { KeepsLimits task.now }
    requires points { length bounds.now ≡ length task.now.points }
    requires rows { All AreRowBounds (rows_of bounds.now) }
    requires some { All (λ row. 1 ≤ length row) (rows_of bounds.now) }
    ensures value { result.now ≡ fastest_bounds_lem task.now (rows_of bounds.now) }
    ensures bounds { AreRowBounds result.now }
    ensures some { 1 ≤ length result.now }
{
    row_at(bounds, task.points.len() - 1)
}

// What all sub-tasks with these bounds need, ps.
fn rest_ps(bounds: &[u64], period_ps: u64) -> u128
    requires bounds { AreRowBounds bounds.now }
    requires some { 1 ≤ length bounds.now }
    requires period { IsPeriod period_ps }
    ensures value { result ≡ rem_of bounds.now period_ps }
    ensures small { result < 2 ^ 100 }
{
    rem(bounds, 1, period_ps)
}

// The time that a job may need from its release, ps, by the bounds at the fastest point.
fn needed_ps(mode: Mode, task: &Task, bounds: &[Vec<u64>]) -> u128
    requires limits { KeepsLimits task.now }
    requires points { length bounds.now ≡ length task.now.points }
    requires rows { All AreRowBounds (rows_of bounds.now) }
    requires some { All (λ row. 1 ≤ length row) (rows_of bounds.now) }
    ensures { result ≡ needed_of_lem mode task.now (rows_of bounds.now) }
{
    let period_ps = fastest_ps(task);
    let rest = rest_ps(fastest_bounds(task, bounds), period_ps);
    let start = u128::from(task.machine.start_ps);
    match mode {
        Mode::Simple => start + rest,
        Mode::Fast => start + overhead(&task.machine, period_ps, period_ps) + rest,
    }
}

// Bounds and plans, where all passed.
fn timed(
    alloc: Global,
    task: &Task,
    code: &Code,
    entry: u32,
    found: &Findings,
) -> Result<Admitted, Refusal>
    requires limits { KeepsLimits task.now }
    requires passed { ArePassed task.now code.now entry found.now.graph found.now.nest found.now.cuts }
    ensures ok { IfOk result (IsTimed task.now code.now entry) }
    ensures refused { IfErr result (IsRefused task.now code.now entry) }
{
    let _ = entry;
    let Ok(bounds) = bounds_of(alloc, task, code, &found.graph, &found.nest, &found.cuts) else {
        return Err(Refusal::Memory);
    };
    let Ok(plans) = plans_of(alloc, task, bounds.as_slice()) else {
        return Err(Refusal::Memory);
    };
    Ok(Admitted { bounds, plans })
}

// Whether the deadline leaves the time that is needed.
fn judged(mode: Mode, task: &Task, times: Admitted) -> Result<Admitted, Refusal>
    requires limits { KeepsLimits task.now }
    requires points { length times.bounds ≡ length task.now.points }
    requires rows { All AreRowBounds times.bounds }
    requires some { All (λ row. 1 ≤ length row) times.bounds }
    ensures { Judges mode task.now times result }
{
    let needed_ps = needed_ps(mode, task, times.bounds.as_slice());
    let deadline_ps = task.deadline_ps;
    if needed_ps > u128::from(deadline_ps) {
        return Err(Refusal::Exceeds {
            needed_ps,
            deadline_ps,
        });
    }
    Ok(times)
}

// The bounds and plans of a task's code, or the first condition that fails.
fn times_of(alloc: Global, task: &Task, code: &Code, entry: u32) -> Result<Admitted, Refusal>
    requires limits { KeepsLimits task.now }
    requires code { IsCode code.now }
    ensures ok { IfOk result (IsTimed task.now code.now entry) }
    ensures refused { IfErr result (IsRefused task.now code.now entry) }
{
    match analysed(alloc, task, code, entry) {
        Ok(found) => timed(alloc, task, code, entry, &found),
        Err(refusal) => Err(refusal),
    }
}

// Whether a task whose code this is is admitted with its image.
fn decided(
    alloc: Global,
    mode: Mode,
    task: &Task,
    image: &Image,
    code: &Code,
) -> Result<Admitted, Refusal>
    requires limits { KeepsLimits task.now }
    requires is { code.now ≡ code_of_image image.now }
    requires code { IsCode code.now }
    ensures { Admits mode task.now image.now result }
{
    let entry = task.entry.unwrap_or(image.entry);
    match times_of(alloc, task, code, entry) {
        Ok(times) => judged(mode, task, times),
        Err(refusal) => Err(refusal),
    }
}

fn admit_in(alloc: Global, mode: Mode, task: &Task, image: &Image) -> Result<Admitted, Refusal>
    requires limits { KeepsLimits task.now }
    requires filled { IsFilled image.now }
    requires code { IsCode (code_of_image image.now) }
    ensures { Admits mode task.now image.now result }
{
    match code_of(alloc, image) {
        Ok(code) => decided(alloc, mode, task, image, &code),
        Err(_) => Err(Refusal::Memory),
    }
}

/// Whether a task with its image is admitted for fast mode, with a switch to simple mode where a checkpoint is missed: its code has a
/// graph, its regions nest, its facts and counts are right, its cuts keep their rules, and the deadline leaves the time that its
/// jobs may need at the fastest point, the start and the overhead of a switch counted. The refusal is the first condition that fails,
/// in this order; loops by rising number. The condition on `image` is what a layout gives: no two of its ranges share an address.
pub fn admit(alloc: Global, task: &Task, image: &Image) -> Result<Admitted, Refusal>
    requires limits { KeepsLimits task.now }
    requires filled { IsFilled image.now }
    requires code { IsCode (code_of_image image.now) }
    ensures { Admits FastMode task.now image.now result }
{
    admit_in(alloc, Mode::Fast, task, image)
}

/// The same for simple mode alone, whose jobs need no switch.
pub fn admit_simple(alloc: Global, task: &Task, image: &Image) -> Result<Admitted, Refusal>
    requires limits { KeepsLimits task.now }
    requires filled { IsFilled image.now }
    requires code { IsCode (code_of_image image.now) }
    ensures { Admits SimpleMode task.now image.now result }
{
    admit_in(alloc, Mode::Simple, task, image)
}
