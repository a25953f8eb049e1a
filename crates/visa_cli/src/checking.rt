// The lines of a check: the bounds of an admitted task, and the plans of its pairs of points.
ghost use Rattle.std.specs.Prelude.{◌≡◌, ◌<◌, ◌≤◌, [], ◌∷◌, length, map};
ghost use Rattle.std.specs.List.{flat_map};
ghost use Rattle.visa_io.specs.Puts.{Puts};
ghost use Rattle.admission.specs.declared.mode.Mode.TheVariants.{Fast as FastMode};
ghost use Rattle.visa_cli.specs.Admission.{IsFit};
ghost use Rattle.visa_cli.specs.Check.{all_bound_lines, all_pair_lines, check_lines, pair_line, points_of, short_by as short_by_lem};
ghost use Rattle.visa_cli.specs.Running.{Tells};

use crate::admit::AdmittedTask;
use crate::report::report_memory;
use crate::status::Status;
use admission::Admitted;
use checkpoint_plan::{overhead, rem};
use frequency_pick::Pair;
use log_text::{CHECK_HEADER, put_bounds, put_plan, put_short};
use std::alloc::Global;
use task_text::{LineRoom, Task};
use visa_io::{Sink, SinkFailed};

// How far the first checkpoint of a pair of points is below 0, ps.
fn short_by(admitted: &AdmittedTask, a: usize, b: usize) -> u128
    requires fit { IsFit FastMode admitted.now }
    requires speculative { a < length admitted.now.task.points }
    requires recovery { b < length admitted.now.task.points }
    ensures { result ≡ short_by_lem admitted.now.task admitted.now.times.bounds a b }
{
    let task = &admitted.task;
    let (pa, pb) = (task.points.as_slice()[a], task.points.as_slice()[b]);
    let bounds = admitted.times.bounds_at(b);
    let start = u128::from(task.machine.start_ps);
    let owed = start + overhead(&task.machine, pa, pb) + rem(bounds, 1, pb);
    owed.saturating_sub(u128::from(task.deadline_ps))
}

// Puts the line of a pair of points.
#[tactic(auto, unfolding(crate::specs::Check::pair_line))]
fn put_pair<S: Sink>(
    sink: &mut S,
    room: &mut LineRoom,
    admitted: &AdmittedTask,
    a: usize,
    b: usize,
) -> Result<(), SinkFailed>
    requires fit { IsFit FastMode admitted.now }
    requires room { 1024 ≤ room.old.room }
    requires speculative { a < length admitted.now.task.points }
    requires recovery { b < length admitted.now.task.points }
    ensures puts { Puts (S.taken sink.old) (S.taken sink.new)
        (pair_line admitted.now.task admitted.now.times a b ∷ []) result }
    ensures room { room.new.room ≡ room.old.room }
{
    let pair = Pair {
        a: a as u32,
        b: b as u32,
    };
    match admitted.times.plans().get(pair) {
        Some(plan) => put_plan(sink, room, plan),
        None => put_short(sink, room, a, b, short_by(admitted, a, b)),
    }
}

// Puts the lines of the pairs with a first point.
fn put_pairs_with<S: Sink>(
    sink: &mut S,
    room: &mut LineRoom,
    admitted: &AdmittedTask,
    a: usize,
) -> Result<(), SinkFailed>
    requires fit { IsFit FastMode admitted.now }
    requires room { 1024 ≤ room.old.room }
    requires speculative { a < length admitted.now.task.points }
    ensures puts { Puts (S.taken sink.old) (S.taken sink.new)
        (map (pair_line admitted.now.task admitted.now.times a) (points_of admitted.now.task)) result }
    ensures room { room.new.room ≡ room.old.room }
{
    for b in 0..admitted.task.points.len() {
        put_pair(sink, room, admitted, a, b)?;
    }
    Ok(())
}

// Puts the lines of all pairs.
fn put_all_pairs<S: Sink>(
    sink: &mut S,
    room: &mut LineRoom,
    admitted: &AdmittedTask,
) -> Result<(), SinkFailed>
    requires fit { IsFit FastMode admitted.now }
    requires room { 1024 ≤ room.old.room }
    ensures puts { Puts (S.taken sink.old) (S.taken sink.new)
        (all_pair_lines admitted.now.task admitted.now.times) result }
    ensures room { room.new.room ≡ room.old.room }
{
    for a in 0..admitted.task.points.len() {
        put_pairs_with(sink, room, admitted, a)?;
    }
    Ok(())
}

// Puts the lines of the bounds at each point.
fn put_all_bounds<S: Sink>(
    sink: &mut S,
    room: &mut LineRoom,
    admitted: &AdmittedTask,
) -> Result<(), SinkFailed>
    requires fit { IsFit FastMode admitted.now }
    requires room { 1024 ≤ room.old.room }
    ensures puts { Puts (S.taken sink.old) (S.taken sink.new)
        (all_bound_lines admitted.now.task admitted.now.times) result }
    ensures room { room.new.room ≡ room.old.room }
{
    for point in 0..admitted.task.points.len() {
        put_bounds(sink, room, point, admitted.times.bounds_at(point))?;
    }
    Ok(())
}

// Puts all lines, in room that was taken.
fn put_check<S: Sink>(
    sink: &mut S,
    room: &mut LineRoom,
    admitted: &AdmittedTask,
) -> Result<(), SinkFailed>
    requires fit { IsFit FastMode admitted.now }
    requires room { 1024 ≤ room.old.room }
    ensures { Puts (S.taken sink.old) (S.taken sink.new) (check_lines admitted.now.task admitted.now.times) result }
{
    sink.put(CHECK_HEADER)?;
    put_all_bounds(sink, room, admitted)?;
    put_all_pairs(sink, room, admitted)
}

/// Writes the bounds and the plans of a task that was admitted for fast mode. All memory is taken before the first
/// line.
pub fn tell<S: Sink>(alloc: Global, sink: &mut S, admitted: &AdmittedTask) -> Status
    requires { IsFit FastMode admitted.now }
    ensures { Tells admitted.now.task admitted.now.times (S.taken sink.old) (S.taken sink.new) result }
{
    let Ok(mut room) = LineRoom::new(alloc, &admitted.task) else {
        return report_memory(sink);
    };
    match put_check(sink, &mut room, admitted) {
        Ok(()) => Status::Done,
        Err(_) => Status::WriteFault,
    }
}
