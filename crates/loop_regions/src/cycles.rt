// Whether a cycle is left without the ways back to headers.
ghost use Rattle.loop_regions.specs.Cycles.{AreAhead, AreIn, IsLeastOnCycle, IsOnCycle, IsReachedFrom, IsSwept, is_new};
ghost use Rattle.std.specs.Prelude.{◌≡◌, ◌<◌, if◌then◌else◌, IfOk, length, slice_set, true, false};

use crate::Way;
use std::alloc::{AllocError, Global};

/// Marks where a way on leads from the start or from a marked unit, if that isn't marked yet.
fn visit(w: &Way, start: usize, marks: &mut [bool]) -> bool
    requires from { w.now.from < length marks.old }
    requires to { w.now.to < length marks.old }
    ensures changes { result ≡ is_new w.now start marks.old }
    ensures marks { marks.new ≡ (if result then slice_set marks.old w.now.to true else marks.old) }
{
    if w.back || marks[w.to] || !(w.from == start || marks[w.from]) {
        return false;
    }
    marks[w.to] = true;
    true
}

/// Goes over all ways once. Says whether a mark was set.
fn sweep(ways: &[Way], start: usize, marks: &mut [bool]) -> bool
    requires { AreIn (length marks.old) ways.now }
    ensures { IsSwept ways.now start marks.old marks.new result }
{
    let mut changed = false;
    for w in ways {
        if visit(w, start, marks) {
            changed = true;
        }
    }
    changed
}

/// Marks each unit that is reached from the start along ways on.
fn mark_reached(ways: &[Way], start: usize, marks: &mut [bool])
    requires { AreIn (length marks.old) ways.now }
    ensures { IsReachedFrom ways.now start marks.old marks.new }
{
    while sweep(ways, start, marks) {}
}

/// Whether a unit is reached from itself; the marks are those of units ahead of it, if any.
fn comes_back(ways: &[Way], u: usize, marks: &mut [bool]) -> bool
    requires ways { AreIn (length marks.old) ways.now }
    requires unit { u < length marks.old }
    requires ahead { AreAhead ways.now u marks.old }
    ensures { IsOnCycle ways.now u result }
{
    mark_reached(ways, u, marks);
    marks[u]
}

/// Whether a unit is on a cycle of ways on.
pub(crate) fn is_on_cycle(
    alloc: Global,
    ways: &[Way],
    units: usize,
    u: usize,
) -> Result<bool, AllocError>
    requires ways { AreIn units ways.now }
    requires unit { u < units }
    ensures { IfOk result (IsOnCycle ways.now u) }
{
    let mut marks = vec![in alloc; false; units]?;
    Ok(comes_back(ways, u, marks.as_mut_slice()))
}

/// The least unit that is on a cycle of ways on.
pub(crate) fn least_on_cycle(
    alloc: Global,
    ways: &[Way],
    units: usize,
) -> Result<Option<usize>, AllocError>
    requires { AreIn units ways.now }
    ensures { IfOk result (IsLeastOnCycle ways.now units) }
{
    for u in 0..units {
        if is_on_cycle(alloc, ways, units, u)? {
            return Ok(Some(u));
        }
    }
    Ok(None)
}
