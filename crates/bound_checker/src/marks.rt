// Marks of what functions may write: 32 for each function of a graph, one row after the other.
ghost use Rattle.std.specs.Prelude.{◌≡◌, ◌<◌, ◌≤◌, ◌+◌, ◌*◌, ℕ, Some, length, slice_index, true};
ghost use Rattle.mips_isa.specs.Names.{writes_of};
ghost use Rattle.mips_isa.specs.declared.instr.Instr.{Instr as Meant};
ghost use Rattle.run_law.specs.Masks.{MayWrite};
ghost use Rattle.bound_checker.specs.Marks as meaning;

use flow_graph::Graph;
use mips_isa::{Instr, writes};
use visa_io::Code;

pub(crate) fn mark_at(marks: &[bool], row: usize, r: u8) -> bool
    requires room { row * 32 + 32 ≤ length marks.now }
    requires register { r < 32 }
    ensures { result ≡ meaning.mark_at marks.now row r }
{
    marks[row * 32 + r as usize]
}

// A mark is set, for its reason.
fn set(code: &Code, g: &Graph, marks: &mut [bool], row: usize, r: u8)
    requires due { meaning.AreDue code.now g.now marks.old }
    requires row { row < length g.now.functions }
    requires register { r < 32 }
    requires writes { MayWrite code.now (slice_index g.now.functions row) r }
    ensures due { meaning.AreDue code.now g.now marks.new }
    ensures below { meaning.IsBelow marks.old marks.new }
    ensures set { meaning.mark_at marks.new row r ≡ true }
{
    let _ = code;
    let _ = g;
    marks[row * 32 + r as usize] = true;
}

// The mark of what an instruction writes.
pub(crate) fn set_written(code: &Code, g: &Graph, marks: &mut [bool], row: usize, i: Instr)
    requires due { meaning.AreDue code.now g.now marks.old }
    requires row { row < length g.now.functions }
    requires writes { (r : ℕ) → writes_of i ≡ Some r → r < 32 → MayWrite code.now (slice_index g.now.functions row) r }
    ensures due { meaning.AreDue code.now g.now marks.new }
    ensures below { meaning.IsBelow marks.old marks.new }
    ensures set { (r : ℕ) → writes_of i ≡ Some r → r < 32 → meaning.mark_at marks.new row r ≡ true }
{
    if let Some(r) = writes(i) {
        if r < 32 {
            set(code, g, marks, row, r);
        }
    }
}

// The marks of another row too.
pub(crate) fn join(code: &Code, g: &Graph, marks: &mut [bool], row: usize, other: usize)
    requires due { meaning.AreDue code.now g.now marks.old }
    requires row { row < length g.now.functions }
    requires other { other < length g.now.functions }
    requires writes { (r : ℕ) → MayWrite code.now (slice_index g.now.functions other) r → MayWrite code.now (slice_index g.now.functions row) r }
    ensures due { meaning.AreDue code.now g.now marks.new }
    ensures below { meaning.IsBelow marks.old marks.new }
    ensures set { (r : ℕ) → r < 32 → meaning.mark_at marks.old other r ≡ true → meaning.mark_at marks.new row r ≡ true }
{
    for r in 0..32u8 {
        if mark_at(marks, other, r) {
            set(code, g, marks, row, r);
        }
    }
}

pub(crate) fn unmarked(marks: &[bool]) -> usize
    ensures { result ≡ meaning.unmarked marks.now }
{
    marks.iter().filter(|b| !**b).count()
}
