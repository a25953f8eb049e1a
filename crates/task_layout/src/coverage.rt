// Addresses that a task needs and that its memory doesn't have.
ghost use Rattle.std.specs.Prelude.{◌≡◌, ◌+◌, true, false, All, Some, IfSome, IfNone};
ghost use Rattle.task_layout.specs.Layout.{FirstUncovered, FirstUndeclared, IsDeclared};
ghost use Rattle.mips_ref.specs.Layout.{Covers};
ghost use Rattle.mips_ref.specs.Memory.{AllStorable};

use mips_ref::Memory;
use task_text::Task;
use visa_io::Span;

/// The first address that a task needs in vain: of its input buffer, which is stored to; else of the ranges shown.
pub(crate) fn first_uncovered(memory: &Memory, task: &Task) -> Option<u32>
    ensures uncovered { IfSome result (FirstUncovered task.now memory.now) }
    ensures input { IfNone result (AllStorable memory.now task.now.input_at task.now.input_len) }
    ensures shows { IfNone result (All (IsDeclared memory.now) task.now.show) }
{
    if let Some(at) = first_unstorable(memory, task.input_at, task.input_len) {
        return Some(at);
    }
    first_undeclared(memory, task.show.as_slice())
}

fn first_unstorable(memory: &Memory, at: u32, len: u32) -> Option<u32>
    ensures wanting { IfSome result (λ a. Covers true memory.now at (at + len) (Some a)) }
    ensures covered { IfNone result (AllStorable memory.now at len) }
{
    memory.covers(at, len, true)
}

fn first_undeclared(memory: &Memory, ranges: &[Span]) -> Option<u32>
    ensures wanting { IfSome result (FirstUndeclared memory.now ranges.now) }
    ensures declared { IfNone result (All (IsDeclared memory.now) ranges.now) }
{
    for range in ranges {
        if let Some(at) = undeclared_in(memory, *range) {
            return Some(at);
        }
    }
    None
}

fn undeclared_in(memory: &Memory, range: Span) -> Option<u32>
    ensures wanting { IfSome result (λ a. Covers false memory.now range.start (range.start + range.len) (Some a)) }
    ensures declared { IfNone result (IsDeclared memory.now range) }
{
    memory.covers(range.start, range.len, false)
}
