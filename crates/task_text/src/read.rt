// Task texts are read.
ghost use Rattle.std.specs.Prelude.{◌≡◌, IfOk, IfErr};
ghost use Rattle.text_fields.specs.Lines.{lines_of};
ghost use Rattle.task_text.specs.Gives.{Reads, opening, walk, fault_at as fault_at_lem, ended as ended_lem};
ghost use Rattle.task_text.specs.Texts.{IsTask, IsRefusal};
ghost use Rattle.task_text.specs.Limits.{KeepsLimits};

use crate::fact_keys::FactKeys;
use crate::fault::{LineKind, ReadError, TaskFault};
use crate::keyword::place_of_newest;
use crate::reader::Reader;
use crate::task::Task;
use std::alloc::Global;
use text_fields::next_line;

// The refusal of a line.
fn fault_at(number: u64, error: ReadError) -> TaskFault
    ensures { result ≡ fault_at_lem number error }
{
    match error {
        ReadError::Line(kind) => TaskFault::Line { number, kind },
        ReadError::Memory => TaskFault::Memory,
    }
}

// The task of a text that was read, if it has every needed line.
fn ended(reader: Reader, number: u64) -> Result<Task, TaskFault>
    ensures { result ≡ ended_lem reader number }
{
    if place_of_newest(reader.newest) >= 14 {
        Ok(reader.task)
    } else {
        Err(TaskFault::Line {
            number,
            kind: LineKind::End,
        })
    }
}

// The lines of a text, one by one.
fn read_lines(alloc: Global, bytes: &[u8]) -> Result<Task, TaskFault>
    ensures { Reads result (walk (lines_of bytes.now) opening 1) }
{
    let mut reader = Reader::new(alloc);
    let mut keys = FactKeys::new(alloc);
    let mut rest = bytes;
    let mut number: u64 = 1;
    while let Some((line, after)) = next_line(rest) {
        if let Err(error) = reader.judge(alloc, &mut keys, line) {
            return Err(fault_at(number, error));
        }
        rest = after;
        number += 1;
    }
    ended(reader, number)
}

/// Reads a task text. The time is linear in the bytes, but for facts: each takes the logarithm of how many stood before.
///
/// # Errors
///
/// `Line` exactly where no task has this text: the first line that no task can continue, counted from 1, and the
/// first test that it fails, or the number of the last line plus one and `End` for a text that only stops early.
/// `Memory` where there was none.
pub fn read_task(alloc: Global, bytes: &[u8]) -> Result<Task, TaskFault>
    ensures task { IfOk result (λ t. IsTask bytes.now t) }
    ensures only { (t : Task) → IsTask bytes.now t → IfOk result (λ u. u ≡ t) }
    ensures limits { IfOk result KeepsLimits }
    ensures fault { IfErr result (λ e. IsRefusal bytes.now e) }
{
    read_lines(alloc, bytes)
}
