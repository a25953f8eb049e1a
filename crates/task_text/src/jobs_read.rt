// Jobs texts are read.
ghost use Rattle.std.specs.Prelude.{◌≡◌, IfOk, IfErr};
ghost use Rattle.text_fields.specs.Lines.{lines_of};
ghost use Rattle.task_text.specs.JobInputs.{AreInputsOf};
ghost use Rattle.task_text.specs.JobsReading.{Reads, opening, walk_state, ended_state, fault_at as fault_at_lem};
ghost use Rattle.task_text.specs.JobsTexts.{IsJobs, IsRefusal};

use crate::fault::JobsFault;
use crate::jobs::Jobs;
use crate::jobs_reader::{JobsReader, Untaken};
use crate::task::Task;
use std::alloc::Global;
use text_fields::next_line;

// The refusal of a line.
fn fault_at(number: u64, error: Untaken) -> JobsFault
    ensures { result ≡ fault_at_lem number error }
{
    match error {
        Untaken::Refused => JobsFault::Line { number },
        Untaken::Memory => JobsFault::Memory,
    }
}

// The jobs of a text that was read, if the version stood.
fn ended(reader: JobsReader, number: u64) -> Result<Jobs, JobsFault>
    ensures { result ≡ ended_state reader number }
{
    if reader.opened {
        Ok(reader.jobs)
    } else {
        Err(JobsFault::Line { number })
    }
}

// The lines of a text, one by one.
fn read_lines(alloc: Global, bytes: &[u8], task: &Task) -> Result<Jobs, JobsFault>
    ensures { Reads result (walk_state task.now (lines_of bytes.now) opening 1) }
{
    let mut reader = JobsReader::new(alloc);
    let mut rest = bytes;
    let mut number: u64 = 1;
    while let Some((line, after)) = next_line(rest) {
        if let Err(error) = reader.judge(alloc, task, line) {
            return Err(fault_at(number, error));
        }
        rest = after;
        number += 1;
    }
    ended(reader, number)
}

/// Reads a jobs text of a task. The time is linear in the bytes.
///
/// # Errors
///
/// `Line` exactly where no jobs have this text: the first line that no jobs text of the task can continue, counted
/// from 1, or the number of the last line plus one for a text that only stops early. `Memory` where there was none.
pub fn read_jobs(alloc: Global, bytes: &[u8], task: &Task) -> Result<Jobs, JobsFault>
    ensures jobs { IfOk result (λ j. IsJobs bytes.now task.now j) }
    ensures only { (j : Jobs) → IsJobs bytes.now task.now j → IfOk result (λ u. u ≡ j) }
    ensures inputs { IfOk result (AreInputsOf task.now) }
    ensures fault { IfErr result (λ e. IsRefusal bytes.now task.now e) }
{
    read_lines(alloc, bytes, task)
}
