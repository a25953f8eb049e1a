// The line of a call that ends in no log, or in a log that memory cut off.
ghost use Rattle.std.specs.Prelude.{◌≡◌, false, [], ◌∷◌};
ghost use Rattle.visa_cli.specs.Clauses.{EndsBy, EndsByOrMemory, has_fixed_line};
ghost use Rattle.visa_cli.specs.Status.{line_of};

use crate::lines::{MEMORY, USAGE, fixed_line, status_line};
use crate::status::Status;
use std::alloc::Global;
use visa_io::Sink;

// Puts a line by one put.
fn put_line<S: Sink>(sink: &mut S, line: &[u8], status: Status) -> Status
    ensures { EndsBy (S.taken sink.old) (S.taken sink.new) status (line.now ∷ []) result }
{
    match sink.put(line) {
        Ok(()) => status,
        Err(_) => Status::WriteFault,
    }
}

/// Puts the line of want of memory. Takes no memory.
#[tactic(auto, unfolding(crate::specs::Status::line_of))]
pub fn report_memory<S: Sink>(sink: &mut S) -> Status
    ensures { EndsBy (S.taken sink.old) (S.taken sink.new) Status.Memory (line_of Status.Memory ∷ []) result }
{
    put_line(sink, MEMORY, Status::Memory)
}

// Puts the line of a status that is made in memory.
fn report_made<S: Sink>(alloc: Global, sink: &mut S, status: Status) -> Status
    requires { has_fixed_line status ≡ false }
    ensures { EndsByOrMemory (S.taken sink.old) (S.taken sink.new) status (line_of status ∷ []) result }
{
    match status_line(alloc, status) {
        Ok(line) => put_line(sink, &line, status),
        Err(_) => report_memory(sink),
    }
}

/// Puts the line of a status, and answers the status that the call ends with.
pub fn report<S: Sink>(alloc: Global, sink: &mut S, status: Status) -> Status
    ensures { EndsByOrMemory (S.taken sink.old) (S.taken sink.new) status (line_of status ∷ []) result }
{
    match fixed_line(status) {
        Some(line) => put_line(sink, line, status),
        None => report_made(alloc, sink, status),
    }
}

/// Puts the usage line. Takes no memory.
#[tactic(auto, unfolding(crate::specs::Status::line_of))]
pub fn report_usage<S: Sink>(sink: &mut S) -> Status
    ensures { EndsBy (S.taken sink.old) (S.taken sink.new) Status.Usage (line_of Status.Usage ∷ []) result }
{
    put_line(sink, USAGE, Status::Usage)
}
