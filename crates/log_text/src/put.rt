// Putting the lines of a job that was run.
ghost use Rattle.std.specs.Prelude.{◌≡◌, ◌≤◌, ◌+◌, ◌*◌, ◌^◌, [], ◌∷◌};
ghost use Rattle.std.specs.List.{All};
ghost use Rattle.visa_io.specs.Puts.{Puts};
ghost use Rattle.log_text.specs.Lines.{job_line, output_line, record_lines, registers_line, shown_line, shown_lines, state_lines, sub_line, sub_lines};

use crate::record::JobRecord;
use crate::write::{write_job, write_output, write_registers, write_shown, write_sub};
use mips_ref::State;
use task_text::LineRoom;
use visa_io::{Sink, SinkFailed, Span};

/// The first line of a log of jobs in simple mode.
pub const SIMPLE_HEADER: &[u8] = b"visa 1 simple\n";

/// The first line of a log of jobs that are released in fast mode.
pub const RUN_HEADER: &[u8] = b"visa 1 run\n";

/// Puts the lines of a job, each by one put: how it ran and ended, the cycles of the sub-tasks that ended in fast mode,
/// the state in which it ended, and the ranges that its log shows. Takes no memory.
pub fn put_record<S: Sink>(
    sink: &mut S,
    room: &mut LineRoom,
    job: &JobRecord,
    counts: &[u64],
    state: &State,
    show: &[Span],
) -> Result<(), SinkFailed>
    requires room { 1024 + 9 * state.now.mips.output_max ≤ room.old.room }
    requires lengths { All (λ span. span.len ≤ 256) show.now }
    requires ends { All (λ span. span.start + span.len ≤ 2 ^ 32) show.now }
    ensures puts { Puts (S.taken sink.old) (S.taken sink.new) (record_lines job.now counts.now state.now.mips show.now) result }
    ensures line { room.new.line ≡ [] }
    ensures room { room.new.room ≡ room.old.room }
{
    let put = put_lines(sink, room, job, counts, state, show);
    room.clear();
    put
}

fn put_lines<S: Sink>(
    sink: &mut S,
    room: &mut LineRoom,
    job: &JobRecord,
    counts: &[u64],
    state: &State,
    show: &[Span],
) -> Result<(), SinkFailed>
    requires room { 1024 + 9 * state.now.mips.output_max ≤ room.old.room }
    requires lengths { All (λ span. span.len ≤ 256) show.now }
    requires ends { All (λ span. span.start + span.len ≤ 2 ^ 32) show.now }
    ensures puts { Puts (S.taken sink.old) (S.taken sink.new) (record_lines job.now counts.now state.now.mips show.now) result }
    ensures room { room.new.room ≡ room.old.room }
{
    put_job(sink, room, job)?;
    put_subs(sink, room, counts)?;
    put_state(sink, room, state, show)
}

// Puts the lines of the state in which a job ended.
fn put_state<S: Sink>(
    sink: &mut S,
    room: &mut LineRoom,
    state: &State,
    show: &[Span],
) -> Result<(), SinkFailed>
    requires room { 1024 + 9 * state.now.mips.output_max ≤ room.old.room }
    requires lengths { All (λ span. span.len ≤ 256) show.now }
    requires ends { All (λ span. span.start + span.len ≤ 2 ^ 32) show.now }
    ensures puts { Puts (S.taken sink.old) (S.taken sink.new) (state_lines state.now.mips show.now) result }
    ensures room { room.new.room ≡ room.old.room }
{
    put_registers(sink, room, state)?;
    put_output(sink, room, state)?;
    put_shown(sink, room, state, show)
}

fn put_job<S: Sink>(sink: &mut S, room: &mut LineRoom, job: &JobRecord) -> Result<(), SinkFailed>
    requires { 1024 ≤ room.old.room }
    ensures puts { Puts (S.taken sink.old) (S.taken sink.new) (job_line job.now ∷ []) result }
    ensures room { room.new.room ≡ room.old.room }
{
    write_job(room, job);
    room.put(sink)
}

// Puts a line for each sub-task that ended in fast mode.
fn put_subs<S: Sink>(sink: &mut S, room: &mut LineRoom, counts: &[u64]) -> Result<(), SinkFailed>
    requires { 1024 ≤ room.old.room }
    ensures puts { Puts (S.taken sink.old) (S.taken sink.new) (sub_lines counts.now) result }
    ensures room { room.new.room ≡ room.old.room }
{
    for k in 0..counts.len() {
        put_sub(sink, room, k + 1, counts[k])?;
    }
    Ok(())
}

fn put_sub<S: Sink>(
    sink: &mut S,
    room: &mut LineRoom,
    sub: usize,
    cycles: u64,
) -> Result<(), SinkFailed>
    requires { 1024 ≤ room.old.room }
    ensures puts { Puts (S.taken sink.old) (S.taken sink.new) (sub_line sub cycles ∷ []) result }
    ensures room { room.new.room ≡ room.old.room }
{
    write_sub(room, sub, cycles);
    room.put(sink)
}

fn put_registers<S: Sink>(
    sink: &mut S,
    room: &mut LineRoom,
    state: &State,
) -> Result<(), SinkFailed>
    requires { 1024 ≤ room.old.room }
    ensures puts { Puts (S.taken sink.old) (S.taken sink.new) (registers_line state.now.mips ∷ []) result }
    ensures room { room.new.room ≡ room.old.room }
{
    write_registers(room, state);
    room.put(sink)
}

fn put_output<S: Sink>(sink: &mut S, room: &mut LineRoom, state: &State) -> Result<(), SinkFailed>
    requires { 1024 + 9 * state.now.mips.output_max ≤ room.old.room }
    ensures puts { Puts (S.taken sink.old) (S.taken sink.new) (output_line state.now.mips.output ∷ []) result }
    ensures room { room.new.room ≡ room.old.room }
{
    write_output(room, state);
    room.put(sink)
}

// Puts a line for each range that is shown.
fn put_shown<S: Sink>(
    sink: &mut S,
    room: &mut LineRoom,
    state: &State,
    show: &[Span],
) -> Result<(), SinkFailed>
    requires room { 1024 ≤ room.old.room }
    requires lengths { All (λ span. span.len ≤ 256) show.now }
    requires ends { All (λ span. span.start + span.len ≤ 2 ^ 32) show.now }
    ensures puts { Puts (S.taken sink.old) (S.taken sink.new) (shown_lines state.now.mips.memory show.now) result }
    ensures room { room.new.room ≡ room.old.room }
{
    for span in show {
        put_range(sink, room, state, *span)?;
    }
    Ok(())
}

fn put_range<S: Sink>(
    sink: &mut S,
    room: &mut LineRoom,
    state: &State,
    span: Span,
) -> Result<(), SinkFailed>
    requires room { 1024 ≤ room.old.room }
    requires short { span.len ≤ 256 }
    requires end { span.start + span.len ≤ 2 ^ 32 }
    ensures puts { Puts (S.taken sink.old) (S.taken sink.new) (shown_line state.now.mips.memory span ∷ []) result }
    ensures room { room.new.room ≡ room.old.room }
{
    write_shown(room, state, span);
    room.put(sink)
}
