// Putting the lines of a demonstration's summary.
ghost use Rattle.std.specs.Prelude.{◌≡◌, ◌≤◌, [], ◌∷◌, codes, length};
ghost use Rattle.visa_io.specs.Puts.{Puts};
ghost use Rattle.log_text.specs.Demo.{number_line, sum_line, summary_lines};

use crate::demo::Summary;
use crate::room::{add_decimal, add_hex};
use task_text::LineRoom;
use visa_io::{Sink, SinkFailed};

/// Puts the six lines of a demonstration's summary, each by one put. Takes no memory.
pub fn put_summary<S: Sink>(
    sink: &mut S,
    room: &mut LineRoom,
    summary: &Summary,
) -> Result<(), SinkFailed>
    requires { 1024 ≤ room.old.room }
    ensures puts { Puts (S.taken sink.old) (S.taken sink.new) (summary_lines summary.now) result }
    ensures line { room.new.line ≡ [] }
    ensures room { room.new.room ≡ room.old.room }
{
    let put = put_lines(sink, room, summary);
    room.clear();
    put
}

fn put_lines<S: Sink>(
    sink: &mut S,
    room: &mut LineRoom,
    summary: &Summary,
) -> Result<(), SinkFailed>
    requires { 1024 ≤ room.old.room }
    ensures puts { Puts (S.taken sink.old) (S.taken sink.new) (summary_lines summary.now) result }
    ensures room { room.new.room ≡ room.old.room }
{
    put_seed(sink, room, summary.seed)?;
    put_tally(sink, room, summary)?;
    put_results(sink, room, summary)
}

// Puts the first line.
fn put_seed<S: Sink>(sink: &mut S, room: &mut LineRoom, seed: u32) -> Result<(), SinkFailed>
    requires { 1024 ≤ room.old.room }
    ensures puts { Puts (S.taken sink.old) (S.taken sink.new) (number_line (codes "visa 1 demo") seed ∷ []) result }
    ensures room { room.new.room ≡ room.old.room }
{
    put_number(sink, room, b"visa 1 demo", u64::from(seed))
}

// Puts the numbers of jobs.
fn put_tally<S: Sink>(
    sink: &mut S,
    room: &mut LineRoom,
    summary: &Summary,
) -> Result<(), SinkFailed>
    requires { 1024 ≤ room.old.room }
    ensures puts { Puts (S.taken sink.old) (S.taken sink.new) (number_line (codes "jobs") summary.now.jobs
        ∷ number_line (codes "fast") summary.now.fast ∷ number_line (codes "missed") summary.now.missed ∷ []) result }
    ensures room { room.new.room ≡ room.old.room }
{
    put_number(sink, room, b"jobs", summary.jobs)?;
    put_number(sink, room, b"fast", summary.fast)?;
    put_number(sink, room, b"missed", summary.missed)
}

// Puts the greatest end and the sum.
fn put_results<S: Sink>(
    sink: &mut S,
    room: &mut LineRoom,
    summary: &Summary,
) -> Result<(), SinkFailed>
    requires { 1024 ≤ room.old.room }
    ensures puts { Puts (S.taken sink.old) (S.taken sink.new) (number_line (codes "latest") summary.now.latest_ps
        ∷ sum_line summary.now.sum ∷ []) result }
    ensures room { room.new.room ≡ room.old.room }
{
    put_number(sink, room, b"latest", summary.latest_ps)?;
    put_sum(sink, room, summary.sum)
}

fn put_number<S: Sink>(
    sink: &mut S,
    room: &mut LineRoom,
    name: &[u8],
    number: u64,
) -> Result<(), SinkFailed>
    requires room { 1024 ≤ room.old.room }
    requires name { length name.now ≤ 11 }
    ensures puts { Puts (S.taken sink.old) (S.taken sink.new) (number_line name.now number ∷ []) result }
    ensures room { room.new.room ≡ room.old.room }
{
    write_number(room, name, number);
    room.put(sink)
}

fn put_sum<S: Sink>(sink: &mut S, room: &mut LineRoom, sum: u32) -> Result<(), SinkFailed>
    requires { 1024 ≤ room.old.room }
    ensures puts { Puts (S.taken sink.old) (S.taken sink.new) (sum_line sum ∷ []) result }
    ensures room { room.new.room ≡ room.old.room }
{
    write_sum(room, sum);
    room.put(sink)
}

// Writes the line of a number behind its name.
#[tactic(auto, unfolding(crate::specs::Demo::number_line))]
fn write_number(room: &mut LineRoom, name: &[u8], number: u64)
    requires room { 1024 ≤ room.old.room }
    requires name { length name.now ≤ 11 }
    ensures line { room.new.line ≡ number_line name.now number }
    ensures room { room.new.room ≡ room.old.room }
{
    room.clear();
    room.add(name);
    room.add(b" ");
    add_decimal(room, number);
    room.add(b"\n");
}

// Writes the line of the sum of all words of output.
#[tactic(auto, unfolding(crate::specs::Demo::sum_line))]
fn write_sum(room: &mut LineRoom, sum: u32)
    requires { 1024 ≤ room.old.room }
    ensures line { room.new.line ≡ sum_line sum }
    ensures room { room.new.room ≡ room.old.room }
{
    room.clear();
    room.add(b"sum ");
    add_hex(room, sum);
    room.add(b"\n");
}
