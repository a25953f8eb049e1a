// Putting the lines of a check.
ghost use Rattle.std.specs.Prelude.{◌≡◌, ◌≤◌, ◌<◌, ◌^◌, [], ◌∷◌, length};
ghost use Rattle.visa_io.specs.Puts.{Puts};
ghost use Rattle.log_text.specs.Check.{bound_line, bound_lines, plan_line, short_line};

use crate::write_check::{write_bound, write_plan, write_short};
use checkpoint_plan::Plan;
use task_text::LineRoom;
use visa_io::{Sink, SinkFailed};

/// The first line of a check.
pub const CHECK_HEADER: &[u8] = b"visa 1 check\n";

/// Puts the lines of the bounds (cycles) of all sub-tasks at a point, which is numbered from 0, each by one put. Takes no
/// memory.
pub fn put_bounds<S: Sink>(
    sink: &mut S,
    room: &mut LineRoom,
    point: usize,
    bounds: &[u64],
) -> Result<(), SinkFailed>
    requires room { 1024 ≤ room.old.room }
    ensures puts { Puts (S.taken sink.old) (S.taken sink.new) (bound_lines point bounds.now) result }
    ensures room { room.new.room ≡ room.old.room }
{
    for k in 0..bounds.len() {
        put_bound(sink, room, point, k + 1, bounds[k])?;
    }
    Ok(())
}

fn put_bound<S: Sink>(
    sink: &mut S,
    room: &mut LineRoom,
    point: usize,
    sub: usize,
    bound: u64,
) -> Result<(), SinkFailed>
    requires { 1024 ≤ room.old.room }
    ensures puts { Puts (S.taken sink.old) (S.taken sink.new) (bound_line point sub bound ∷ []) result }
    ensures room { room.new.room ≡ room.old.room }
{
    write_bound(room, point, sub, bound);
    room.put(sink)
}

/// Puts the line of the plan of a pair of points, by one put. Takes no memory.
pub fn put_plan<S: Sink>(sink: &mut S, room: &mut LineRoom, plan: &Plan) -> Result<(), SinkFailed>
    requires room { 1024 ≤ room.old.room }
    requires few { length plan.now.watchdog ≤ 32 }
    ensures puts { Puts (S.taken sink.old) (S.taken sink.new) (plan_line plan.now ∷ []) result }
    ensures room { room.new.room ≡ room.old.room }
{
    write_plan(room, plan);
    room.put(sink)
}

/// Puts the line of a pair of points without a plan, whose first checkpoint is so far (ps) below 0, by one put. Takes no
/// memory.
pub fn put_short<S: Sink>(
    sink: &mut S,
    room: &mut LineRoom,
    a: usize,
    b: usize,
    by_ps: u128,
) -> Result<(), SinkFailed>
    requires { 1024 ≤ room.old.room }
    ensures puts { Puts (S.taken sink.old) (S.taken sink.new) (short_line a b by_ps ∷ []) result }
    ensures room { room.new.room ≡ room.old.room }
{
    write_short(room, a, b, by_ps);
    room.put(sink)
}
