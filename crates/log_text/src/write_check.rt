// The lines of a check, each written in the room for it. None of this takes memory.
ghost use Rattle.std.specs.Prelude.{◌≡◌, ◌≤◌, ◌+◌, ◌*◌, ◌∷◌, ◌++◌, [], decimal, length};
ghost use Rattle.log_text.specs.Check.{bound_line, numbers_behind, plan_line, short_line};

use crate::room::{add_decimal, add_wide};
use checkpoint_plan::Plan;
use task_text::LineRoom;

/// Writes the line of the bound (cycles) of a sub-task, which is numbered from 1, at a point, which is numbered from 0.
#[tactic(auto, unfolding(crate::specs::Check::bound_line))]
pub fn write_bound(room: &mut LineRoom, point: usize, sub: usize, bound: u64)
    requires { 1024 ≤ room.old.room }
    ensures line { room.new.line ≡ bound_line point sub bound }
    ensures room { room.new.room ≡ room.old.room }
{
    room.clear();
    room.add(b"bound ");
    add_decimal(room, point as u64);
    room.add(b" ");
    add_decimal(room, sub as u64);
    room.add(b" ");
    add_decimal(room, bound);
    room.add(b"\n");
}

/// Writes the line of the plan of a pair of points.
#[tactic(auto, unfolding(crate::specs::Check::plan_line))]
pub fn write_plan(room: &mut LineRoom, plan: &Plan)
    requires room { 1024 ≤ room.old.room }
    requires few { length plan.now.watchdog ≤ 32 }
    ensures line { room.new.line ≡ plan_line plan.now }
    ensures room { room.new.room ≡ room.old.room }
{
    room.clear();
    room.add(b"plan ");
    add_decimal(room, u64::from(plan.a));
    room.add(b" ");
    add_decimal(room, u64::from(plan.b));
    room.add(b" ");
    add_wide(room, plan.overhead_ps);
    add_numbers(room, plan.watchdog.as_slice());
    room.add(b"\n");
}

// Adds numbers, each behind a space.
fn add_numbers(room: &mut LineRoom, numbers: &[u64])
    requires { length room.old.line + 21 * length numbers.now ≤ room.old.room }
    ensures line { room.new.line ≡ room.old.line ++ numbers_behind numbers.now }
    ensures len { length room.new.line ≤ length room.old.line + 21 * length numbers.now }
    ensures room { room.new.room ≡ room.old.room }
{
    for number in numbers {
        add_number(room, *number);
    }
}

fn add_number(room: &mut LineRoom, number: u64)
    requires { length room.old.line + 21 ≤ room.old.room }
    ensures line { room.new.line ≡ room.old.line ++ numbers_behind (number ∷ []) }
    ensures len { length room.new.line ≤ length room.old.line + 21 }
    ensures room { room.new.room ≡ room.old.room }
{
    room.add(b" ");
    add_decimal(room, number);
}

/// Writes the line of a pair of points without a plan, whose first checkpoint is so far (ps) below 0.
#[tactic(auto, unfolding(crate::specs::Check::short_line))]
pub fn write_short(room: &mut LineRoom, a: usize, b: usize, by_ps: u128)
    requires { 1024 ≤ room.old.room }
    ensures line { room.new.line ≡ short_line a b by_ps }
    ensures room { room.new.room ≡ room.old.room }
{
    room.clear();
    room.add(b"short ");
    add_decimal(room, a as u64);
    room.add(b" ");
    add_decimal(room, b as u64);
    room.add(b" ");
    add_wide(room, by_ps);
    room.add(b"\n");
}
