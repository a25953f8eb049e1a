// Units that are found one after the other, in room that is taken beforehand.
ghost use Rattle.std.specs.Prelude.{◌≡◌, ◌<◌, ℕ, IfOk, false, length};
ghost use Rattle.bound_checker.specs.Room as meaning;

use std::alloc::{AllocError, Global};

// Which units are found, by number, and the numbers of the first `count`.
#[derive(Debug, Drop)]
pub(crate) struct Room {
    pub(crate) seen: Vec<bool>,
    pub(crate) found: Vec<usize>,
    pub(crate) count: usize,
}

impl Room {
    // Room for so many units.
    pub(crate) fn new(alloc: Global, units: usize) -> Result<Room, AllocError>
        ensures { IfOk result (meaning.IsRoom units) }
    {
        Ok(Room {
            seen: vec![in alloc; false; units]?,
            found: vec![in alloc; 0; units]?,
            count: 0,
        })
    }
}

// None is found.
pub(crate) fn clear(room: &mut Room)
    requires { meaning.IsSized (length room.old.seen.items) room.old }
    ensures room { meaning.IsRoom (length room.old.seen.items) room.new }
    ensures none { (k : ℕ) → meaning.seen_at room.new k ≡ false }
{
    forget(&mut room.seen);
    room.count = 0;
}

fn forget(seen: &mut Vec<bool>)
    ensures long { length seen.new.items ≡ length seen.old.items }
    ensures none { (k : ℕ) → meaning.mark_at seen.new.items k ≡ false }
{
    for s in seen.iter_mut() {
        *s = false;
    }
}

// A unit is found.
pub(crate) fn put(room: &mut Room, k: usize)
    requires room { meaning.IsRoom (length room.old.seen.items) room.old }
    requires within { k < length room.old.seen.items }
    ensures room { meaning.IsRoom (length room.old.seen.items) room.new }
    ensures adds { meaning.Adds (λ j. j ≡ k) room.old room.new }
{
    if !room.seen[k] {
        room.seen[k] = true;
        room.found[room.count] = k;
        room.count += 1;
    }
}
