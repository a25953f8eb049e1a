// The last counts of each sub-task.
ghost use Rattle.circular_buffer.specs.Buffer.{keep_last};
ghost use Rattle.frequency_pick.specs.Counts.{Count, StandsFor, count, greatest, predicted_by};
ghost use Rattle.std.specs.Prelude.{◌≡◌, ◌≤◌, ◌<◌, ◌-◌, ◌+◌, ◌^◌, [], ◌∷◌, ◌++◌, IfOk, List, fold, length, max, replicate, slice_index_or, slice_set};

use circular_buffer::HeapCircularBuffer;
use std::alloc::{AllocError, Global};
use std::marker::Model;

/// How many of the last counts of a sub-task tell what it will take.
const KEPT: usize = 8;

/// The last eight counts of each sub-task, in cycles. Contracts see a list for each sub-task, its oldest count first, and say for which list
/// of all counts they stand.
#[derive(Drop)]
pub struct History {
    rings: Vec<HeapCircularBuffer<u64>>,
}

impl Model for History {
    ghost use Rattle.std.specs.Prelude.{ℕ, List};

    ghost Value = { List (List ℕ) };

    ghost use Rattle.frequency_pick.specs.Held.{AreRings, kept_in};

    ghost view = { λ h. kept_in h.rings.items };

    ghost invariant = { λ h. AreRings h.rings.items };
}

// The greatest of the counts in a ring, or 0.
fn most_in(ring: &HeapCircularBuffer<u64>) -> u64
    ensures { result ≡ fold max 0 ring.now.items }
{
    ring.iter().fold(0, |most, n| most.max(*n))
}

// The greatest of the counts in a ring; none where it has none.
fn greatest_in(ring: &HeapCircularBuffer<u64>) -> Option<u64>
    ensures { result ≡ greatest ring.now.items }
{
    if ring.is_empty() {
        return None;
    }
    Some(most_in(ring))
}

// A ring without counts.
fn empty_ring(alloc: Global) -> Result<HeapCircularBuffer<u64>, AllocError>
    ensures { IfOk result (λ ring. (ring.items ≡ []) × (ring.capacity ≡ 8)) }
{
    HeapCircularBuffer::with_capacity(alloc, KEPT)
}

// A count is put into the ring of its sub-task.
fn put(ring: &mut HeapCircularBuffer<u64>, cycles: u64)
    requires { ring.old.capacity ≡ 8 }
    ensures items { ring.new.items ≡ keep_last 8 (ring.old.items ++ cycles ∷ []) }
    ensures capacity { ring.new.capacity ≡ 8 }
{
    let _oldest = ring.push_back(cycles);
}

impl History {
    /// A history of so many sub-tasks without counts.
    pub fn new(alloc: Global, subs: usize) -> Result<History, AllocError>
        ensures new { IfOk result (λ h. h ≡ replicate subs []) }
        ensures stands { IfOk result (λ h. StandsFor h []) }
    {
        let mut rings = Vec::new(alloc);
        for _made in 0..subs {
            rings.push(empty_ring(alloc)?)?;
        }
        Ok(History { rings })
    }

    /// A sub-task, numbered from 1, took so many cycles. Takes no memory.
    pub fn push(&mut self, sub: usize, cycles: u64)
        requires least { 1 ≤ sub }
        requires most { sub ≤ length self.old }
        ensures kept { self.new ≡ slice_set self.old (sub - 1) (keep_last 8 (slice_index_or self.old (sub - 1) [] ++ cycles ∷ [])) }
        ensures stands { (cs : List Count) → StandsFor self.old cs → StandsFor self.new (count sub cycles ∷ cs) }
    {
        put(&mut self.rings[sub - 1], cycles);
    }

    /// What a sub-task, numbered from 1, is predicted to take, in cycles: the greatest of its last eight counts. Takes no memory.
    pub(crate) fn predicted(&self, sub: usize) -> Option<u64>
        requires least { 1 ≤ sub }
        requires most { sub ≤ length self.now }
        ensures { result ≡ predicted_by self.now sub }
    {
        greatest_in(&self.rings[sub - 1])
    }
}
