// A memory's ranges: how it is made of them, filled, and asked what it covers.
ghost use Rattle.std.specs.Prelude.{ℕ, ◌≡◌, ◌<◌, ◌≤◌, ◌+◌, ◌^◌, length, replicate, take, vec_len, IfOk, IsTrue};
ghost use Rattle.mips_ref.specs.Held.{firsts_from};
ghost use Rattle.mips_ref.specs.Layout.{ByAddress, CoveredTo, Covers, Made, first_refused, overwritten};
ghost use Rattle.mips_ref.specs.Memory.{declared_at, port, put_bytes, total_len};

use crate::memory::{Memory, PORT, takes_stores};
use std::alloc::{AllocError, Global};
use visa_io::Span;

/// Why there is no memory of the ranges that were given.
#[derive(Clone, Copy, Debug, PartialEq, Eq)]
pub enum MemoryError {
    /// Two ranges share an address, or one has an address of ffff0000 or above; the least such address.
    Overlap { at: u32 },
    /// The ranges have more than 4194304 bytes.
    TooBig,
    /// Memory ran out.
    Memory,
}

// The greatest memory, in bytes.
const GREATEST: u32 = 4_194_304;

// The ranges that aren't empty, by rising address.
fn by_address(alloc: Global, spans: &[Span]) -> Result<Vec<Span>, AllocError>
    ensures { IfOk result (λ v. ByAddress spans.now v.items) }
{
    let mut held: Vec<Span> = spans.iter().copied().filter(|s| 0 < s.len).collect(alloc)?;
    held.sort_unstable_by_key(|s| s.start);
    Ok(held)
}

// The least address that two ranges share, or that one has at the port or above.
fn first_refused(spans: &[Span]) -> Option<u32>
    ensures { result ≡ first_refused 0 spans.now }
{
    let mut end = 0u64;
    for s in spans {
        if s.start >= PORT {
            return Some(if end > u64::from(PORT) { PORT } else { s.start });
        }
        if u64::from(s.start) < end {
            return Some(s.start);
        }
        end = u64::from(s.start) + u64::from(s.len);
    }
    if end > u64::from(PORT) {
        Some(PORT)
    } else {
        None
    }
}

// How many bytes come before each range.
#[tactic(auto, unfolding(crate::specs::Held::firsts_from, crate::specs::Memory::total_len))]
fn firsts(alloc: Global, spans: &[Span]) -> Result<Vec<u32>, AllocError>
    requires { total_len spans.now < 2 ^ 32 }
    ensures { IfOk result (λ v. v.items ≡ firsts_from 0 spans.now) }
{
    let mut before = 0;
    let mut firsts = Vec::new(alloc);
    for s in spans {
        firsts.push(before)?;
        before += s.len;
    }
    Ok(firsts)
}

// How many bytes ranges have.
#[tactic(auto, unfolding(crate::specs::Memory::total_len))]
fn total_len(spans: &[Span]) -> u32
    requires { total_len spans.now < 2 ^ 32 }
    ensures { result ≡ total_len spans.now }
{
    let mut total = 0;
    for s in spans {
        total += s.len;
    }
    total
}

// So many zeros.
fn zeros(alloc: Global, len: u32) -> Result<Vec<u8>, AllocError>
    ensures { IfOk result (λ v. v.items ≡ replicate len 0) }
{
    let bytes = vec![in alloc; 0; len as usize]?;
    Ok(bytes)
}

// Replaces the bytes from an index on.
fn overwrite(bytes: &mut Vec<u8>, index: usize, run: &[u8])
    requires { index + length run.now ≤ vec_len bytes.old }
    ensures items { bytes.new.items ≡ overwritten index run.now bytes.old.items }
    ensures len { vec_len bytes.new ≡ vec_len bytes.old }
{
    bytes[index..index + run.len()].copy_from_slice(run);
}

impl Memory {
    /// A memory of the ranges that aren't empty, with zeros in it. `Overlap` exactly where two ranges share an address or
    /// one has an address of ffff0000 or above, at the least such address; then `TooBig` exactly where they have more
    /// than 4194304 bytes; `Memory` where memory runs out.
    pub fn new(alloc: Global, spans: &[Span], big: bool) -> Result<Memory, MemoryError>
        ensures { Made spans.now big result }
    {
        let held = by_address(alloc, spans).map_err(|_| MemoryError::Memory)?;
        if let Some(at) = first_refused(&held) {
            return Err(MemoryError::Overlap { at });
        }
        let total = total_len(&held);
        if total > GREATEST {
            return Err(MemoryError::TooBig);
        }
        let firsts = firsts(alloc, &held).map_err(|_| MemoryError::Memory)?;
        let bytes = zeros(alloc, total).map_err(|_| MemoryError::Memory)?;
        Ok(Memory {
            spans: held,
            firsts,
            bytes,
            big,
        })
    }

    // Puts in those of the bytes, from a declared address on, that stand in the address's range; how many these are.
    fn fill_run(&mut self, at: u32, bytes: &[u8]) -> usize
        requires declared { IsTrue (declared_at self.old at) }
        requires any { 0 < length bytes.now }
        ensures any { 0 < result }
        ensures within { result ≤ length bytes.now }
        ensures below_port { at + result ≤ port }
        ensures filled { self.new ≡ put_bytes self.old at (take result bytes.now) }
    {
        let Some(place) = self.place(at) else {
            return 0;
        };
        let room = place.span.start + place.span.len - at;
        let count = bytes.len().min(room as usize);
        overwrite(&mut self.bytes, place.index, &bytes[..count]);
        count
    }

    /// Puts bytes in from an address on; each address that they take is declared. Takes no memory.
    pub fn fill(&mut self, at: u32, bytes: &[u8])
        requires { (k : ℕ) → k < length bytes.now → IsTrue (declared_at self.old (at + k)) }
        ensures { self.new ≡ put_bytes self.old at bytes.now }
    {
        let mut next = at;
        let mut done = 0;
        while done < bytes.len() {
            let count = self.fill_run(next, &bytes[done..]);
            next += count as u32;
            done += count;
        }
    }

    // Where the range ends that covers an address; None where none does.
    fn covered_to(&self, at: u32, write: bool) -> Option<u32>
        ensures { CoveredTo write self.now at result }
    {
        let place = self.place(at)?;
        if write && !takes_stores(place.span) {
            return None;
        }
        Some(place.span.start + place.span.len)
    }

    /// The least of so many addresses that isn't declared or, with `write`, can't be stored to; None exactly where there
    /// is none. Takes no memory.
    pub fn covers(&self, at: u32, len: u32, write: bool) -> Option<u32>
        ensures { Covers write self.now at (at + len) result }
    {
        let end = u64::from(at) + u64::from(len);
        let mut next = at;
        while u64::from(next) < end {
            match self.covered_to(next, write) {
                None => return Some(next),
                Some(past) => next = past,
            }
        }
        None
    }
}
