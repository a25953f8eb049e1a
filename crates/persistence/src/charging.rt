// The charge of a scope.
ghost use Rattle.std.specs.Prelude.{◌≡◌, ◌<◌, [], ℕ, filter, length, IfOk};
ghost use Rattle.std.specs.Option.{ForSome};
ghost use Rattle.std.specs.List.Sorted.{IsNonDecreasing};
ghost use Rattle.cache_lru.specs.Contents.{IsBuildable};
ghost use Rattle.cache_lru.specs.Recency.{is_among};
ghost use Rattle.persistence.specs.Charges.{IsCharge, IsRising, charged_by};
ghost use Rattle.persistence.specs.Counts.{IsFreeOf, is_free_by};

use crate::lines::{count_by_set, count_with_room, has_room, lines_of};
use crate::scope::addresses_of;
use crate::sorted::{is_in, is_word_in};
use flow_graph::Graph;
use std::alloc::{AllocError, Global};
use std::marker::Model;
use visa_io::Shape;

/// Which fetches of a scope are charged with a miss, and how many lines are charged once instead.
#[derive(Debug, Drop)]
pub struct LineCharge {
    // the addresses whose fetches aren't charged, ascending
    free: Vec<u64>,
    persistent: u64,
}

impl Model for LineCharge {
    ghost use Rattle.std.specs.List.Sorted.{IsNonDecreasing};
    ghost use Rattle.persistence.specs.Charges.{Charge};

    ghost Value = { Charge };

    ghost view = { λ c. record { free = c.free.items; persistent = c.persistent } };

    ghost invariant = { λ c. IsNonDecreasing c.free.items };
}

impl LineCharge {
    /// Whether the fetch of the instruction at an address is charged. Takes no memory.
    pub fn charged(&self, at: u32) -> bool
        ensures { result ≡ charged_by self.now at }
    {
        !is_in(self.free.as_slice(), u64::from(at))
    }

    /// The number of persistent lines. Takes no memory.
    pub fn persistent(&self) -> u64
        ensures { result ≡ self.now.persistent }
    {
        self.persistent
    }
}

/// What is charged for the fetches of a scope, a set of units, with a cache of a shape or without one. A line is persistent where
/// at most as many lines of its set as there are ways hold instructions of the scope. A fetch of the scope is charged where its
/// line isn't persistent, and it is the first of its block or the one before it in the block lies in another line; without a
/// cache each is. The rule is this project's own.
pub fn charge(
    alloc: Global,
    g: &Graph,
    scope: &[u32],
    shape: Option<Shape>,
) -> Result<LineCharge, AllocError>
    requires rising { IsRising g.now }
    requires shape { ForSome shape IsBuildable }
    ensures { IfOk result (IsCharge g.now scope.now shape) }
{
    match shape {
        Some(shape) => charge_lines(alloc, g, scope, shape),
        None => Ok(charge_all(alloc)),
    }
}

// Every fetch is charged.
fn charge_all(alloc: Global) -> LineCharge
    ensures free { result.free ≡ [] }
    ensures persistent { result.persistent ≡ 0 }
{
    LineCharge {
        free: Vec::new(alloc),
        persistent: 0,
    }
}

fn charge_lines(
    alloc: Global,
    g: &Graph,
    scope: &[u32],
    shape: Shape,
) -> Result<LineCharge, AllocError>
    requires rising { IsRising g.now }
    requires shape { IsBuildable shape }
    ensures { IfOk result (IsCharge g.now scope.now (Some shape)) }
{
    let addresses = addresses_of(alloc, g, scope)?;
    let lines = lines_of(alloc, &addresses, shape)?;
    let counts = count_by_set(alloc, &lines, shape)?;
    let persistent = count_with_room(&lines, &counts, shape);
    let free = free_of(alloc, &addresses, g.blocks(), &counts, shape)?;
    Ok(LineCharge { free, persistent })
}

// The addresses whose fetches aren't charged, ascending.
fn free_of(
    alloc: Global,
    addresses: &[u64],
    blocks: &[u32],
    counts: &[u64],
    shape: Shape,
) -> Result<Vec<u64>, AllocError>
    requires blocks { IsNonDecreasing blocks.now }
    requires some_set { 0 < shape.sets }
    requires some_byte { 0 < shape.line }
    requires counts { length counts.now ≡ shape.sets }
    ensures { IfOk result (λ free. IsFreeOf blocks.now counts.now shape addresses.now free.items) }
{
    let mut free = all_free(alloc, addresses, blocks, counts, shape)?;
    free.sort_unstable();
    Ok(free)
}

fn all_free(
    alloc: Global,
    addresses: &[u64],
    blocks: &[u32],
    counts: &[u64],
    shape: Shape,
) -> Result<Vec<u64>, AllocError>
    requires blocks { IsNonDecreasing blocks.now }
    requires some_set { 0 < shape.sets }
    requires some_byte { 0 < shape.line }
    requires counts { length counts.now ≡ shape.sets }
    ensures { IfOk result (λ free. free.items ≡ filter (is_free_by blocks.now counts.now shape) addresses.now) }
{
    addresses
        .iter()
        .copied()
        .filter(|at| is_free(*at, blocks, counts, shape))
        .collect(alloc)
}

fn is_free(at: u64, blocks: &[u32], counts: &[u64], shape: Shape) -> bool
    requires blocks { IsNonDecreasing blocks.now }
    requires some_set { 0 < shape.sets }
    requires some_byte { 0 < shape.line }
    requires counts { length counts.now ≡ shape.sets }
    ensures { result ≡ is_free_by blocks.now counts.now shape at }
{
    let bytes = u64::from(shape.line);
    let line = at / bytes;
    has_room(counts, shape, line)
        || !(is_word_in(blocks, at) || line != at.saturating_sub(4) / bytes)
}
