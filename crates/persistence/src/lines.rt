// The lines of a scope, and how many of them each set has.
ghost use Rattle.std.specs.Prelude.{◌≡◌, ◌<◌, ◌≤◌, ◌/◌, ◌%◌, ◌+◌, ◌^◌, ℕ, map, length, count_by, slice_index, slice_set, nat_le, IfOk};
ghost use Rattle.persistence.specs.Counts.{IsCount, IsEachOnce, count_in, has_room};

use std::alloc::{AllocError, Global};
use visa_io::Shape;

/// The lines of some addresses, each once and ascending.
pub(crate) fn lines_of(
    alloc: Global,
    addresses: &[u64],
    shape: Shape,
) -> Result<Vec<u64>, AllocError>
    requires { 0 < shape.line }
    ensures { IfOk result (λ lines. IsEachOnce lines.items (map (λ at. at / shape.line) addresses.now)) }
{
    let mut lines = all_lines(alloc, addresses, shape.line)?;
    lines.sort_unstable();
    lines.dedup();
    Ok(lines)
}

fn all_lines(alloc: Global, addresses: &[u64], line: u32) -> Result<Vec<u64>, AllocError>
    requires { 0 < line }
    ensures { IfOk result (λ lines. lines.items ≡ map (λ at. at / line) addresses.now) }
{
    let bytes = u64::from(line);
    addresses.iter().map(|at| *at / bytes).collect(alloc)
}

/// How many of some lines lie in each set.
pub(crate) fn count_by_set(
    alloc: Global,
    lines: &[u64],
    shape: Shape,
) -> Result<Vec<u64>, AllocError>
    requires { 0 < shape.sets }
    ensures { IfOk result (λ counts. IsCount shape lines.now counts.items) }
{
    let mut counts = vec![in alloc; 0; shape.sets as usize]?;
    for line in lines {
        raise(&mut counts, (*line % u64::from(shape.sets)) as usize);
    }
    Ok(counts)
}

fn raise(counts: &mut Vec<u64>, set: usize)
    requires set { set < length counts.old.items }
    requires room { slice_index counts.old.items set + 1 < 2 ^ 64 }
    ensures { counts.new.items ≡ slice_set counts.old.items set (slice_index counts.old.items set + 1) }
{
    counts[set] += 1;
}

/// Whether the set of a line has no more lines than ways.
pub(crate) fn has_room(counts: &[u64], shape: Shape, line: u64) -> bool
    requires some { 0 < shape.sets }
    requires counts { length counts.now ≡ shape.sets }
    ensures { result ≡ has_room counts.now shape line }
{
    counts[(line % u64::from(shape.sets)) as usize] <= u64::from(shape.ways)
}

/// How many lines have such sets.
pub(crate) fn count_with_room(lines: &[u64], counts: &[u64], shape: Shape) -> u64
    requires some { 0 < shape.sets }
    requires counts { length counts.now ≡ shape.sets }
    ensures { result ≡ count_by (has_room counts.now shape) lines.now }
{
    lines
        .iter()
        .filter(|line| has_room(counts, shape, **line))
        .count() as u64
}
