// Numbers and entries of lists, that only grow.
ghost use Rattle.path_wcet.specs.Known.{AreStill, IsFar, IsUpTo, capped, entry, entry_at as entry_of, entry_room, joined, read, room, rooms};
ghost use Rattle.std.specs.Prelude.{◌≡◌, ◌<◌, ◌≤◌, ◌^◌, ◌-◌, length, slice_get, slice_index, slice_set, Some, true, false};

/// The greatest cost that is told.
pub(crate) const CAP: u64 = 1_000_000_000_000_000_000;

/// Up to this sum all sums are kept.
pub(crate) const LIMIT: u64 = 3_000_000_000_000_000_000;

/// A number of a list, up to the cap.
pub(crate) fn read_at(xs: &[u64], u: usize) -> u64
    ensures is { result ≡ read xs.now u }
    ensures within { result ≤ 1000000000000000000 }
{
    if u < xs.len() { xs[u].min(CAP) } else { 0 }
}

pub(crate) fn number_at(xs: &[u64], u: usize) -> u64
    ensures { result ≡ slice_index xs.now u }
{
    if u < xs.len() { xs[u] } else { 0 }
}

pub(crate) fn count_at(xs: &[u32], u: usize) -> u32
    ensures { result ≡ slice_index xs.now u }
{
    if u < xs.len() { xs[u] } else { 0 }
}

/// An entry up to the limit.
pub(crate) fn limited(o: Option<u64>) -> Option<u64>
    ensures is { result ≡ capped o }
    ensures within { IsUpTo 3000000000000000000 result }
{
    match o {
        Some(n) => Some(n.min(LIMIT)),
        None => None,
    }
}

/// The entry of a unit up to the limit, in a list that begins at the unit of a number.
pub(crate) fn entry_at(base: usize, xs: &[Option<u64>], u: usize) -> Option<u64>
    ensures is { result ≡ entry base xs.now u }
    ensures within { IsUpTo 3000000000000000000 result }
{
    if u < base || u - base >= xs.len() {
        return None;
    }
    limited(xs[u - base])
}

/// Raises a number to a higher one. Says whether that was higher.
pub(crate) fn raise(xs: &mut [u64], u: usize, v: u64) -> bool
    requires { u < length xs.old }
    ensures beside { length xs.new ≡ length xs.old }
    ensures kept { result ≡ false → xs.new ≡ xs.old }
    ensures enough { result ≡ false → v ≤ slice_index xs.old u }
    ensures set { result ≡ true → xs.new ≡ slice_set xs.old u v }
    ensures less { result ≡ true → room xs.new < room xs.old }
{
    if v <= xs[u] {
        return false;
    }
    xs[u] = v;
    true
}

/// Raises an entry to a higher number, or makes one. Says whether it did.
pub(crate) fn raise_entry(xs: &mut [Option<u64>], u: usize, v: u64) -> bool
    requires { u < length xs.old }
    ensures beside { length xs.new ≡ length xs.old }
    ensures kept { result ≡ false → xs.new ≡ xs.old }
    ensures enough { result ≡ false → IsFar (entry_of xs.old u) v }
    ensures set { result ≡ true → xs.new ≡ slice_set xs.old u (Some v) }
    ensures less { result ≡ true → rooms xs.new < rooms xs.old }
    ensures still { AreStill xs.old xs.new }
{
    if is_far(xs[u], v) {
        return false;
    }
    xs[u] = Some(v);
    true
}

fn is_far(o: Option<u64>, v: u64) -> bool
    ensures far { result ≡ true → IsFar o v }
    ensures near { result ≡ false → 2 ^ 64 - 1 - v < entry_room o }
{
    match o {
        Some(n) => v <= n,
        None => false,
    }
}
