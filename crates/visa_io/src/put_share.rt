// Which part of a piece a sink in memory takes.
ghost use Rattle.std.specs.Prelude as P;
ghost use Rattle.std.specs.Prelude.{◌≡◌, ◌≤◌, ◌+◌, ◌++◌, length, vec_len, vec_capacity};
ghost use Rattle.visa_io.specs.MemorySinks.{kept_at, takes_whole, put_bytes};

use crate::PutFail;

/// How many bytes a failing call keeps at most.
pub(crate) fn kept_bytes(fails: &[PutFail], call: u64) -> Option<u64>
    ensures { result ≡ kept_at fails.now call }
{
    fails
        .iter()
        .find(|fail| fail.call == call)
        .map(|fail| fail.kept)
}

/// Whether a piece is taken whole, with this room left.
pub(crate) fn is_taken_whole(kept: Option<u64>, left: usize, piece: &[u8]) -> bool
    ensures { result ≡ takes_whole kept left piece.now }
{
    kept.is_none() && piece.len() <= left
}

/// The part of a piece that is appended, with this room left.
pub(crate) fn part_put(kept: Option<u64>, left: usize, piece: &[u8]) -> &[u8]
    ensures part { result.now ≡ put_bytes kept left piece.now }
    ensures fits { length result.now ≤ left }
{
    match kept {
        Some(kept) => {
            let most = usize::try_from(kept).unwrap_or(usize::MAX);
            first(first(piece, most), left)
        }
        None if piece.len() <= left => piece,
        None => &[],
    }
}

// The first bytes of a piece.
fn first(piece: &[u8], most: usize) -> &[u8]
    ensures part { result.now ≡ P.take most piece.now }
    ensures fits { length result.now ≤ most }
{
    &piece[..most.min(piece.len())]
}

/// Appends within the capacity, which stays.
pub(crate) fn append(bytes: &mut Vec<u8>, part: &[u8])
    requires { vec_len bytes.old + length part.now ≤ vec_capacity bytes.old }
    ensures items { bytes.new.items ≡ bytes.old.items ++ part.now }
    ensures len { vec_len bytes.new ≡ vec_len bytes.old + length part.now }
    ensures capacity { vec_capacity bytes.new ≡ vec_capacity bytes.old }
{
    for byte in part {
        bytes.push_reserved(*byte);
    }
}
