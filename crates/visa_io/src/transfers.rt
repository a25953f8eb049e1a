// Whole reads and whole writes, over std's readers and writers.
ghost use Rattle.std.specs.Prelude as P;
ghost use Rattle.std.specs.Prelude.{◌≡◌, ◌<◌, ◌≤◌, ◌+◌, ◌-◌, [], ◌++◌, ℕ, length, take, IfOk, IfErr, IfSome, OnOk, OnErr, MatchOption, vec_len};
ghost use Rattle.std.specs.Io.KnownBytes.{Appends, Keeps, ReadConsumes};
ghost use Rattle.visa_io.specs.Faults.{risen};
ghost use Rattle.visa_io.specs.Reads.{TookFor, faults_after};
ghost use Rattle.visa_io.specs.Transfers.{GivesFile, ReadsOnce, ReadsUpTo, Takes, faults_once};

use crate::{FileFault, List, SinkFailed};
use std::alloc::Global;
use std::io::{Read, Write};

/// The bytes of a buffer between a file and memory.
const BUFFER: usize = 8192;

/// The number of bytes that a reader gave, up to its end or until more than `max` came, and the bytes, or why there are none.
/// A read that fails is counted.
pub(crate) fn read_whole<F: Read>(
    alloc: Global,
    file: &mut F,
    max: u64,
    faults: &mut u64,
) -> (u64, Result<List<u8>, FileFault>)
    ensures faults { faults.new ≡ faults_after result.1 faults.old }
    ensures gives { IfSome (F.remaining file.old) (λ content. GivesFile max content result.1) }
    ensures fits { IfOk result.1 (λ bytes. length bytes ≤ max) }
    ensures taken { TookFor result.1 max result.0 }
{
    let mut bytes = Vec::new(alloc);
    let end = read_up_to(file, &mut bytes, max, faults);
    let taken = bytes.len() as u64;
    match end {
        Ok(()) => (taken, Ok(List::from_vec(bytes))),
        Err(fault) => (taken, Err(fault)),
    }
}

/// Reads to the end, or until more than `max` bytes came. At first `bytes` is empty.
fn read_up_to<F: Read>(
    file: &mut F,
    bytes: &mut Vec<u8>,
    max: u64,
    faults: &mut u64,
) -> Result<(), FileFault>
    requires { bytes.old.items ≡ [] }
    ensures faults { faults.new ≡ faults_after result faults.old }
    ensures bytes { ReadsUpTo max (F.remaining file.old) (F.remaining file.new) bytes.new.items result }
{
    let mut buffer = [0u8; BUFFER];
    while bytes.len() as u64 <= max {
        if read_piece(file, &mut buffer, bytes, faults)? == 0 {
            return Ok(());
        }
    }
    Err(FileFault::Long)
}

/// Reads once, at most a buffer, and appends what came. No bytes come at the end alone.
fn read_piece<F: Read>(
    file: &mut F,
    buffer: &mut [u8],
    bytes: &mut Vec<u8>,
    faults: &mut u64,
) -> Result<usize, FileFault>
    requires { 0 < length buffer.old }
    ensures faults { faults.new ≡ faults_after result faults.old }
    ensures bytes { ReadsOnce (F.remaining file.old) (F.remaining file.new) bytes.old.items bytes.new.items result }
{
    let Some(n) = read_some(file, buffer, faults) else {
        return Err(FileFault::Failed);
    };
    if n == 0 {
        return Ok(0);
    }
    match bytes.extend_from_slice(&buffer[..n]) {
        Ok(()) => Ok(n),
        Err(_) => Err(FileFault::Memory),
    }
}

/// Reads once. None comes where the read failed, which is counted.
fn read_some<F: Read>(file: &mut F, buffer: &mut [u8], faults: &mut u64) -> Option<usize>
    requires { 0 < length buffer.old }
    ensures faults { faults.new ≡ faults_once result faults.old }
    ensures bytes { Takes (F.remaining file.old) (F.remaining file.new) buffer.new result }
{
    match file.read(buffer) {
        Ok(n) => Some(n),
        Err(_) => {
            *faults = faults.saturating_add(1);
            None
        }
    }
}

/// Writes a whole piece. A write that fails, or takes nothing of what is left, ends it.
pub(crate) fn write_whole<W: Write>(to: &mut W, piece: &[u8]) -> Result<(), SinkFailed>
    ensures whole { OnOk result (Appends (W.contents to.old) (W.contents to.new) piece.now) }
    ensures part { OnErr result ((n : ℕ) × (n < length piece.now) × Appends (W.contents to.old) (W.contents to.new) (take n piece.now)) }
{
    let mut done = 0;
    while done < piece.len() {
        done += write_piece(to, &piece[done..])?;
    }
    Ok(())
}

/// Writes once, of a piece that isn't empty.
fn write_piece<W: Write>(to: &mut W, piece: &[u8]) -> Result<usize, SinkFailed>
    requires { 0 < length piece.now }
    ensures bounds { IfOk result (λ n. (0 < n) × (n ≤ length piece.now)) }
    ensures bytes { IfOk result (λ n. Appends (W.contents to.old) (W.contents to.new) (take n piece.now)) }
    ensures nothing { OnErr result (Appends (W.contents to.old) (W.contents to.new) []) }
{
    match to.write(piece) {
        Ok(0) => Err(SinkFailed),
        Ok(n) => Ok(n),
        Err(_) => Err(SinkFailed),
    }
}
