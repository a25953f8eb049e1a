// The program headers of an ELF file.
ghost use Rattle.std.specs.Prelude as P;
ghost use Rattle.std.specs.Prelude.{◌≡◌, ◌≤◌, ◌<◌, ◌+◌, ◌*◌, ◌^◌, ℕ, length, IfOk, IfErr, OnErr, None, Some};
ghost use Rattle.std.specs.List.{list_any};
ghost use Rattle.mips_elf.specs.Segments.{segment_at, segments_from, is_dynamic, is_load, segment_fault, loads_fault, segments_fault, takes_memory, loads_of, memory_of};

use crate::ElfError;
use crate::header::{Header, is_within, truncated, word};
use std::alloc::{AllocError, Global};

/// A program header.
#[derive(Clone, Copy, Debug)]
pub(crate) struct Segment {
    pub(crate) kind: u32,
    /// Where its bytes stand in the file.
    pub(crate) offset: u32,
    pub(crate) address: u32,
    pub(crate) file_len: u32,
    pub(crate) memory_len: u32,
    pub(crate) flags: u32,
}

/// So many program headers from a place on.
pub(crate) fn read_segments(
    alloc: Global,
    big: bool,
    bytes: &[u8],
    at: usize,
    count: usize,
) -> Result<Vec<Segment>, AllocError>
    requires { at + 32 * count ≤ length bytes.now }
    ensures { IfOk result (λ segments. segments.items ≡ segments_from big bytes.now at count) }
{
    let mut segments = Vec::new(alloc);
    for k in 0..count {
        segments.push(read_segment(big, bytes, at + 32 * k))?;
    }
    Ok(segments)
}

#[tactic(auto, unfolding(crate::specs::Segments::segment_at))]
fn read_segment(big: bool, bytes: &[u8], at: usize) -> Segment
    requires { at + 32 ≤ length bytes.now }
    ensures { result ≡ segment_at big bytes.now at }
{
    Segment {
        kind: word(big, bytes, at),
        offset: word(big, bytes, at + 4),
        address: word(big, bytes, at + 8),
        file_len: word(big, bytes, at + 16),
        memory_len: word(big, bytes, at + 20),
        flags: word(big, bytes, at + 24),
    }
}

/// The first rule on the program headers that fails.
pub(crate) fn fault_of_segments(len: u64, segments: &[Segment]) -> Option<ElfError>
    requires { length segments.now < 2 ^ 32 }
    ensures { result ≡ segments_fault len segments.now }
{
    if asks_for_linker(segments) {
        return Some(ElfError::Dynamic);
    }
    fault_of_loads(len, segments)
}

fn asks_for_linker(segments: &[Segment]) -> bool
    ensures { result ≡ list_any is_dynamic segments.now }
{
    segments.iter().any(|s| is_for_linker(*s))
}

fn fault_of_loads(len: u64, segments: &[Segment]) -> Option<ElfError>
    requires { length segments.now < 2 ^ 32 }
    ensures { result ≡ loads_fault len 0 segments.now }
{
    for (number, s) in segments.iter().enumerate() {
        if let Some(fault) = fault_of_segment(len, number as u32, *s) {
            return Some(fault);
        }
    }
    None
}

fn fault_of_segment(len: u64, number: u32, s: Segment) -> Option<ElfError>
    ensures { result ≡ segment_fault len number s }
{
    if s.kind != 1 {
        return None;
    }
    if !is_within(len, s.offset, u64::from(s.file_len)) {
        return Some(ElfError::Truncated { offset: len });
    }
    if s.file_len > s.memory_len {
        return Some(ElfError::SegmentSize { segment: number });
    }
    None
}

fn is_for_linker(s: Segment) -> bool
    ensures { result ≡ is_dynamic s }
{
    s.kind == 2 || s.kind == 3
}

/// The segments that take memory.
pub(crate) fn memory_segments(
    alloc: Global,
    segments: &[Segment],
) -> Result<Vec<Segment>, AllocError>
    ensures { IfOk result (λ loads. loads.items ≡ loads_of segments.now) }
{
    let mut loads = Vec::new(alloc);
    for s in segments {
        if has_memory(*s) {
            loads.push(*s)?;
        }
    }
    Ok(loads)
}

fn has_memory(s: Segment) -> bool
    ensures { result ≡ takes_memory s }
{
    s.kind == 1 && s.memory_len > 0
}

/// How many bytes of memory segments take.
pub(crate) fn memory_len(loads: &[Segment]) -> u64
    requires { length loads.now ≤ 64 }
    ensures { result ≡ memory_of loads.now }
{
    loads.iter().map(|s| u64::from(s.memory_len)).sum()
}
