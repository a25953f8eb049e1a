// The spans and bytes of segments.
ghost use Rattle.std.specs.Prelude as P;
ghost use Rattle.std.specs.Prelude.{◌≡◌, ◌≤◌, ◌<◌, ◌+◌, ◌-◌, ◌^◌, ◌++◌, ℕ, true, length, map, take, drop, replicate, IfOk, OnOk, IfErr, MatchResult, vec_len};
ghost use Rattle.std.specs.List.{AllByRecursion};
ghost use Rattle.visa_io.specs.ImageCode.{IsFilled};
ghost use Rattle.mips_elf.specs.Header.{lies_in};
ghost use Rattle.mips_elf.specs.Images.{span_of, content_of, contents_of, image_from, IsSound, NoneRefused, MayLoad, MayNotLoad};

use crate::ElfError;
use crate::header::Header;
use crate::overlap::least_refused;
use crate::section::read_sections;
use crate::segment::{Segment, memory_len};
use crate::symbol::read_symbols;
use std::alloc::{AllocError, Global};
use visa_io::{Image, List, Span};

/// How much memory the segments may take, in bytes.
const MOST_MEMORY: u64 = 4_194_304;

/// Whether segments may be loaded: apart from one another, and not too large.
pub(crate) fn check_memory(loads: &[Segment]) -> Result<(), ElfError>
    requires { length loads.now ≤ 64 }
    ensures { MatchResult result (λ _. MayLoad loads.now) (MayNotLoad loads.now) }
{
    if let Some(at) = least_refused(loads) {
        return Err(ElfError::Overlap { at });
    }
    if memory_len(loads) > MOST_MEMORY {
        return Err(ElfError::TooBig);
    }
    Ok(())
}

/// The image of segments.
#[tactic(auto, unfolding(crate::specs::Images::image_from))]
pub(crate) fn build(
    alloc: Global,
    header: Header,
    bytes: &[u8],
    loads: &[Segment],
) -> Result<Image, AllocError>
    requires sound { AllByRecursion (IsSound (length bytes.now)) loads.now }
    requires apart { NoneRefused loads.now }
    ensures image { IfOk result (λ image. image ≡ image_from header bytes.now loads.now) }
    ensures filled { IfOk result IsFilled }
{
    let sections = read_sections(alloc, header, bytes)?;
    Ok(Image {
        big: header.big,
        entry: header.entry,
        spans: spans(alloc, loads)?,
        bytes: contents(alloc, bytes, loads)?,
        symbols: read_symbols(alloc, header.big, bytes, &sections)?,
    })
}

fn spans(alloc: Global, loads: &[Segment]) -> Result<List<Span>, AllocError>
    ensures { IfOk result (λ spans. spans ≡ map span_of loads.now) }
{
    let mut spans = List::new(alloc);
    for s in loads {
        spans.push(span(*s))?;
    }
    Ok(spans)
}

fn span(s: Segment) -> Span
    ensures { result ≡ span_of s }
{
    Span {
        start: s.address,
        len: s.memory_len,
        r: s.flags / 4 % 2 == 1,
        w: s.flags / 2 % 2 == 1,
        x: s.flags % 2 == 1,
    }
}

fn contents(alloc: Global, bytes: &[u8], loads: &[Segment]) -> Result<List<u8>, AllocError>
    requires { AllByRecursion (IsSound (length bytes.now)) loads.now }
    ensures { IfOk result (λ all. all ≡ contents_of bytes.now loads.now) }
{
    let mut all = Vec::new(alloc);
    for s in loads {
        push_content(&mut all, bytes, *s)?;
    }
    Ok(List::from_vec(all))
}

fn push_content(all: &mut Vec<u8>, bytes: &[u8], s: Segment) -> Result<(), AllocError>
    requires { IsSound (length bytes.now) s }
    ensures { OnOk result (all.new.items ≡ all.old.items ++ content_of bytes.now s) }
{
    all.extend_from_slice(file_bytes(bytes, s))?;
    push_zeros(all, (s.memory_len - s.file_len) as usize)
}

fn push_zeros(all: &mut Vec<u8>, count: usize) -> Result<(), AllocError>
    requires { count < 2 ^ 32 }
    ensures { OnOk result (all.new.items ≡ all.old.items ++ replicate count 0) }
{
    let len = all.len();
    all.resize(len + count, 0)
}

fn file_bytes(bytes: &[u8], s: Segment) -> &[u8]
    requires { lies_in (length bytes.now) s.offset s.file_len ≡ true }
    ensures { result.now ≡ take s.file_len (drop s.offset bytes.now) }
{
    if s.file_len == 0 {
        return &[];
    }
    let start = s.offset as usize;
    &bytes[start..start + s.file_len as usize]
}
