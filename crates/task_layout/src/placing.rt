// A task's memory, with its image in it.
ghost use Rattle.std.specs.Prelude.{◌≡◌, ◌≢◌, ◌≤◌, ◌<◌, ◌++◌, ◌^◌, All, length, take, drop, if◌then◌else◌, IfOk};
ghost use Rattle.visa_io.specs.ImageCode.{IsFilled, total_len as len_of};
ghost use Rattle.task_layout.specs.Layout.{IsDeclared, IsEmpty, IsLayout, code_len as code_len_lem, fault_of as fault_of_lem, filled};
ghost use Rattle.mips_ref.specs.Layout.{Made};
ghost use Rattle.mips_ref.specs.Memory.{put_bytes};

use crate::LayoutFault;
use crate::coverage::first_uncovered;
use mips_ref::{Memory, MemoryError};
use std::alloc::{AllocError, Global};
use task_text::Task;
use visa_io::{Image, Span};

/// The greatest code, in bytes.
const GREATEST_CODE: u64 = 262_144;

/// The memory of a task with its image: the image's ranges and the task's own, in the image's byte order, with the
/// image's bytes in them, and zero elsewhere.
///
/// # Errors
///
/// The first rule of `LayoutFault` that is broken; `Memory` where there was none.
pub fn layout(alloc: Global, task: &Task, image: &Image) -> Result<Memory, LayoutFault>
    requires { IsFilled image.now }
    ensures { IsLayout task.now image.now result }
{
    if task.big != image.big {
        return Err(LayoutFault::OrderDiffers);
    }
    match empty_memory(
        alloc,
        image.spans.as_slice(),
        task.ram.as_slice(),
        image.big,
    ) {
        Ok(memory) => with_image(memory, task, image),
        Err(error) => Err(fault_of(error)),
    }
}

fn fault_of(error: MemoryError) -> LayoutFault
    ensures { result ≡ fault_of_lem error }
{
    match error {
        MemoryError::Overlap { at } => LayoutFault::Overlap { at },
        MemoryError::TooBig => LayoutFault::TooBig,
        MemoryError::Memory => LayoutFault::Memory,
    }
}

/// A memory of the ranges of an image and a task's own.
fn empty_memory(
    alloc: Global,
    spans: &[Span],
    ram: &[Span],
    big: bool,
) -> Result<Memory, MemoryError>
    ensures { Made (spans.now ++ ram.now) big result }
{
    let Ok(ranges) = joined(alloc, spans, ram) else {
        return Err(MemoryError::Memory);
    };
    Memory::new(alloc, &ranges, big)
}

fn joined(alloc: Global, first: &[Span], second: &[Span]) -> Result<Vec<Span>, AllocError>
    ensures { IfOk result (λ spans. spans.items ≡ first.now ++ second.now) }
{
    let mut spans = Vec::new(alloc);
    spans.extend_from_slice(first)?;
    spans.extend_from_slice(second)?;
    Ok(spans)
}

/// An empty memory with the image in it, where the image's code is small and the memory covers what the task needs. Takes no
/// memory.
fn with_image(mut memory: Memory, task: &Task, image: &Image) -> Result<Memory, LayoutFault>
    requires empty { IsEmpty task.now image.now memory }
    requires filled { IsFilled image.now }
    ensures layout { IsLayout task.now image.now result }
    ensures no_want { result ≢ Err LayoutFault.Memory }
{
    if code_len(image.spans.as_slice()) > GREATEST_CODE {
        return Err(LayoutFault::CodeBig);
    }
    if let Some(at) = first_uncovered(&memory, task) {
        return Err(LayoutFault::Uncovered { at });
    }
    fill(&mut memory, image.spans.as_slice(), image.bytes.as_slice());
    Ok(memory)
}

/// How many bytes can be executed.
fn code_len(spans: &[Span]) -> u64
    requires { len_of spans.now < 2 ^ 64 }
    ensures { result ≡ code_len_lem spans.now }
{
    let mut total = 0;
    for span in spans {
        total += u64::from(code_in(*span));
    }
    total
}

fn code_in(span: Span) -> u32
    ensures { result ≡ (if span.x then span.len else 0) }
{
    if span.x { span.len } else { 0 }
}

/// Puts bytes into ranges, which have as many.
fn fill(memory: &mut Memory, spans: &[Span], bytes: &[u8])
    requires bytes { length bytes.now ≡ len_of spans.now }
    requires declared { All (IsDeclared memory.old) spans.now }
    ensures { memory.new ≡ filled spans.now bytes.now memory.old }
{
    let mut rest = bytes;
    for span in spans {
        rest = fill_one(memory, *span, rest);
    }
}

/// Puts the first of some bytes into a range; those that are left.
fn fill_one<'a>(memory: &mut Memory, span: Span, bytes: &'a [u8]) -> &'a [u8]
    requires bytes { span.len ≤ length bytes.now }
    requires declared { IsDeclared memory.old span }
    ensures filled { memory.new ≡ put_bytes memory.old span.start (take span.len bytes.now) }
    ensures left { result.now ≡ drop span.len bytes.now }
{
    let (here, left) = bytes.split_at(span.len as usize);
    memory.fill(span.start, here);
    left
}
