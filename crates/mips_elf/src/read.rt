// Reads an ELF file.
ghost use Rattle.std.specs.Prelude.{◌≡◌, ◌⊎◌, ◌≤◌, ◌*◌, true, length, None, Some, Err, IfOk, IfErr};
ghost use Rattle.std.specs.List.{AllByRecursion};
ghost use Rattle.visa_io.specs.ImageCode.{IsFilled};
ghost use Rattle.mips_elf.specs.Header.{header_fault, lies_in};
ghost use Rattle.mips_elf.specs.Segments.{segments_in, segments_fault, loads_of};
ghost use Rattle.mips_elf.specs.Images.{IsSound, IsAnswer};
ghost use Rattle.mips_elf.specs.declared.error.ElfError.{ElfError as Fault};

use crate::ElfError;
use crate::header::{Header, read_header};
use crate::load::{build, check_memory};
use crate::segment::{Segment, fault_of_segments, memory_segments, read_segments};
use std::alloc::{AllocError, Global};
use visa_io::Image;

/// The image of an ELF file; the first rule that the file breaks, in the order of `ElfError`. Where memory runs out it
/// answers `Memory`, but never in place of a rule on the header.
pub fn read_elf(alloc: Global, bytes: &[u8]) -> Result<Image, ElfError>
    ensures answer { IsAnswer bytes.now result }
    ensures header { (fault : Fault) → header_fault bytes.now ≡ Some fault → result ≡ Err fault }
    ensures filled { IfOk result IsFilled }
{
    let header = read_header(bytes)?;
    let loads = sound_loads(alloc, header, bytes)?;
    check_memory(&loads)?;
    Ok(build(alloc, header, bytes, &loads)?)
}

/// The segments that take memory, where each rule on the program headers holds; else the first that fails.
fn sound_loads(alloc: Global, header: Header, bytes: &[u8]) -> Result<Vec<Segment>, ElfError>
    requires table { lies_in (length bytes.now) header.segment_table (32 * header.segment_count) ≡ true }
    requires count { header.segment_count ≤ 64 }
    ensures no_fault { IfOk result (λ _. segments_fault (length bytes.now) (segments_in header bytes.now) ≡ None) }
    ensures loads { IfOk result (λ loads. loads.items ≡ loads_of (segments_in header bytes.now)) }
    ensures few { IfOk result (λ loads. length loads.items ≤ 64) }
    ensures fault { IfErr result (λ e. (segments_fault (length bytes.now) (segments_in header bytes.now) ≡ Some e) ⊎ (e ≡ ElfError.Memory)) }
{
    let segments = all_segments(alloc, header, bytes)?;
    if let Some(fault) = fault_of_segments(bytes.len() as u64, &segments) {
        return Err(fault);
    }
    Ok(memory_segments(alloc, &segments)?)
}

fn all_segments(alloc: Global, header: Header, bytes: &[u8]) -> Result<Vec<Segment>, AllocError>
    requires table { lies_in (length bytes.now) header.segment_table (32 * header.segment_count) ≡ true }
    ensures { IfOk result (λ segments. segments.items ≡ segments_in header bytes.now) }
{
    let count = usize::from(header.segment_count);
    if count == 0 {
        return Ok(Vec::new(alloc));
    }
    read_segments(
        alloc,
        header.big,
        bytes,
        header.segment_table as usize,
        count,
    )
}
