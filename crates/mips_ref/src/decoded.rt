// The words of code that a machine has decoded: a table with one line for many addresses, which has the newest of them.
ghost use Rattle.std.specs.Prelude.{ℕ, ◌≡◌, ◌⊎◌, None, Some, IfOk, IfSome, slice_index_or, replicate};
ghost use Rattle.mips_ref.specs.Decoded.{HasLine, IsKeptLine};
ghost use Rattle.mips_ref.specs.declared.decoded.Decoded.{Decoded as Line};

use mips_isa::Instr;
use std::alloc::{AllocError, Global};

// A word of code that was decoded, and its address.
#[derive(Clone, Copy, Debug, PartialEq, Eq)]
pub struct Decoded {
    pub at: u32,
    pub instr: Instr,
}

// How many lines serve a memory of so many bytes: a power of two.
fn lines_for(bytes: usize) -> usize {
    if bytes <= 0x1000 {
        0x400
    } else if bytes <= 0x1_0000 {
        0x4000
    } else {
        0x1_0000
    }
}

// The line of an address, where there are so many, a power of two.
fn line_of(at: u32, lines: usize) -> usize {
    (at / 4) as usize & lines.wrapping_sub(1)
}

/// Empty lines for a memory of so many bytes.
pub fn empty_lines(alloc: Global, bytes: usize) -> Result<Vec<Option<Decoded>>, AllocError>
    ensures { IfOk result (λ v. (k : ℕ) → slice_index_or v.items k None ≡ None) }
{
    let lines = vec![in alloc; None; lines_for(bytes)]?;
    Ok(lines)
}

/// The instruction of an address, where its line has it.
pub fn find(lines: &[Option<Decoded>], at: u32) -> Option<Instr>
    ensures { IfSome result (HasLine lines.now at) }
{
    let k = line_of(at, lines.len());
    if k >= lines.len() {
        return None;
    }
    match lines[k] {
        Some(line) => if line.at == at {
            Some(line.instr)
        } else {
            None
        },
        None => None,
    }
}

/// The line of an address has its instruction from now on.
pub fn keep(lines: &mut Vec<Option<Decoded>>, at: u32, instr: Instr)
    ensures { (k : ℕ) (line : Line) → slice_index_or lines.new.items k None ≡ Some line
        → IsKeptLine lines.old.items k at instr line }
{
    let k = line_of(at, lines.len());
    if k < lines.len() {
        lines[k] = Some(Decoded { at, instr });
    }
}
