// The one line of a call that ends in no log.
ghost use Rattle.std.specs.Prelude.{◌≡◌, ◌++◌, false, IfOk, MatchOption, OnOk};
ghost use Rattle.std.specs.Fmt.{decimal};
ghost use Rattle.text_fields.specs.Numbers.{hex_text};
ghost use Rattle.log_text.specs.Lines.{line as line_lem};
ghost use Rattle.visa_cli.specs.Clauses.{has_fixed_line};
ghost use Rattle.visa_cli.specs.Status.{elf_text, image_kind_text, layout_text, line_kind_name as line_kind_name_lem, line_of};

use crate::refusals::push_refusal;
use crate::status::{ImageKind, Role, Status};
use admission::Refusal;
use mips_elf::ElfError;
use std::alloc::{AllocError, Global};
use task_layout::LayoutFault;
use task_text::LineKind;
use text_fields::{push_decimal, push_hex};

pub const MEMORY: &[u8] = b"memory\n";

pub const USAGE: &[u8] =
    b"usage: visa simple TASK JOBS | check TASK | run TASK JOBS [--predictor P] | list TASK | demo N\n";

#[tactic(auto, unfolding(crate::specs::Status::line_of))]
fn read_fault_line(role: Role) -> &'static [u8]
    ensures { result.now ≡ line_of (Status.ReadFault role) }
{
    match role {
        Role::Task => b"read fault task\n",
        Role::Image => b"read fault image\n",
        Role::Jobs => b"read fault jobs\n",
    }
}

#[tactic(auto, unfolding(crate::specs::Status::line_of))]
fn long_line(role: Role) -> &'static [u8]
    ensures { result.now ≡ line_of (Status.Long role) }
{
    match role {
        Role::Task => b"long task\n",
        Role::Image => b"long image\n",
        Role::Jobs => b"long jobs\n",
    }
}

/// The line of a status that takes no memory, where it has such a line. Takes no memory.
#[tactic(auto, unfolding(crate::specs::Status::line_of))]
pub fn fixed_line(status: Status) -> Option<&'static [u8]>
    ensures { MatchOption result (has_fixed_line status ≡ false) (λ line. line.now ≡ line_of status) }
{
    match status {
        Status::Usage => Some(USAGE),
        Status::ReadFault { role } => Some(read_fault_line(role)),
        Status::Memory => Some(MEMORY),
        Status::Long { role } => Some(long_line(role)),
        _ => None,
    }
}

fn line_kind_name(kind: LineKind) -> &'static [u8]
    ensures { result.now ≡ line_kind_name_lem kind }
{
    match kind {
        LineKind::Bytes => b"bytes",
        LineKind::Word => b"word",
        LineKind::Field => b"field",
        LineKind::Value => b"value",
        LineKind::End => b"end",
    }
}

// Writes a name and a number.
pub fn push_numbered(line: &mut Vec<u8>, name: &[u8], n: u64) -> Result<(), AllocError>
    ensures { OnOk result (line.new.items ≡ line.old.items ++ (name.now ++ decimal n)) }
{
    line.extend_from_slice(name)?;
    push_decimal(line, n)
}

// Writes a name and an address.
pub fn push_addressed(line: &mut Vec<u8>, name: &[u8], at: u32) -> Result<(), AllocError>
    ensures { OnOk result (line.new.items ≡ line.old.items ++ (name.now ++ hex_text at)) }
{
    line.extend_from_slice(name)?;
    push_hex(line, at)
}

// Writes why a file is no image.
fn push_elf(line: &mut Vec<u8>, fault: ElfError) -> Result<(), AllocError>
    ensures { OnOk result (line.new.items ≡ line.old.items ++ elf_text fault) }
{
    match fault {
        ElfError::NotElf => line.extend_from_slice(b"not-elf"),
        ElfError::Truncated { offset } => push_numbered(line, b"truncated ", offset),
        ElfError::WrongClass => line.extend_from_slice(b"wrong-class"),
        ElfError::WrongMachine => line.extend_from_slice(b"wrong-machine"),
        ElfError::WrongType => line.extend_from_slice(b"wrong-type"),
        ElfError::WrongArch => line.extend_from_slice(b"wrong-arch"),
        ElfError::EntrySize => line.extend_from_slice(b"entry-size"),
        ElfError::TooMany => line.extend_from_slice(b"too-many"),
        ElfError::Dynamic => line.extend_from_slice(b"dynamic"),
        ElfError::SegmentSize { segment } => push_numbered(
            line,
            b"segment-size ",
            u64::from(segment),
        ),
        ElfError::Overlap { at } => push_addressed(line, b"overlap ", at),
        ElfError::TooBig => line.extend_from_slice(b"too-big"),
        ElfError::Memory => line.extend_from_slice(b"memory"),
    }
}

// Writes why a task can't be laid out.
fn push_layout(line: &mut Vec<u8>, fault: LayoutFault) -> Result<(), AllocError>
    ensures { OnOk result (line.new.items ≡ line.old.items ++ layout_text fault) }
{
    match fault {
        LayoutFault::OrderDiffers => line.extend_from_slice(b"order-differs"),
        LayoutFault::Overlap { at } => push_addressed(line, b"overlap ", at),
        LayoutFault::TooBig => line.extend_from_slice(b"too-big"),
        LayoutFault::CodeBig => line.extend_from_slice(b"code-big"),
        LayoutFault::Uncovered { at } => push_addressed(line, b"uncovered ", at),
        LayoutFault::Memory => line.extend_from_slice(b"memory"),
    }
}

fn push_image_kind(line: &mut Vec<u8>, kind: ImageKind) -> Result<(), AllocError>
    ensures { OnOk result (line.new.items ≡ line.old.items ++ image_kind_text kind) }
{
    match kind {
        ImageKind::Elf(fault) => push_elf(line, fault),
        ImageKind::Layout(fault) => push_layout(line, fault),
    }
}

// Writes a text behind what a line says already, and ends the line.
fn end_line(line: &mut Vec<u8>, text: &[u8]) -> Result<(), AllocError>
    ensures { OnOk result (line.new.items ≡ line.old.items ++ line_lem text.now) }
{
    line.extend_from_slice(text)?;
    line.push(b'\n')?;
    Ok(())
}

// Writes a name and a text, and ends the line.
fn end_named(line: &mut Vec<u8>, name: &[u8], text: &[u8]) -> Result<(), AllocError>
    ensures { OnOk result (line.new.items ≡ line.old.items ++ (name.now ++ line_lem text.now)) }
{
    line.extend_from_slice(name)?;
    end_line(line, text)
}

// Writes a name and a number, and ends the line.
fn end_numbered(line: &mut Vec<u8>, name: &[u8], n: u64) -> Result<(), AllocError>
    ensures { OnOk result (line.new.items ≡ line.old.items ++ (name.now ++ line_lem (decimal n))) }
{
    push_numbered(line, name, n)?;
    line.push(b'\n')?;
    Ok(())
}

#[tactic(auto, unfolding(crate::specs::Status::line_of))]
fn push_task_line(line: &mut Vec<u8>, at: u64, kind: LineKind) -> Result<(), AllocError>
    ensures { OnOk result (line.new.items ≡ line.old.items ++ line_of (Status.TaskText at kind)) }
{
    push_numbered(line, b"task line ", at)?;
    end_named(line, b" ", line_kind_name(kind))
}

#[tactic(auto, unfolding(crate::specs::Status::line_of))]
fn push_image_line(line: &mut Vec<u8>, kind: ImageKind) -> Result<(), AllocError>
    ensures { OnOk result (line.new.items ≡ line.old.items ++ line_of (Status.ImageRefused kind)) }
{
    line.extend_from_slice(b"image ")?;
    push_image_kind(line, kind)?;
    line.push(b'\n')?;
    Ok(())
}

#[tactic(auto, unfolding(crate::specs::Status::line_of))]
fn push_refused_line(line: &mut Vec<u8>, refusal: Refusal) -> Result<(), AllocError>
    ensures { OnOk result (line.new.items ≡ line.old.items ++ line_of (Status.Refused refusal)) }
{
    line.extend_from_slice(b"refused ")?;
    push_refusal(line, refusal)?;
    line.push(b'\n')?;
    Ok(())
}

// Writes the line of a status; a log has none of its own.
#[tactic(auto, unfolding(crate::specs::Status::line_of))]
fn push_status(line: &mut Vec<u8>, status: Status) -> Result<(), AllocError>
    ensures { OnOk result (line.new.items ≡ line.old.items ++ line_of status) }
{
    match status {
        Status::Done | Status::WriteFault => Ok(()),
        Status::Usage => line.extend_from_slice(USAGE),
        Status::ReadFault { role } => line.extend_from_slice(read_fault_line(role)),
        Status::TaskText { line: at, kind } => push_task_line(line, at, kind),
        Status::ImageRefused(kind) => push_image_line(line, kind),
        Status::Refused(refusal) => push_refused_line(line, refusal),
        Status::JobsText { line: at } => end_numbered(line, b"jobs line ", at),
        Status::Memory => line.extend_from_slice(MEMORY),
        Status::Long { role } => line.extend_from_slice(long_line(role)),
    }
}

/// The line that the program prints for a status; a log has none of its own.
pub fn status_line(alloc: Global, status: Status) -> Result<Vec<u8>, AllocError>
    ensures { IfOk result (λ line. line.items ≡ line_of status) }
{
    let mut line = Vec::new(alloc);
    push_status(&mut line, status)?;
    Ok(line)
}
