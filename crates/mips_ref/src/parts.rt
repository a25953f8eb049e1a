// The parts of a step, each over what it changes.
ghost use Rattle.std.specs.Prelude.{◌≡◌, ◌+◌, ◌<◌, ◌≤◌, ◌∷◌, None, IfSome, drop, reverse, slice_index, vec_len, vec_capacity};
ghost use Rattle.mips_isa.specs.Fits.{FieldsFit};
ghost use Rattle.mips_ref.specs.Mips.{greatest_depth};
ghost use Rattle.mips_ref.specs.Step as meaning;

use crate::memory::{Memory, PORT};
use crate::records::{Operands, TrapKind};
use crate::values::{high_word, low_word};
use mips_isa::{Branch1Op, Instr, JumpOp, PAIR};

// How many addresses the return stack holds at most.
pub const DEPTH: usize = 64;

fn fields(rs: u8, rt: u8, rd: u8) -> Operands
    ensures { result ≡ meaning.fields rs rt rd }
{
    Operands { rs, rt, rd }
}

/// The registers in the fields of an instruction, each 0 where it has no such field.
#[tactic(auto, unfolding(crate::specs::Step::operands_of))]
pub fn operands(i: Instr) -> Operands
    requires { FieldsFit i }
    ensures is { result ≡ meaning.operands_of i }
    ensures rs { result.rs < 32 }
    ensures rt { result.rt < 32 }
    ensures rd { result.rd < 32 }
{
    match i {
        Instr::R3 { rs, rt, rd, .. } => fields(rs, rt, rd),
        Instr::Shift { rt, rd, .. } => fields(0, rt, rd),
        Instr::HiLo { rs, rd, .. } | Instr::Count { rs, rd, .. } | Instr::Jalr { rs, rd } => {
            fields(rs, 0, rd)
        }
        Instr::Acc { rs, rt, .. }
        | Instr::Imm { rs, rt, .. }
        | Instr::Load { rs, rt, .. }
        | Instr::Store { rs, rt, .. }
        | Instr::Branch2 { rs, rt, .. }
        | Instr::TrapIf { rs, rt, .. } => fields(rs, rt, 0),
        Instr::Lui { rt, .. } => fields(0, rt, 0),
        Instr::Pref { rs, .. } | Instr::Branch1 { rs, .. } | Instr::Jr { rs } => fields(rs, 0, 0),
        Instr::Jump { .. } | Instr::Stop { .. } | Instr::Sync { .. } => fields(0, 0, 0),
    }
}

fn links(i: Instr) -> bool
    ensures { result ≡ meaning.links i }
{
    match i {
        Instr::Branch1 { m, .. } => matches!(m, Branch1Op::Bltzal | Branch1Op::Bgezal),
        Instr::Jump { m, .. } => matches!(m, JumpOp::Jal),
        Instr::Jalr { .. } => true,
        _ => false,
    }
}

fn returns_here(i: Instr) -> bool
    ensures { result ≡ meaning.returns_here i }
{
    match i {
        Instr::Jr { rs } => rs == 31,
        _ => false,
    }
}

pub fn store_at(i: Instr, at: Option<u32>) -> Option<u32>
    ensures { result ≡ meaning.store_at i at }
{
    match i {
        Instr::Store { .. } => at,
        _ => None,
    }
}

// The trap of a return, by the return stack, newest last.
fn mismatch(target: u32, stack: &[u32]) -> Option<TrapKind>
    ensures { result ≡ meaning.mismatch target (reverse stack.now) }
{
    match stack.last() {
        None => Some(TrapKind::ReturnMismatch),
        Some(a) => {
            if target == *a {
                None
            } else {
                Some(TrapKind::ReturnMismatch)
            }
        }
    }
}

pub fn return_trap(i: Instr, taken: bool, target: u32, stack: &[u32]) -> Option<TrapKind>
    ensures { result ≡ meaning.return_trap i taken target (reverse stack.now) }
{
    if links(i) && taken {
        if stack.len() < DEPTH {
            None
        } else {
            Some(TrapKind::ReturnFull)
        }
    } else if returns_here(i) {
        mismatch(target, stack)
    } else {
        None
    }
}

// The newest address goes on the stack, or off it.
fn push(stack: &mut Vec<u32>, a: u32)
    requires { vec_len stack.old < vec_capacity stack.old }
    ensures items { reverse stack.new.items ≡ a ∷ reverse stack.old.items }
    ensures len { vec_len stack.new ≡ vec_len stack.old + 1 }
    ensures capacity { vec_capacity stack.new ≡ vec_capacity stack.old }
{
    stack.push_reserved(a);
}

fn pop(stack: &mut Vec<u32>)
    ensures items { reverse stack.new.items ≡ drop 1 (reverse stack.old.items) }
    ensures len { vec_len stack.new ≤ vec_len stack.old }
    ensures capacity { vec_capacity stack.new ≡ vec_capacity stack.old }
{
    let _ = stack.pop();
}

/// The return stack after an instruction.
pub fn change_returns(stack: &mut Vec<u32>, i: Instr, taken: bool, target: u32, pc: u32)
    requires room { greatest_depth ≤ vec_capacity stack.old }
    requires depth { vec_len stack.old ≤ greatest_depth }
    requires no_trap { meaning.return_trap i taken target (reverse stack.old.items) ≡ None }
    ensures items { reverse stack.new.items ≡ meaning.returns_after i taken pc (reverse stack.old.items) }
    ensures depth { vec_len stack.new ≤ greatest_depth }
    ensures capacity { vec_capacity stack.new ≡ vec_capacity stack.old }
{
    if links(i) && taken {
        push(stack, pc.wrapping_add(8));
    } else if returns_here(i) {
        pop(stack);
    }
}

/// The trap of a store to the port, by the output's greatest length and its length.
pub fn output_trap(at: Option<u32>, most: u32, output: &[u32]) -> Option<TrapKind>
    ensures { result ≡ meaning.output_trap at most output.now }
{
    match at {
        None => None,
        Some(at) => {
            if at == PORT && output.len() >= most as usize {
                Some(TrapKind::OutputFull)
            } else {
                None
            }
        }
    }
}

/// The output after a store, which the port takes.
pub fn change_output(output: &mut Vec<u32>, at: Option<u32>, word: u32, most: u32)
    requires room { most ≤ vec_capacity output.old }
    requires no_trap { meaning.output_trap at most output.old.items ≡ None }
    requires within { vec_len output.old ≤ most }
    ensures items { output.new.items ≡ meaning.output_after at word output.old.items }
    ensures within { vec_len output.new ≤ most }
    ensures capacity { vec_capacity output.new ≡ vec_capacity output.old }
{
    if let Some(at) = at {
        if at == PORT {
            output.push_reserved(word);
        }
    }
}

/// Memory after a store, which isn't to the port.
pub fn change_memory(memory: &mut Memory, at: Option<u32>, mask: u8, word: u32)
    ensures { memory.new ≡ meaning.memory_after at mask word memory.old }
{
    if let Some(at) = at {
        if at != PORT {
            memory.put_lanes(at - at % 4, mask, word);
        }
    }
}

/// The registers with the new value of a name, 32 for HI and LO.
pub fn change_registers(registers: &mut [u32; 32], name: Option<u8>, value: Option<u64>)
    requires { IfSome name (λ n. (0 < n) × (n ≤ 32)) }
    ensures items { registers.new ≡ meaning.registers_after name value registers.old }
    ensures zero { slice_index registers.new 0 ≡ slice_index registers.old 0 }
{
    if let Some(name) = name {
        if let Some(value) = value {
            if name != PAIR {
                registers[name as usize] = low_word(value);
            }
        }
    }
}

// HI or LO after a write of a name.
fn pair_after(name: Option<u8>, value: Option<u64>, new: u32, old: u32) -> u32
    ensures { result ≡ meaning.pair_after name value new old }
{
    match name {
        None => old,
        Some(name) => match value {
            None => old,
            Some(_) => { if name == PAIR { new } else { old } }
        },
    }
}

pub fn hi_after(name: Option<u8>, value: Option<u64>, hi: u32) -> u32
    ensures { result ≡ meaning.hi_after name value hi }
{
    pair_after(name, value, high_word(value.unwrap_or(0)), hi)
}

pub fn lo_after(name: Option<u8>, value: Option<u64>, lo: u32) -> u32
    ensures { result ≡ meaning.lo_after name value lo }
{
    pair_after(name, value, low_word(value.unwrap_or(0)), lo)
}
