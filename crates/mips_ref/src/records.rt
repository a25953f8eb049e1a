// What a step answers, and its parts.
use mips_isa::Instr;

/// Why an instruction stops its job. The last four aren't the processor's own: an address that is no code, and the
/// return check and output port of this project.
#[derive(Clone, Copy, Debug, PartialEq, Eq)]
pub enum TrapKind {
    /// A load from an address that isn't aligned, or that isn't readable.
    AddressLoad,
    /// A store to an address that isn't aligned, or that isn't storable.
    AddressStore,
    /// A signed sum or difference that doesn't fit a word.
    Overflow,
    /// A trap instruction whose comparison holds.
    TrapInstr,
    Break,
    Syscall,
    /// A word that is no instruction.
    Reserved,
    /// An address that is no code.
    FetchFault,
    /// A return to another address than the one that the call pushed, or without a call.
    ReturnMismatch,
    /// A call while 64 addresses are on the return stack.
    ReturnFull,
    /// A store to the output port while the output has its greatest length.
    OutputFull,
}

/// What a step answers.
#[derive(Clone, Copy, Debug, PartialEq, Eq)]
pub enum Step {
    /// The instruction acted.
    Went,
    /// The job is at its exit address, and has returned from all its calls.
    Exit,
    /// The instruction at this address trapped, and nothing changed.
    Trap(TrapKind, u32),
}

// The registers in the fields `rs`, `rt` and `rd` of an instruction, each 0 where it has no such field.
#[derive(Clone, Copy, Debug, PartialEq, Eq)]
pub struct Operands {
    pub rs: u8,
    pub rt: u8,
    pub rd: u8,
}

/// What an instruction is given: the registers of its fields `rs`, `rt` and `rd`, each 0 where it has no such field,
/// and HI * 2^32 + LO. The base of a load, store or pref is `rs`.
#[derive(Clone, Copy, Debug, PartialEq, Eq)]
pub struct Values {
    pub rs: u32,
    pub rt: u32,
    pub rd: u32,
    pub pair: u64,
}

/// What an instruction does, memory and the return stack aside.
#[derive(Clone, Copy, Debug, PartialEq, Eq)]
pub struct Act {
    /// The new value of the name that it writes; None where it writes none, and for a load.
    pub write: Option<u64>,
    /// The address of the instruction after the next one; 0 with a trap.
    pub next: u32,
    /// Whether it is a branch, jump, call or return that is taken.
    pub taken: bool,
    /// The address of a load or store.
    pub at: Option<u32>,
    /// Overflow, TrapInstr, Break or Syscall.
    pub trap: Option<TrapKind>,
}

/// The parts of a step whose instruction has no trap, as they are applied to a state.
#[derive(Clone, Copy, Debug, PartialEq, Eq)]
pub struct Retired {
    /// The new value of the name that the instruction writes.
    pub write: Option<u64>,
    pub next: u32,
    pub taken: bool,
    /// The address of a load or store.
    pub at: Option<u32>,
    /// Which bytes of the word around `at` a store writes: bit j for the byte at the word's start + j.
    pub mask: u8,
    /// What it writes there: bits 8j to 8j + 7 for the byte at the word's start + j.
    pub word: u32,
}

/// What a step executes, apart from what it costs.
#[derive(Clone, Copy, Debug, PartialEq, Eq)]
pub struct Ran {
    /// Its address.
    pub at: u32,
    /// Whether there is code at the address.
    pub is_code: bool,
    /// None where there is no code, or the word is no instruction.
    pub instr: Option<Instr>,
    /// Whether it trapped.
    pub trapped: bool,
    /// Whether it is a branch, jump, call or return that is taken.
    pub taken: bool,
    /// The address of a load that didn't trap.
    pub load: Option<u32>,
}
