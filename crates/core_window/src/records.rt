// What stands in a window, and what happens to it.
use mips_isa::Instr;
use mips_ref::{Retired, TrapKind};

/// What an instruction came to: a trap, or the parts of its step.
#[derive(Clone, Copy, Debug)]
pub enum Outcome {
    Trapped(TrapKind),
    Parts(Retired),
}

/// How far an entry is, with its outcome from its issue on.
#[derive(Clone, Copy, Debug)]
pub enum Status {
    Waiting,
    Running(Outcome),
    Done(Outcome),
}

/// An instruction on its way.
#[derive(Clone, Copy, Debug)]
pub struct Entry {
    pub pc: u32,
    /// The address of the next instruction.
    pub npc: u32,
    /// The assumed address of the one after that.
    pub guess: u32,
    /// None where the word is no instruction.
    pub instr: Option<Instr>,
    pub status: Status,
}

/// What may happen to a window. Entries are numbered from the oldest one on, which is 0.
#[derive(Clone, Copy, Debug, PartialEq, Eq)]
pub enum Event {
    /// The instruction at the fetch pair enters, and `guess` is assumed to come after the next one.
    Fetch { guess: u32 },
    /// Entry `k` computes its outcome from its operands.
    Issue { k: usize },
    /// The outcome of entry `k` is there for the entries after it.
    Finish { k: usize },
    /// The oldest entry becomes a step of the state.
    Commit,
    /// What was fetched after a wrong guess of entry `k` goes, but for its delay slot.
    Squash { k: usize },
}

/// How far an entry is.
#[derive(Clone, Copy, Debug, PartialEq, Eq)]
pub enum Status3 {
    Waiting,
    Running,
    Done,
}

/// An entry as it is shown.
#[derive(Clone, Copy, Debug, PartialEq, Eq)]
pub struct EntryView {
    pub pc: u32,
    /// The address of the next instruction.
    pub npc: u32,
    /// The assumed address of the one after that.
    pub guess: u32,
    /// None where the word is no instruction.
    pub instr: Option<Instr>,
    pub status: Status3,
    /// The address of the instruction after the next one by the outcome; 0 without an outcome or with a trap.
    pub next: u32,
    /// Whether the outcome is a branch, jump, call or return that is taken.
    pub taken: bool,
    /// The address of a load or store by the outcome; None without an outcome or with a trap.
    pub at: Option<u32>,
    /// The trap of the outcome.
    pub trap: Option<TrapKind>,
}
