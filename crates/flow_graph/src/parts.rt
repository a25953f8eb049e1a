// What a graph is made of.
use mips_isa::Instr;

/// An instruction, or a control instruction with its delay slot.
#[derive(Clone, Copy, Debug, PartialEq, Eq)]
pub struct Unit {
    /// The address of its first instruction, which names it.
    pub at: u32,
    /// How many bytes it has: 4, or 8 with a slot.
    pub length: u8,
    /// Its first instruction.
    pub first: Instr,
    /// The instruction in its slot, of a control instruction.
    pub slot: Option<Instr>,
}

/// How control goes from a unit to another.
#[derive(Clone, Copy, Debug, PartialEq, Eq, PartialOrd, Ord)]
pub enum EdgeKind {
    /// To the unit that follows, by address, past the slot.
    Next,
    /// To the target of a branch or jump.
    Taken,
    /// From a call to the function that it calls.
    Call,
    /// From a return to the return point of a call of its function.
    Return,
    /// From a call to its return point inside its function.
    Over,
}

/// Control goes from one unit to another, both named by their addresses. Edges are ordered by `from`, `to` and `kind`.
#[derive(Clone, Copy, Debug, PartialEq, Eq, PartialOrd, Ord)]
pub struct Edge {
    pub from: u32,
    pub to: u32,
    pub kind: EdgeKind,
}
