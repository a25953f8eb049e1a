// How the operands of instructions stand in their texts.

/// An operand, by the values that it may have.
#[derive(Clone, Copy, Debug)]
pub(crate) enum Operand {
    Register,
    /// A number up to the greatest.
    Number { most: u32 },
    /// A signed number of sixteen bits.
    Signed,
    /// The target of a branch.
    Branch,
    /// The target of a jump.
    Jump,
}

/// The operands of an instruction, and the marks between them.
#[derive(Clone, Copy, Debug)]
pub(crate) enum Form {
    One(Operand),
    Two(Operand, Operand),
    Three(Operand, Operand, Operand),
    /// An operand, and an offset from a base register.
    Based(Operand),
}
