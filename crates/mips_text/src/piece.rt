// What operands are written of.

/// A mark or an operand.
#[derive(Clone, Copy, Debug)]
pub(crate) enum Piece {
    Comma,
    Open,
    Close,
    Register(u8),
    Number(u32),
    /// A signed number, by its sixteen bits.
    Signed(u16),
    Address(u32),
}
