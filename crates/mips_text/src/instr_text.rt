// The text of an instruction in a fixed array.
ghost use Rattle.std.specs.Prelude.{◌≡◌, [], ◌∷◌, ◌++◌, ◌≤◌, length};
ghost use Rattle.mips_text.specs.Room.{joined};

use std::marker::Model;

/// The text of an instruction, at most 48 bytes.
#[derive(Debug, Drop)]
pub struct InstrText {
    bytes: [u8; 48],
    len: usize,
}

impl Model for InstrText {
    ghost use Rattle.std.specs.Prelude.{ℕ, List, ◌≤◌, take};

    ghost Value = { List ℕ };

    ghost view = { λ t. take t.len t.bytes };

    ghost invariant = { λ t. t.len ≤ 48 };
}

impl InstrText {
    /// No bytes.
    pub(crate) fn new() -> InstrText
        ensures { result ≡ [] }
    {
        InstrText {
            bytes: [0; 48],
            len: 0,
        }
    }

    /// Its bytes. Takes no memory.
    pub fn as_bytes(&self) -> &[u8]
        ensures { result.now ≡ self.now }
    {
        &self.bytes[..self.len]
    }

    /// How many bytes there are.
    pub(crate) fn len(&self) -> usize
        ensures { length self.now ≤ 48 }
    {
        self.len
    }

    /// Puts a byte last, if there is room.
    pub(crate) fn push(&mut self, byte: u8)
        ensures { self.new ≡ joined self.old (byte ∷ []) }
    {
        if self.len < 48 {
            self.bytes[self.len] = byte;
            self.len += 1;
        }
    }

    /// Puts bytes last, as far as there is room.
    pub(crate) fn push_all(&mut self, bytes: &[u8])
        ensures { self.new ≡ joined self.old bytes.now }
    {
        let _len = self.len;
        for byte in bytes {
            self.push(*byte);
        }
    }
}
