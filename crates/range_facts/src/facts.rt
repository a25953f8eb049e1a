// One fact for each register.
ghost use Rattle.std.specs.Prelude.{◌≡◌, ◌<◌, Some, IfSome};
ghost use Rattle.range_facts.specs.Ranges.{IsFact};

use crate::strided::{Strided, unknown};

/// One fact for each register; that of register 0 is the constant 0.
#[derive(Clone, Copy, Debug, PartialEq, Eq)]
pub struct Facts {
    pub ranges: [Strided; 32],
}

impl Facts {
    ghost use Rattle.range_facts.specs.Transfer.{AreFacts, fact_of, with_fact};

    /// The fact of a register; any word of a number that names none.
    pub fn fact(&self, r: u8) -> Strided
        ensures { result ≡ fact_of self.now r }
    {
        match self.ranges.get(r as usize) {
            Some(s) => *s,
            None => unknown(),
        }
    }

    /// Another fact for a register.
    pub fn put(&mut self, r: u8, s: Strided)
        requires { r < 32 }
        ensures { self.new ≡ with_fact self.old (Some r) s }
    {
        self.ranges[r as usize] = s;
    }
}
