// The registers that functions may write.
ghost use Rattle.std.specs.Prelude.{◌≡◌, ◌<◌, ◌*◌, Contains, length};
ghost use Rattle.std.specs.List.Sorted.{IsStrictlyIncreasing};
ghost use Rattle.bound_checker.specs.Lost as meaning;

use crate::marks::mark_at;
use crate::units::number_of;

/// What functions may write: the functions by rising address, and for each 32 marks, one row after the other.
#[derive(Debug, Drop)]
pub(crate) struct Masks {
    pub(crate) functions: Vec<u32>,
    pub(crate) marks: Vec<bool>,
}

impl Masks {
    // Whether a function, or one that it calls directly or through others, may write a register.
    #[tactic(auto, unfolding(crate::specs::Lost::mask_of))]
    pub(crate) fn may_write(&self, function: u32, r: u8) -> bool
        requires rise { IsStrictlyIncreasing self.now.functions.items }
        requires beside { length self.now.marks.items ≡ length self.now.functions.items * 32 }
        requires among { Contains self.now.functions.items function }
        requires register { r < 32 }
        ensures { result ≡ meaning.mask_of self.now.functions.items self.now.marks.items function r }
    {
        let k = number_of(self.functions.as_slice(), function);
        mark_at(self.marks.as_slice(), k, r)
    }
}
