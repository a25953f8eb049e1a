// What predicts.
ghost use Rattle.std.specs.Prelude.{◌≡◌, ℕ, List, Bool};
ghost use Rattle.mips_isa.specs.declared.instr.Instr.{Instr as Instruction};

use mips_isa::Instr;

/// What guesses where a program goes on. A guess is a function of the predictor's data, which are a list of numbers, and
/// of the arguments, and `learn` alone changes the data.
pub trait Predictor {
    /// The data.
    ghost data_of: { Self → List ℕ };

    /// The guess for an instruction at `pc`, before the one at `npc`, from the data.
    ghost guess_of: { List ℕ → ℕ → ℕ → Instruction → ℕ };

    /// The data after an instruction at `pc` was `taken` or not, and went on with `next`.
    ghost learnt_of: { List ℕ → ℕ → Instruction → Bool → ℕ → List ℕ };

    /// The address behind the delay slot of an instruction at `pc`, before the one at `npc`.
    fn guess(&self, pc: u32, npc: u32, i: Instr) -> u32
        ensures { result ≡ guess_of (data_of self.now) pc npc i };

    /// Learns whether an instruction at `pc` was taken, and the address with which it went on behind its delay slot.
    fn learn(&mut self, pc: u32, i: Instr, taken: bool, next: u32)
        ensures { data_of self.new ≡ learnt_of (data_of self.old) pc i taken next };
}
