// The built-in predictors.
ghost use Rattle.std.specs.Prelude.{◌≡◌};
ghost use Rattle.mips_isa.specs.Words.{word_sum};
ghost use Rattle.predictors.specs.Predicting as predicting;
ghost use Rattle.predictors.specs.Predicting.{builtin_after, builtin_guess, guess_by_numbers, made_of, numbers_after, numbers_of};

use crate::branches::{is_branch, is_register_jump, target};
use crate::table::{bimodal_place, gshare_place};
use crate::{Predictor, Table};
use mips_isa::{Instr, is_predicted_taken};

/// The kinds of predictors.
#[derive(Clone, Copy, Debug, PartialEq, Eq)]
pub enum PredictorKind {
    Static,
    Bimodal,
    Gshare,
}

/// A built-in predictor. The static one predicts that a branch back is taken, and one that can go one way alone goes it;
/// the others look at a counter of their table, and let a jump to a register go where the last one went.
#[derive(Debug, Drop)]
pub enum Builtin {
    Static,
    /// By the address alone; `outcomes` stays as it is.
    Bimodal(Table),
    /// By the address, mixed with the last outcomes.
    Gshare(Table),
}

impl Builtin {
    /// A predictor that has learnt nothing. Takes no memory.
    #[tactic(auto, unfolding(crate::specs::Predicting::made_of))]
    pub fn make(kind: PredictorKind) -> Builtin
        ensures { result ≡ made_of kind }
    {
        match kind {
            PredictorKind::Static => Builtin::Static,
            PredictorKind::Bimodal => Builtin::Bimodal(Table::new()),
            PredictorKind::Gshare => Builtin::Gshare(Table::new()),
        }
    }

    fn predicts_taken(&self, pc: u32, i: Instr) -> bool
        ensures { result ≡ predicting.taken_by self.now pc i }
    {
        match self {
            Builtin::Static => is_predicted_taken(i),
            Builtin::Bimodal(table) => table.says_taken(bimodal_place(pc)),
            Builtin::Gshare(table) => table.says_taken(gshare_place(table.outcomes, pc)),
        }
    }

    fn jump_guess(&self, npc: u32) -> u32
        ensures { result ≡ predicting.jump_by self.now npc }
    {
        match self {
            Builtin::Static => npc.wrapping_add(4),
            Builtin::Bimodal(table) => table.last,
            Builtin::Gshare(table) => table.last,
        }
    }

    fn learn_branch(&mut self, pc: u32, taken: bool)
        ensures { self.new ≡ predicting.after_branch self.old pc taken }
    {
        match self {
            Builtin::Static => {}
            Builtin::Bimodal(table) => table.count(bimodal_place(pc), taken),
            Builtin::Gshare(table) => {
                table.count(gshare_place(table.outcomes, pc), taken);
                table.note(taken);
            }
        }
    }

    fn learn_jump(&mut self, next: u32)
        ensures { self.new ≡ predicting.after_jump self.old next }
    {
        match self {
            Builtin::Static => {}
            Builtin::Bimodal(table) => table.last = next,
            Builtin::Gshare(table) => table.last = next,
        }
    }

    #[tactic(auto, unfolding(crate::specs::Predicting::builtin_guess))]
    fn guess_next(&self, pc: u32, npc: u32, i: Instr) -> u32
        ensures { result ≡ builtin_guess self.now pc npc i }
    {
        if is_branch(i) {
            if self.predicts_taken(pc, i) {
                target(i, pc)
            } else {
                npc.wrapping_add(4)
            }
        } else if is_register_jump(i) {
            self.jump_guess(npc)
        } else {
            npc.wrapping_add(4)
        }
    }

    #[tactic(auto, unfolding(crate::specs::Predicting::builtin_after))]
    fn learn_next(&mut self, pc: u32, i: Instr, taken: bool, next: u32)
        ensures { self.new ≡ builtin_after self.old pc i taken next }
    {
        if is_branch(i) {
            self.learn_branch(pc, taken);
        } else if is_register_jump(i) {
            self.learn_jump(next);
        }
    }
}

impl Predictor for Builtin {
    ghost data_of = { numbers_of };

    ghost guess_of = { guess_by_numbers };

    ghost learnt_of = { numbers_after };

    /// Takes no memory.
    fn guess(&self, pc: u32, npc: u32, i: Instr) -> u32
        ensures guess { result ≡ builtin_guess self.now pc npc i }
        ensures numbers { result ≡ guess_by_numbers (numbers_of self.now) pc npc i }
    {
        self.guess_next(pc, npc, i)
    }

    /// Takes no memory.
    fn learn(&mut self, pc: u32, i: Instr, taken: bool, next: u32)
        ensures learnt { self.new ≡ builtin_after self.old pc i taken next }
        ensures numbers { numbers_of self.new ≡ numbers_after (numbers_of self.old) pc i taken next }
    {
        self.learn_next(pc, i, taken, next);
    }
}
