// Facts along a block, with the comparisons that still hold.
ghost use Rattle.std.specs.Prelude.{◌≡◌, Some, IfSome};
ghost use Rattle.mips_isa.specs.Fits.{FieldsFit};

use crate::conditions::{bound, compared_with_zero, equals, says_equal, sign_condition};
use crate::facts::Facts;
use crate::strided::{Cond, Strided, is_constant, refine};
use crate::tests::{Test, change, made_test};
use crate::written::{register, transfer};
use mips_isa::{Instr, writes};

/// Facts along a block, and for each register the comparison that it still holds the answer of, if any.
#[derive(Clone, Copy, Debug, PartialEq, Eq)]
pub struct Along {
    pub facts: Facts,
    pub tests: [Option<Test>; 32],
}

impl Along {
    ghost use Rattle.range_facts.specs.Along as meaning;
    ghost use Rattle.range_facts.specs.Transfer.{AreFacts, fact_of};

    /// At a block's start no comparison is known.
    pub fn begin(facts: Facts) -> Along
        ensures { result ≡ meaning.begun facts }
    {
        Along {
            facts,
            tests: [None; 32],
        }
    }

    /// Facts and comparisons after an instruction at an address, from those before it.
    #[tactic(auto, unfolding(crate::specs::Along::after_instr))]
    pub fn pass(&mut self, i: Instr, at: u32)
        requires fits { FieldsFit i }
        requires facts { AreFacts self.old.facts }
        ensures after { self.new ≡ meaning.after_instr i at self.old }
        ensures facts { AreFacts self.new.facts }
    {
        let made = made_test(i, &self.facts);
        transfer(&mut self.facts, i, at);
        change(&mut self.tests, register(writes(i)), made);
    }

    // Another fact for a register, if the number names one.
    fn replaced(self, r: u8, s: Strided) -> Along
        ensures { Some result ≡ meaning.with_left self r (Some s) }
    {
        let mut a = self;
        if r < 32 {
            a.facts.put(r, s);
        }
        a
    }

    // One register's fact refined.
    #[tactic(auto, unfolding(crate::specs::Along::refined_at))]
    fn refined_at(self, r: u8, c: Cond) -> Option<Along>
        requires { AreFacts self.facts }
        ensures is { result ≡ meaning.refined_at r c self }
        ensures facts { IfSome result (λ a. AreFacts a.facts) }
    {
        match refine(self.facts.fact(r), c) {
            None => None,
            Some(s) => Some(self.replaced(r, s)),
        }
    }

    // One of two registers against the other where that is a constant; rs where both are.
    #[tactic(auto, unfolding(crate::specs::Along::pair_refined))]
    fn pair_refined(self, equal: bool, rs: u8, rt: u8) -> Option<Along>
        requires { AreFacts self.facts }
        ensures is { result ≡ meaning.pair_refined equal rs rt self }
        ensures facts { IfSome result (λ a. AreFacts a.facts) }
    {
        if is_constant(self.facts.fact(rt)) {
            self.refined_at(rs, equals(equal, self.facts.fact(rt)))
        } else if is_constant(self.facts.fact(rs)) {
            self.refined_at(rt, equals(equal, self.facts.fact(rs)))
        } else {
            Some(self)
        }
    }

    fn test(&self, r: u8) -> Option<Test>
        ensures { result ≡ meaning.test_of self.now r }
    {
        match self.tests.get(r as usize) {
            Some(t) => *t,
            None => None,
        }
    }

    fn test_held(&self, r: Option<u8>) -> Option<Test>
        ensures { result ≡ meaning.test_held self.now r }
    {
        match r {
            None => None,
            Some(r) => self.test(r),
        }
    }

    fn bounded(self, is_zero: bool, t: Option<Test>) -> Option<Along>
        requires { AreFacts self.facts }
        ensures is { result ≡ meaning.bounded is_zero t self }
        ensures facts { IfSome result (λ a. AreFacts a.facts) }
    {
        match t {
            None => Some(self),
            Some(t) => self.refined_at(t.of, bound(is_zero, t)),
        }
    }

    // The answer of a comparison that a branch compares with register 0.
    #[tactic(auto, unfolding(crate::specs::Along::test_refined))]
    fn test_refined(self, equal: bool, rs: u8, rt: u8) -> Option<Along>
        requires { AreFacts self.facts }
        ensures is { result ≡ meaning.test_refined equal rs rt self }
        ensures facts { IfSome result (λ a. AreFacts a.facts) }
    {
        self.bounded(equal, self.test_held(compared_with_zero(rs, rt)))
    }

    fn sign_refined(self, c: Option<Cond>, rs: u8) -> Option<Along>
        requires { AreFacts self.facts }
        ensures is { result ≡ meaning.sign_refined c rs self }
        ensures facts { IfSome result (λ a. AreFacts a.facts) }
    {
        match c {
            None => Some(self),
            Some(c) => self.refined_at(rs, c),
        }
    }

    fn both_refined(self, equal: bool, rs: u8, rt: u8) -> Option<Along>
        requires { AreFacts self.facts }
        ensures is { result ≡ meaning.and_then (meaning.pair_refined equal rs rt self) (meaning.test_refined equal rs rt) }
        ensures facts { IfSome result (λ a. AreFacts a.facts) }
    {
        match self.pair_refined(equal, rs, rt) {
            None => None,
            Some(a) => a.test_refined(equal, rs, rt),
        }
    }

    /// What a branch, taken or not, says of the facts before it; None where no registers that fit them go that way. Any other
    /// instruction says nothing.
    #[tactic(auto, unfolding(crate::specs::Along::refined_by))]
    pub fn refined(self, i: Instr, taken: bool) -> Option<Along>
        requires { AreFacts self.facts }
        ensures is { result ≡ meaning.refined_by i taken self }
        ensures facts { IfSome result (λ a. AreFacts a.facts) }
    {
        match i {
            Instr::Branch2 { m, rs, rt, .. } => self.both_refined(says_equal(m, taken), rs, rt),
            Instr::Branch1 { m, rs, .. } => self.sign_refined(sign_condition(m, taken), rs),
            _ => Some(self),
        }
    }
}
