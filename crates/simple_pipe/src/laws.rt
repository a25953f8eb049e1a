//! Laws on the times of lists of instructions, for callers that bound a run before it is made.
ghost use Rattle.std.specs.Prelude.{◌≡◌, ℕ, ◌+◌, ◌≤◌, List, Some};
ghost use Rattle.mips_isa.specs.declared.instr.Instr.{Instr as Decoded};
ghost use Rattle.mips_ref.specs.declared.records.Ran.{Ran as Item};
ghost use Rattle.simple_pipe.specs.declared.pace.Pace.{Pace as Cycles};
ghost use Rattle.simple_pipe.specs.declared.executed.Executed.{Executed};
ghost use Rattle.simple_pipe.specs.Times.{times_of};
ghost use Rattle.simple_pipe.specs.Cost.{cost_of, total_cost};
ghost use Rattle.simple_pipe.specs.Pace.{static_cost};
ghost use Rattle.simple_pipe.specs.Simple.{Caches, as_instr, fetch_cost};

/// The end of every list of executed instructions, newest first, is at most five cycles above the sum of their costs.
#[tactic(auto, using(crate::proofs::Potential::laws))]
pub fn left_bound()
    ensures { (es : List Executed) → (times_of es).left ≤ 5 + total_cost es }
{}

/// Whatever was executed before, an instruction costs, its fetch aside, at most its static cost without the missed fetch
/// that this counts; and at least one cycle.
pub fn static_bound()
    ensures rest { (p : Cycles) (c : Caches) (r : Item) (rs : List Item) (i : Decoded) →
        cost_of (as_instr p c r rs (Some i)) + p.miss ≤ static_cost p i + fetch_cost p c r rs }
    ensures fetch { (p : Cycles) (c : Caches) (r : Item) (rs : List Item) → fetch_cost p c r rs ≤ p.miss }
    ensures one { (e : Executed) → 1 ≤ cost_of e }
{}
