//! What the facts say of every step, over the definitions alone. Each function has an empty body: its clauses are the law.
ghost use Rattle.std.specs.Prelude.{◌≡◌, ◌≤◌, ◌<◌, ◌^◌, ℕ, Bool, Some, slice_index};
ghost use Rattle.mips_isa.specs.Kinds.{kind_of};
ghost use Rattle.mips_isa.specs.declared.instr.Instr.{Instr as Meant};
ghost use Rattle.mips_isa.specs.declared.instr.Kind.TheVariants as kind;
ghost use Rattle.mips_ref.specs.Facts.{WentBy};
ghost use Rattle.mips_ref.specs.Job.{opening_registers};
ghost use Rattle.mips_ref.specs.Mips.{Mips};
ghost use Rattle.mips_ref.specs.Step.{retired_of, step_of};
ghost use Rattle.range_facts.specs.Along.{after_instr, begun, refined_by};
ghost use Rattle.range_facts.specs.Fit.{Fit};
ghost use Rattle.range_facts.specs.Transfer.{AreFacts, opening_of};
ghost use Rattle.range_facts.specs.declared.along.Along.{Along as Known};

/// A step of any instruction, control or not: registers that fit before it fit after it, links included, and facts stay facts.
pub fn step()
    ensures fits { (x : Mips) (word : ℕ) (i : Meant) (a : Known) → WentBy x word i → AreFacts a.facts → Fit a x.registers
        → Fit (after_instr i x.pc a) (step_of x).state.registers }
    ensures facts { (x : Mips) (word : ℕ) (i : Meant) (a : Known) → WentBy x word i → AreFacts a.facts
        → AreFacts (after_instr i x.pc a).facts }
{}

/// Registers with which a branch is taken, or isn't, fit what that says, which is then something; any other instruction says nothing.
pub fn turn()
    ensures { (i : Meant) (x : Mips) (a : Known) (taken : Bool) → AreFacts a.facts → Fit a x.registers
        → (kind_of i ≡ kind.Branch → (retired_of i x).taken ≡ taken)
        → (b : Known) × (refined_by i taken a ≡ Some b) × AreFacts b.facts × Fit b x.registers }
{}

/// The registers of a job fit its opening facts, whatever the length of its input.
pub fn opening()
    ensures { (input_at input_len stack length : ℕ) → input_at < 2 ^ 32 → stack < 2 ^ 32 → input_len ≤ 65536 → length ≤ input_len
        → Fit (begun (opening_of input_at input_len stack)) (opening_registers input_at length stack) }
{}
