//! The laws, over the definitions alone. Each function has an empty body: its clauses are the law.
ghost use Rattle.std.specs.Prelude.{◌≡◌, ◌≢◌, ◌<◌, ℕ, Bool, List, true, Some, length};
ghost use Rattle.mips_isa.specs.Kinds.{kind_of};
ghost use Rattle.mips_isa.specs.declared.instr.Instr.{Instr};
ghost use Rattle.mips_isa.specs.declared.instr.Kind.TheVariants as kind;
ghost use Rattle.mips_ref.specs.Facts.{WentBy};
ghost use Rattle.flow_graph.specs.Flow.{Flow, IsGraph};
ghost use Rattle.mips_ref.specs.Job.{EndsAfter, after, opening};
ghost use Rattle.mips_ref.specs.Memory.{Flat, LaidOut};
ghost use Rattle.mips_ref.specs.Mips.{Mips};
ghost use Rattle.mips_ref.specs.Ran.{ran, ran_by};
ghost use Rattle.mips_ref.specs.Step.{step_of};
ghost use Rattle.mips_ref.specs.declared.records.Step.TheVariants.{Went};
ghost use Rattle.run_law.specs.Advance.{AreRegisters, MayAnswer, StepsBy};
ghost use Rattle.range_facts.specs.Transfer.{AreFacts, opening_of};
ghost use Rattle.run_law.specs.Analysed.{Analysed, KeepsFacts};
ghost use Rattle.run_law.specs.Bare.{bare};
ghost use Rattle.flow_graph.specs.declared.parts.Edge.{Edge};
ghost use Rattle.visa_io.specs.declared.records.Code.{Code as Words};
ghost use Rattle.run_law.specs.Certificate.{AreBlocksOf, Blocked, Blocks, Certificate, OpensIn};
ghost use Rattle.loop_regions.specs.Regions.{AreNested};
ghost use Rattle.std.specs.List.{Contains};
ghost use Rattle.visa_io.specs.declared.records.Region.{Region};
ghost use Rattle.run_law.specs.Counts.{IsCounted};
ghost use Rattle.flow_graph.specs.Reached.{Reached};
ghost use Rattle.run_law.specs.Loops.{loops_of};
ghost use Rattle.run_law.specs.Masks.{AreMasks};
ghost use Rattle.run_law.specs.Instructions.{instruction_at, is_direct};
ghost use Rattle.run_law.specs.Program.{Counted, Flowing, IsGraphOf, Kept, Masked, Nested, Passed, Program};
ghost use Rattle.run_law.specs.Runs.{HasCode, IsInput, IsWalked, Opens, Runs};

/// What a step that goes leaves, by the kind of its instruction; the registers stay 32 words, the first of them zero; and what the step of an
/// instruction of code answers.
pub fn a_step_by_kind()
    ensures leaves { (x : Mips) (word : ℕ) (i : Instr) → WentBy x word i → AreRegisters x.registers → is_direct i ≡ true → StepsBy i x (step_of x).state }
    ensures registers { (x : Mips) → AreRegisters x.registers → AreRegisters (step_of x).state.registers }
    ensures answers { (x : Mips) (i : Instr) → LaidOut 0 x.memory.spans → instruction_at x.memory x.pc ≡ Some i
        → (kind_of i ≡ kind.Call → length x.returns < 64) → is_direct i ≡ true → MayAnswer (step_of x).answer }
{}

/// While a job goes of a task whose graph, regions, facts and counts passed, what it ran is a legal walk of the graph, the last unit perhaps in
/// part, its registers fit the facts there, and its next step is none of the traps that admission excludes.
pub fn every_run_is_a_legal_walk()
    ensures { (p : Program) (x : Mips) (n : ℕ) → Passed p → Opens p x → ((k : ℕ) → k < n → (step_of (after k x)).answer ≡ Went)
        → Runs p (after n x) (ran_by n x) × MayAnswer (step_of (after n x)).answer }
{}

/// What a whole job executes, the instruction that traps with it, stands at the places of a legal walk; and it ends in none of the traps that
/// admission excludes.
pub fn every_job_is_a_legal_walk()
    ensures ends { (p : Program) (x : Mips) (n : ℕ) → Passed p → Opens p x → EndsAfter x n → MayAnswer (step_of (after n x)).answer }
    ensures walk { (p : Program) (x : Mips) (n : ℕ) → Passed p → Opens p x → EndsAfter x n → IsWalked p (ran n x) }
{}

/// What the run law asks follows from what the analyses find: the graph of the code, the registers that functions may write, regions that nest
/// and are counted right, and a certificate at the starts of blocks.
pub fn what_passes()
    ensures graph { (p : Program) (g : Flow) → IsGraph p.code p.entry g → IsGraphOf p g → Flowing p }
    ensures loops { (p : Program) (g : Flow) (regions : List Region) → IsGraph p.code p.entry g → p.graph ≡ loops_of g regions → IsGraphOf p g }
    ensures long { (p : Program) (g : Flow) (regions : List Region) → IsGraph p.code p.entry g → p.graph ≡ loops_of g regions → (u : ℕ)
        → p.graph.is_long u ≡ true → Reached p.code p.entry u }
    ensures masks { (p : Program) → AreMasks p.code p.entry p.mask → Masked p }
    ensures blocks { (p : Program) (g : Flow) (b : Blocks) → IsGraph p.code p.entry g → AreBlocksOf g b → Blocked p b }
    ensures regions { (p : Program) (g : Flow) (r : Region) → IsGraph p.code p.entry g → IsGraphOf p g → AreNested g p.graph.regions
        → Contains p.graph.regions r → Nested p r }
    ensures counts { (p : Program) (r : Region) → r.counter ≢ 0 → r.counter < 32 → AreMasks p.code p.entry p.mask
        → AreFacts (p.before r.header).facts → IsCounted p r → Counted p r }
    ensures facts { (p : Program) (b : Blocks) → Flowing p → Blocked p b → Certificate p b → Kept p }
{}

/// A task that passed every analysis passes; and while a job of it goes, each fact holds at the start of its block.
pub fn an_analysed_task_passes()
    ensures passes { (p : Program) (g : Flow) (b : Blocks) → Analysed p g b → Passed p }
    ensures keeps { (p : Program) (g : Flow) (b : Blocks) (x : Mips) (n : ℕ) → Analysed p g b → Opens p x
        → ((k : ℕ) → k < n → (step_of (after k x)).answer ≡ Went) → KeepsFacts p b (after n x) }
{}

/// A job opens on a memory that holds the code where its opening facts lie in those of the entry; and it leaves the code to the jobs behind it.
pub fn a_job_opens()
    ensures opens { (p : Program) (b : Blocks) (stack input_at input_len : ℕ) (input : List ℕ) (m : Flat) (out : ℕ) → Flowing p → Blocked p b
        → Certificate p b → OpensIn (opening_of input_at input_len stack) b p.entry → HasCode p.code m → IsInput m input_at input_len stack input
        → Opens p (opening p.entry stack input_at input_len input m out) }
    ensures leaves { (code : Words) (n : ℕ) (x : Mips) → HasCode code x.memory → HasCode code (after n x).memory }
{}

/// Without facts and regions the graph alone passes.
pub fn a_bare_graph_passes()
    ensures { (code : Words) (entry : ℕ) (edges : List Edge) (is_long : ℕ → Bool) → Flowing (bare code entry edges is_long)
        → Passed (bare code entry edges is_long) }
{}

/// Some task passes every analysis: a loop with a call in it, and a delay slot behind each control instruction.
pub fn some_task_passes()
    ensures { (p : Program) × (g : Flow) × (b : Blocks) × (length p.graph.regions ≡ 1) × Analysed p g b }
{}
