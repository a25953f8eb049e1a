// What holds of every step, over the definitions alone. Each function has an empty body: its clauses are the law.
ghost use Rattle.std.specs.Prelude.{◌≡◌, ◌≢◌, ◌+◌, ◌++◌, ℕ, Bool, true, false, None, Some, IfSome, length};
ghost use Rattle.mips_isa.specs.Fits.{FieldsFit};
ghost use Rattle.mips_isa.specs.Kinds.{is_control, kind_of};
ghost use Rattle.mips_isa.specs.Names.{reads_of, writes_of};
ghost use Rattle.mips_isa.specs.Prediction.{single_edge_of};
ghost use Rattle.mips_isa.specs.Words.{word_sum};
ghost use Rattle.mips_isa.specs.declared.instr.Instr.{Instr};
ghost use Rattle.mips_ref.specs.Access.{is_load};
ghost use Rattle.mips_ref.specs.Act.{act_of};
ghost use Rattle.mips_ref.specs.Facts.{AgreeOn, Gives, GoesOn, IsLate, IsOwn, Retires, SameOutcome, WentBy, Writes, as_name, placed};
ghost use Rattle.mips_ref.specs.Job.{after};
ghost use Rattle.mips_ref.specs.Memory.{LaidOut, byte_at, code_word_at};
ghost use Rattle.mips_ref.specs.Mips.{Mips, name_value, register_of};
ghost use Rattle.mips_ref.specs.Ran.{ran, ran_by};
ghost use Rattle.mips_ref.specs.Step.{acted, applied, at_exit, changed, late_trap, retired_of, step_of, store_at, trap_of};
ghost use Rattle.mips_ref.specs.declared.records.Retired.{Retired};
ghost use Rattle.mips_ref.specs.declared.records.Step.TheVariants.{Went, Exit};
ghost use Rattle.mips_ref.specs.declared.records.Values.{Values};

/// An instruction that isn't control goes on after the next one, and reads the next one's address for nothing else; a step
/// makes the next instruction the current one.
pub fn next_pc()
    ensures act { (i : Instr) (pc : ℕ) (v : Values) → is_control (kind_of i) ≡ false → GoesOn i pc v }
    ensures pc { (x : Mips) → (step_of x).answer ≡ Went → (step_of x).state.pc ≡ x.next_pc }
    ensures next { (x : Mips) (word : ℕ) (i : Instr) → WentBy x word i → is_control (kind_of i) ≡ false
        → (step_of x).state.next_pc ≡ word_sum x.next_pc 4 }
{}

/// Before another next address, an instruction that isn't control comes to the same but for where it goes.
pub fn other_next_pc()
    ensures trap { (i : Instr) (x : Mips) (npc other : ℕ) → is_control (kind_of i) ≡ false
        → trap_of i (placed x x.pc other) ≡ trap_of i (placed x x.pc npc) }
    ensures parts { (i : Instr) (x : Mips) (npc other : ℕ) → is_control (kind_of i) ≡ false → trap_of i (placed x x.pc npc) ≡ None
        → retired_of i (placed x x.pc other) ≡ record (retired_of i (placed x x.pc npc)) { next = word_sum other 4 } }
{}

/// A step changes no name but the one that its instruction writes, memory only by a store and only at the bytes that this
/// writes, and ranges and words of code never; where it doesn't go it changes nothing.
pub fn frame()
    ensures names { (x : Mips) (word : ℕ) (i : Instr) (n : ℕ) → WentBy x word i → writes_of i ≢ Some n
        → name_value (step_of x).state n ≡ name_value x n }
    ensures memory { (x : Mips) (word : ℕ) (i : Instr) → WentBy x word i → store_at i (retired_of i x).at ≡ None
        → (step_of x).state.memory ≡ x.memory }
    ensures bytes { (x : Mips) (word : ℕ) (i : Instr) (a : ℕ) → WentBy x word i → ¬ (Writes i (retired_of i x) a)
        → byte_at (step_of x).state.memory a ≡ byte_at x.memory a }
    ensures spans { (n : ℕ) (x : Mips) → (after n x).memory.spans ≡ x.memory.spans }
    ensures code { (n : ℕ) (x : Mips) (a : ℕ) → LaidOut 0 x.memory.spans
        → code_word_at (after n x).memory a ≡ code_word_at x.memory a }
    ensures stays { (x : Mips) → (step_of x).answer ≢ Went → (step_of x).state ≡ x }
{}

/// What an instruction does depends on the values of the names that it reads, its address and the next one's alone; its trap
/// and its parts also on the ranges and the byte order of memory, and those of a load on all of memory.
pub fn reads()
    ensures acts { (i : Instr) (x y : Mips) → FieldsFit i → x.pc ≡ y.pc → x.next_pc ≡ y.next_pc → AgreeOn (reads_of i) x y
        → acted i x ≡ acted i y }
    ensures outcome { (i : Instr) (x y : Mips) → FieldsFit i → x.pc ≡ y.pc → x.next_pc ≡ y.next_pc → AgreeOn (reads_of i) x y
        → x.memory.spans ≡ y.memory.spans → x.memory.big ≡ y.memory.big → (is_load i ≡ true → x.memory ≡ y.memory)
        → SameOutcome i x y }
{}

/// The parts of an instruction without a trap have a value of the name that it writes; applied to a state, they give that name
/// this value and leave the others.
pub fn writes()
    ensures gives { (i : Instr) (x : Mips) → trap_of i x ≡ None → Gives (writes_of i) (retired_of i x).write }
    ensures written { (i : Instr) (r : Retired) (x : Mips) (n v : ℕ) → FieldsFit i → length x.registers ≡ 32 → writes_of i ≡ Some n
        → r.write ≡ Some v → name_value (changed i r x) n ≡ as_name n v }
    ensures kept { (i : Instr) (r : Retired) (x : Mips) (n : ℕ) → writes_of i ≢ Some n
        → name_value (changed i r x) n ≡ name_value x n }
{}

/// A branch that can go one way alone goes it, since register 0 reads zero.
pub fn one_way()
    ensures { (i : Instr) (x : Mips) (t : Bool) → register_of x 0 ≡ 0 → single_edge_of i ≡ Some t → (acted i x).taken ≡ t }
{}

/// A step that is made by its parts is the step; and a step answers Exit exactly where `at_exit` says so.
pub fn by_parts()
    ensures retire { (x : Mips) (i : Instr) (r : Retired) → LaidOut 0 x.memory.spans → Retires x i r → step_of x ≡ applied i r x }
    ensures exits { (x : Mips) → at_exit x ≡ true → (step_of x).answer ≡ Exit }
    ensures exited { (x : Mips) → (step_of x).answer ≡ Exit → at_exit x ≡ true }
{}

/// The steps from the n-th on are those from the state after n steps; what they execute is the newest part of what the whole run
/// executes.
pub fn suffixes()
    ensures after { (k n : ℕ) (x : Mips) → after (k + n) x ≡ after k (after n x) }
    ensures ran_by { (k n : ℕ) (x : Mips) → ran_by (k + n) x ≡ ran_by k (after n x) ++ ran_by n x }
    ensures ran { (k n : ℕ) (x : Mips) → ran (k + n) x ≡ ran k (after n x) ++ ran_by n x }
{}

/// ReturnFull, ReturnMismatch and OutputFull come where the parts of a step are applied, and no other trap comes there; an
/// instruction by itself has Overflow, TrapInstr, Break or Syscall.
pub fn late_traps()
    ensures own { (i : Instr) (pc npc : ℕ) (v : Values) → IfSome (act_of i pc npc v).trap IsOwn }
    ensures late { (i : Instr) (r : Retired) (x : Mips) → IfSome (late_trap i r x) IsLate }
{}
