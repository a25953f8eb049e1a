// What holds of a window beside a state, over the definitions alone. Each function has an empty body: its clauses are the law.
ghost use Rattle.std.specs.Prelude.{◌≡◌, ℕ, true, false, List, ◌∷◌, ◌++◌, length, Some, None, IfSome, if◌then◌else◌};
ghost use Rattle.mips_isa.specs.Fits.{FieldsFit};
ghost use Rattle.mips_isa.specs.Kinds.{is_control, kind_of};
ghost use Rattle.mips_isa.specs.Names.{reads_of};
ghost use Rattle.mips_isa.specs.Words.{word_sum};
ghost use Rattle.mips_isa.specs.declared.instr.Instr.{Instr};
ghost use Rattle.mips_ref.specs.Facts.{AgreeOn};
ghost use Rattle.mips_ref.specs.Job.{after};
ghost use Rattle.mips_ref.specs.Memory.{LaidOut};
ghost use Rattle.mips_ref.specs.Mips.{Mips};
ghost use Rattle.core_window.specs.Beside.{Stands};
ghost use Rattle.core_window.specs.Core.{Core, Pair, on_opening, opened};
ghost use Rattle.core_window.specs.Events.{all_happen, attempt, commits, going_to};
ghost use Rattle.core_window.specs.Operands.{is_ready, operand, overlaid, seen, stores_done};
ghost use Rattle.core_window.specs.Outcomes.{is_load, outcome_in, outcome_of, placed};
ghost use Rattle.core_window.specs.Reached.{Reaches, StepIs};
ghost use Rattle.core_window.specs.View.{all_known, if_known, known_outcome, view_past};
ghost use Rattle.core_window.specs.declared.records.Entry.{Entry};
ghost use Rattle.core_window.specs.declared.records.Event.{Event};
ghost use Rattle.core_window.specs.declared.records.Outcome.{Outcome};

/// A window that opens on a state of the machine stands beside it.
pub fn opens()
    ensures { (rob : ℕ) (x : Mips) → length x.registers ≡ 32 → LaidOut 0 x.memory.spans → Stands (opened rob x) x }
{}

/// Each event that is enabled leaves a window that stands beside the state that it leaves.
pub fn each_event()
    ensures { (c : Core) (x : Mips) (e : Event) → Stands c x → IfSome (attempt c x e) (λ (q : Pair). Stands q.core q.state) }
{}

/// After every list of events, those that aren't enabled changing nothing, the window stands beside the committed state, which is the
/// reference's after as many steps as there were commits whose step went.
pub fn every_list_of_events()
    ensures stands { (p : Pair) (events : List Event) → Stands p.core p.state
        → Stands (all_happen p events).core (all_happen p events).state }
    ensures state { (p : Pair) (events : List Event) → (all_happen p events).state ≡ after (commits p events) p.state }
    ensures opened { (rob : ℕ) (x : Mips) (events : List Event) → length x.registers ≡ 32 → LaidOut 0 x.memory.spans
        → Stands (all_happen (on_opening rob x) events).core (after (commits (on_opening rob x) events) x) }
{}

/// Where the reference comes to an entry's place by way of the older entries, an outcome that the entry has is the one of the
/// reference's step there. So a commit is made by the parts that the oldest entry holds.
pub fn outcomes()
    ensures reached { (c : Core) (x : Mips) (k : ℕ) (e : Entry) (r : Outcome) → Stands c x → Reaches x c.entries k e
        → outcome_of e.status ≡ Some r → StepIs e.instr r (after k x) }
    ensures oldest { (c : Core) (x : Mips) (e : Entry) (rest : List Entry) (r : Outcome) → Stands c x → c.entries ≡ e ∷ rest
        → outcome_of e.status ≡ Some r → StepIs e.instr r x }
{}

/// The view that is passed along the entries, from the oldest on, knows of a name what the nearest older writer gives; its memory is
/// the committed one overlaid by the older stores, and known where these are done; and it knows what Issue computes.
pub fn views()
    ensures names { (c : Core) (x : Mips) (older younger : List Entry) (n : ℕ) → Stands c x → c.entries ≡ older ++ younger
        → if_known (view_past older (all_known x)) n ≡ operand older x n }
    ensures memory { (older : List Entry) (x : Mips) → (view_past older (all_known x)).state.memory ≡ overlaid older x.memory }
    ensures stores { (older : List Entry) (x : Mips) → (view_past older (all_known x)).memory_known ≡ stores_done older }
    ensures outcome { (c : Core) (x : Mips) (older younger : List Entry) (i : Instr) (pc npc : ℕ) → Stands c x
        → c.entries ≡ older ++ younger → FieldsFit i → known_outcome (view_past older (all_known x)) i pc npc
        ≡ (if is_ready older x i then Some (outcome_in i (seen older x pc npc)) else None) }
{}
