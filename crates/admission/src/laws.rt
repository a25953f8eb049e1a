//! Laws on admission.
ghost use Rattle.admission.specs.Admitted.{Times};
ghost use Rattle.admission.specs.Refused.{Admits};
ghost use Rattle.admission.specs.declared.mode.Mode.{Mode};
ghost use Rattle.admission.specs.declared.refusal.Refusal.{Refusal};
ghost use Rattle.admission.specs.declared.refusal.Refusal.TheVariants.{Memory};
ghost use Rattle.std.specs.Prelude.{◌≡◌, ◌≢◌, Err, Ok};
ghost use Rattle.task_text.specs.declared.task.Task.{Task};
ghost use Rattle.visa_io.specs.declared.records.Image.{Image};

/// Admission has one answer, want of memory aside: the bounds and plans of an admitted task are determined, and so is the refusal of a
/// task that isn't admitted; no task is both.
pub fn one_admission()
    ensures times { (mode : Mode) (t : Task) (i : Image) (a b : Times) → Admits mode t i (Ok a) → Admits mode t i (Ok b) → a ≡ b }
    ensures refusals { (mode : Mode) (t : Task) (i : Image) (one other : Refusal) → Admits mode t i (Err one)
        → Admits mode t i (Err other) → one ≢ Memory → other ≢ Memory → one ≡ other }
    ensures apart { (mode : Mode) (t : Task) (i : Image) (a : Times) (refusal : Refusal) → Admits mode t i (Ok a)
        → Admits mode t i (Err refusal) → refusal ≢ Memory → ⊥ }
{}
