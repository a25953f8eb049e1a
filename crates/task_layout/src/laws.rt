//! Laws on layouts: a task and its image have one, want of memory aside.
ghost use Rattle.mips_ref.specs.Memory.{Flat};
ghost use Rattle.std.specs.Prelude.{◌≡◌, ◌≢◌, Err, Ok};
ghost use Rattle.task_layout.specs.Layout.{IsLayout};
ghost use Rattle.task_layout.specs.declared.fault.LayoutFault.{LayoutFault};
ghost use Rattle.task_layout.specs.declared.fault.LayoutFault.TheVariants.{Memory};
ghost use Rattle.task_text.specs.declared.task.Task.{Task};
ghost use Rattle.visa_io.specs.declared.records.Image.{Image};

/// A task has one memory with its image, or one refusal: the first rule that the two break.
pub fn one_layout()
    ensures memories { (t : Task) (i : Image) (a b : Flat) → IsLayout t i (Ok a) → IsLayout t i (Ok b) → a ≡ b }
    ensures refusals { (t : Task) (i : Image) (one other : LayoutFault) → IsLayout t i (Err one) → IsLayout t i (Err other)
        → one ≢ Memory → other ≢ Memory → one ≡ other }
    ensures apart { (t : Task) (i : Image) (memory : Flat) (fault : LayoutFault) → IsLayout t i (Ok memory)
        → IsLayout t i (Err fault) → fault ≡ Memory }
{}
