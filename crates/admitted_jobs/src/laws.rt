//! The laws, over the definitions alone. Each function has an empty body: its clauses are the law.
ghost use Rattle.std.specs.Prelude.{◌≡◌, ◌<◌, ◌≤◌, ◌^◌, ℕ, suc, List, drop, length, slice_get, Some, sum};
ghost use Rattle.admission.specs.Admitted.{IsAdmitted, Times};
ghost use Rattle.admission.specs.Found.{bounds_at};
ghost use Rattle.admission.specs.declared.mode.Mode.{Mode};
ghost use Rattle.admission.specs.declared.mode.Mode.TheVariants.{Simple};
ghost use Rattle.admitted_jobs.specs.Jobs.{AllWent, EndsBy, IsJob, StoodAt, inside, job_of, pace_at};
ghost use Rattle.admitted_jobs.specs.Ready.{IsReady};
ghost use Rattle.laid_code.specs.Bytes.{AreBytes};
ghost use Rattle.mips_ref.specs.Job.{after};
ghost use Rattle.mips_ref.specs.Memory.{Flat};
ghost use Rattle.mips_ref.specs.Mips.{Mips};
ghost use Rattle.task_layout.specs.Layout.{IsLaidOut};
ghost use Rattle.task_text.specs.Limits.{KeepsLimits};
ghost use Rattle.task_text.specs.declared.task.Task.{Task};
ghost use Rattle.visa_io.specs.ImageCode.{IsFilled, code_of_image};
ghost use Rattle.visa_io.specs.declared.records.Image.{Image as Given};

/// On the memory that a task is given with its image, its jobs can be released.
pub fn a_layout_is_ready()
    ensures { (t : Task) (i : Given) (m : Flat) → IsLaidOut t i m → IsFilled i → AreBytes i.bytes
        → t.input_at < 2 ^ 32 → IsReady t (code_of_image i) m }
{}

/// However far a job goes, and whatever it does, it leaves a memory on which the next one can be released.
pub fn jobs_leave_it_ready()
    ensures { (t : Task) (i : Given) (m : Flat) (input : List ℕ) (n : ℕ) → IsReady t (code_of_image i) m
        → length input ≤ t.input_len → IsReady t (code_of_image i) (after n (job_of t i m input)).memory }
{}

/// Every job of an admitted task ends, in none of the traps that admission excludes, after at most as many steps as
/// its bounds at a point add up to; in simple mode it takes there at most five cycles more than that.
pub fn every_job_is_in_time()
    ensures { (mode : Mode) (t : Task) (i : Given) (times : Times) (x : Mips) (point : ℕ) → KeepsLimits t
        → IsAdmitted mode t i times → IsJob t i x → point < length t.points
        → EndsBy t point x 0 (sum (bounds_at times.bounds point)) }
{}

/// Wherever it is broken off, what remains of it does the same, by one missed fetch and the bounds of the sub-tasks
/// that remain: those from the one on that it is inside.
pub fn every_suffix_is_in_time()
    ensures ends { (mode : Mode) (t : Task) (i : Given) (times : Times) (x : Mips) (point n : ℕ) → KeepsLimits t
        → IsAdmitted mode t i times → IsJob t i x → point < length t.points → AllWent n x
        → EndsBy t point (after n x) (pace_at t point).miss
        (sum (drop (inside t.cuts x n) (bounds_at times.bounds point))) }
    ensures inside { (mode : Mode) (t : Task) (i : Given) (times : Times) (x : Mips) (point n : ℕ)
        → IsAdmitted mode t i times → point < length t.points
        → inside t.cuts x n < length (bounds_at times.bounds point) }
{}

/// It comes to a cut only after the cut before it, and to none twice.
pub fn jobs_meet_cuts_in_order()
    ensures order { (mode : Mode) (t : Task) (i : Given) (times : Times) (x : Mips) (n j c d : ℕ) → KeepsLimits t
        → IsAdmitted mode t i times → IsJob t i x → AllWent n x → slice_get t.cuts j ≡ Some c
        → slice_get t.cuts (suc j) ≡ Some d → (after n x).pc ≡ d → StoodAt x n c }
    ensures once { (mode : Mode) (t : Task) (i : Given) (times : Times) (x : Mips) (n j c : ℕ) → KeepsLimits t
        → IsAdmitted mode t i times → IsJob t i x → AllWent n x → slice_get t.cuts j ≡ Some c → (after n x).pc ≡ c
        → StoodAt x n c → ⊥ }
{}

/// Some task is admitted, within all limits, and has a job: of two sub-tasks, the first of which does nothing, and the
/// second of which returns.
pub fn some_task_is_admitted()
    ensures { (t : Task) × (i : Given) × (times : Times) × (x : Mips) × KeepsLimits t × IsAdmitted Simple t i times
        × IsJob t i x × (length t.cuts ≡ 1) }
{}
