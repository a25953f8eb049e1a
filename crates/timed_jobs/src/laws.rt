//! The laws, over the definitions alone. Each function has an empty body: its clauses are the law.
ghost use Rattle.std.specs.Prelude.{◌≡◌, ◌<◌, ◌+◌, ℕ, List, ◌∷◌, drop};
ghost use Rattle.loop_regions.specs.Costs.{Prices};
ghost use Rattle.mips_ref.specs.Job.{after};
ghost use Rattle.mips_ref.specs.Mips.{Mips};
ghost use Rattle.mips_ref.specs.Step.{step_of};
ghost use Rattle.mips_ref.specs.declared.records.Step.TheVariants.{Went};
ghost use Rattle.remaining_wcet.specs.Admitted.{IsAnalysed, IsPriced};
ghost use Rattle.remaining_wcet.specs.Bounds.{sum_of};
ghost use Rattle.remaining_wcet.specs.Runs.{cuts_met};
ghost use Rattle.remaining_wcet.specs.SubTasks.{AreCovered, SubTasks};
ghost use Rattle.run_law.specs.Program.{Passed, Program};
ghost use Rattle.run_law.specs.Runs.{Opens};
ghost use Rattle.simple_pipe.specs.Simple.{Caches};
ghost use Rattle.simple_pipe.specs.declared.pace.Pace.{Pace as Cycles};
ghost use Rattle.timed_jobs.specs.Pace.{EndsWithin, IsPaced, pcs_of};
ghost use Rattle.walked_jobs.specs.Machine.{words_of};

/// From any state that its steps lead to, a job of an admitted task ends, and takes in simple mode, with empty pipeline and caches, at
/// most five cycles, one miss, and the bounds of the sub-tasks that remain: those from the cut on that it met last.
pub fn every_suffix_is_in_time()
    ensures { (p : Program) (t : SubTasks) (units : ℕ → List ℕ) (slow fast : Prices) (cap : ℕ) (bounds fast_bounds cuts : List ℕ) (pace : Cycles)
        (caches : Caches) (x : Mips) → Passed p → Opens p x → t.flow ≡ p.graph → t.firsts ≡ p.entry ∷ cuts
        → IsAnalysed t units (words_of p.code) → IsPriced t (words_of p.code) slow fast cap bounds fast_bounds → IsPaced pace p.code slow
        → ((k : ℕ) → AreCovered t caches.fetch_hits k) → (n : ℕ) → ((k : ℕ) → k < n → (step_of (after k x)).answer ≡ Went)
        → EndsWithin pace caches (after n x) (5 + (pace.miss + sum_of (drop (cuts_met cuts (pcs_of n x)) bounds))) }
{}

/// From its opening it takes at most five cycles and the bounds.
pub fn every_job_is_in_time()
    ensures { (p : Program) (t : SubTasks) (units : ℕ → List ℕ) (slow fast : Prices) (cap : ℕ) (bounds fast_bounds cuts : List ℕ) (pace : Cycles)
        (caches : Caches) (x : Mips) → Passed p → Opens p x → t.flow ≡ p.graph → t.firsts ≡ p.entry ∷ cuts
        → IsAnalysed t units (words_of p.code) → IsPriced t (words_of p.code) slow fast cap bounds fast_bounds → IsPaced pace p.code slow
        → ((k : ℕ) → AreCovered t caches.fetch_hits k) → EndsWithin pace caches x (5 + sum_of bounds) }
{}
