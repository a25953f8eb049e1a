//! The laws on what remains of a job of an admitted task. A machine's states are lists of numbers here; its steps, and what each executes,
//! are any.
ghost use Rattle.std.specs.Prelude.{◌≡◌, ◌+◌, ◌<◌, ◌≤◌, ℕ, List, Bool, true, [], ◌∷◌, drop, slice_index_or};
ghost use Rattle.flow_graph.specs.Flow.{Flow};
ghost use Rattle.loop_regions.specs.Costs.{Prices};
ghost use Rattle.remaining_wcet.specs.Admitted.{IsAnalysed, IsPriced};
ghost use Rattle.remaining_wcet.specs.Bounds.{sum_of};
ghost use Rattle.remaining_wcet.specs.Executed.{Clock};
ghost use Rattle.remaining_wcet.specs.Known.{AreCuts};
ghost use Rattle.remaining_wcet.specs.Runs.{IsKnownJob, IsOver, after, cuts_met, done_ats, done_by};
ghost use Rattle.remaining_wcet.specs.SubTasks.{SubTasks, AreCovered, first_of_sub};
ghost use Rattle.remaining_wcet.specs.Ways.{Done, Words};
ghost use Rattle.subtask_cut.specs.Cuts.{AreSubTasks, SubTasks as Cutting};
ghost use Rattle.subtask_cut.specs.Functions.{AreFunctions, AreOver};
ghost use Rattle.subtask_cut.specs.Ways.{units_of};
ghost use Rattle.visa_io.specs.declared.records.Region.{Region};

/// From any state that its steps lead to, an admitted job ends, and what remains costs at most one miss and the bounds of the sub-tasks
/// that remain: those behind as many cuts as were met.
pub fn every_suffix_ends()
    ensures { (t : SubTasks) (units : ℕ → List ℕ) (w : Words) (slow fast : Prices) (cap : ℕ) (bounds fast_bounds : List ℕ) (c : Clock)
        → IsAnalysed t units w → IsPriced t w slow fast cap bounds fast_bounds → ((k : ℕ) → AreCovered t c.hits k)
        → (entry : ℕ) (cuts : List ℕ) → t.firsts ≡ entry ∷ cuts
        → (step : List ℕ → List ℕ) (done : List ℕ → Done) (traps went : List ℕ → Bool) (x : List ℕ) → IsKnownJob t w slow c step done traps went x
        → (n : ℕ) → ((k : ℕ) → k < n → went (after step k x) ≡ true)
        → IsOver w slow c step done traps went (after step n x)
        (slow.miss + sum_of (drop (cuts_met cuts ((done (after step n x)).at ∷ done_ats (done_by step done n x))) bounds)) }
{}

/// From its opening an admitted job costs at most the bounds.
pub fn every_job_ends()
    ensures { (t : SubTasks) (units : ℕ → List ℕ) (w : Words) (slow fast : Prices) (cap : ℕ) (bounds fast_bounds : List ℕ) (c : Clock)
        → IsAnalysed t units w → IsPriced t w slow fast cap bounds fast_bounds → ((k : ℕ) → AreCovered t c.hits k)
        → (step : List ℕ → List ℕ) (done : List ℕ → Done) (traps went : List ℕ → Bool) (x : List ℕ) → IsKnownJob t w slow c step done traps went x
        → (done x).at ≡ first_of_sub t 0 → IsOver w slow c step done traps went x (sum_of bounds) }
{}

/// The sub-tasks of cuts without a fault are different, come in order and have closed scopes, whatever else is known of them.
pub fn sub_tasks_are_cuts()
    ensures { (g : Flow) (rs : List Region) (cuts : List ℕ) (s : Cutting) (t : SubTasks) → AreSubTasks g rs cuts s
        → AreFunctions g.edges (units_of g) g.entry → AreOver g.edges → t.flow.edges ≡ g.edges → t.firsts ≡ s.firsts
        → ((k : ℕ) → t.scope k ≡ slice_index_or s.scopes k []) → AreCuts t (units_of g) }
{}
