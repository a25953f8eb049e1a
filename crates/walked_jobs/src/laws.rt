//! The laws, over the definitions alone. Each function has an empty body: its clauses are the law.
ghost use Rattle.std.specs.Prelude.{◌≡◌, ◌<◌, ℕ, true};
ghost use Rattle.flow_graph.specs.Flow.{Flow, IsGraph};
ghost use Rattle.mips_ref.specs.Mips.{Mips};
ghost use Rattle.remaining_wcet.specs.Runs.{EndsAfter, IsRun, after, done_by, done_ending};
ghost use Rattle.remaining_wcet.specs.SubTasks.{SubTasks, first_of_sub};
ghost use Rattle.remaining_wcet.specs.Ways.{AreUnits};
ghost use Rattle.run_law.specs.Program.{IsGraphOf, Passed, Program};
ghost use Rattle.run_law.specs.Runs.{Opens};
ghost use Rattle.subtask_cut.specs.Functions.{AreFunctions, AreOver};
ghost use Rattle.walked_jobs.specs.Machine.{done_at, goes_at, next_state, traps_at, words_of};
ghost use Rattle.walked_jobs.specs.Units.{IsLongAtUnits, units_of};

/// What a job of a task that passed executes in its first steps, and in all, is a run along a walk of its graph.
pub fn jobs_are_runs()
    ensures prefix { (p : Program) (t : SubTasks) (x : Mips) → Passed p → Opens p x → t.flow ≡ p.graph → first_of_sub t 0 ≡ p.entry → (m : ℕ)
        → ((k : ℕ) → k < m → goes_at (after next_state k x) ≡ true) → IsRun t (words_of p.code) (done_by next_state done_at m x) }
    ensures whole { (p : Program) (t : SubTasks) (x : Mips) → Passed p → Opens p x → t.flow ≡ p.graph → first_of_sub t 0 ≡ p.entry → (m : ℕ)
        → EndsAfter next_state goes_at x m → IsRun t (words_of p.code) (done_ending next_state done_at traps_at m x) }
{}

/// What the bounds ask of a graph holds of that of code: of its long units, of the kinds of its edges, and of its functions.
pub fn graphs_are_known()
    ensures units { (p : Program) (g : Flow) → IsGraph p.code p.entry g → IsGraphOf p g → IsLongAtUnits p
        → AreUnits p.graph (words_of p.code) p.entry }
    ensures functions { (p : Program) (g : Flow) → IsGraph p.code p.entry g → IsGraphOf p g → AreFunctions p.graph.edges (units_of g) p.entry }
    ensures over { (p : Program) (g : Flow) → IsGraph p.code p.entry g → IsGraphOf p g → AreOver p.graph.edges }
{}
