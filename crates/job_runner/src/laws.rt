// The laws of jobs and runs, over the definitions alone. Each function has an empty body: its clauses are the law.
ghost use Rattle.std.specs.Prelude.{◌≡◌, ◌≤◌, ℕ, List, length};
ghost use Rattle.std.specs.List.{AllByRecursion};
ghost use Rattle.admission.specs.Admitted.{IsAdmitted, Times};
ghost use Rattle.admission.specs.Found.{entry_of};
ghost use Rattle.admission.specs.declared.mode.Mode.{Mode};
ghost use Rattle.admission.specs.declared.mode.Mode.TheVariants.{Fast};
ghost use Rattle.admitted_jobs.specs.Ready.{IsReady};
ghost use Rattle.mode_states.specs.Kept.{IsPlanned, kept_of};
ghost use Rattle.job_runner.specs.Job.{Before, RanJob, RunsFast, RunsSimple, Setting, pair_of};
ghost use Rattle.job_runner.specs.Opens.{AllFit, CanOpen, IsInTime, IsRunnable, OpenAlike, answers_of, states_of};
ghost use Rattle.job_runner.specs.Run.{AreRun};
ghost use Rattle.task_text.specs.Limits.{KeepsLimits};
ghost use Rattle.task_text.specs.declared.task.Task.{Task as TaskOf};
ghost use Rattle.visa_io.specs.ImageCode.{code_of_image};
ghost use Rattle.visa_io.specs.declared.records.Image.{Image as Given};

/// A job has one run: its record, the state that it leaves, its counts and the predictor's data are determined by
/// what it finds and by its input.
pub fn one_job()
    ensures simple { (s : Setting) (b : Before) (input : List ℕ) (r other : RanJob) → RunsSimple s b input r
        → RunsSimple s b input other → r ≡ other }
    ensures fast { (s : Setting) (b : Before) (input : List ℕ) (r other : RanJob) → RunsFast s b input r
        → RunsFast s b input other → r ≡ other }
{}

/// So have so many jobs.
pub fn one_run()
    ensures { (mode : Mode) (s : Setting) (inputs : ℕ → List ℕ) (jobs others : List RanJob) → AreRun mode s inputs jobs
        → AreRun mode s inputs others → length jobs ≡ length others → jobs ≡ others }
{}

/// Where a job of an admitted task can open, it runs: in simple mode, and in fast mode at a pair of points that has a
/// plan. It ends by its deadline, and the next one can open on the memory that it leaves.
pub fn each_job_runs()
    ensures simple { (s : Setting) (b : Before) (input : List ℕ) → CanOpen s b.memory → length input ≤ s.kept.input_len
        → (r : RanJob) × RunsSimple s b input r × IsInTime s r }
    ensures fast { (s : Setting) (b : Before) (input : List ℕ) → CanOpen s b.memory → length input ≤ s.kept.input_len
        → IsPlanned s.kept (pair_of s b) → (r : RanJob) × RunsFast s b input r × IsInTime s r }
{}

/// However such a job has run, it has ended by its deadline, and the next one can open.
pub fn every_job_is_in_time()
    ensures simple { (s : Setting) (b : Before) (input : List ℕ) (r : RanJob) → CanOpen s b.memory
        → length input ≤ s.kept.input_len → RunsSimple s b input r → IsInTime s r }
    ensures fast { (s : Setting) (b : Before) (input : List ℕ) (r : RanJob) → CanOpen s b.memory
        → length input ≤ s.kept.input_len → IsPlanned s.kept (pair_of s b) → RunsFast s b input r → IsInTime s r }
{}

/// Whatever was counted, a job of a task that was admitted for fast mode is released at a pair of points that has a
/// plan.
pub fn every_pair_is_planned()
    ensures { (s : Setting) (b : Before) → IsRunnable Fast s → IsPlanned s.kept (pair_of s b) }
{}

/// An admitted task, on a memory on which its jobs can be released, can be run in the mode for which it was admitted.
pub fn an_admitted_task_runs()
    ensures { (mode : Mode) (t : TaskOf) (i : Given) (times : Times) (s : Setting) → KeepsLimits t
        → IsAdmitted mode t i times → IsReady t (code_of_image i) s.memory → s.kept ≡ kept_of t (entry_of t i) times
        → s.output_max ≡ t.out_max → IsRunnable mode s }
{}

/// A run of an admitted task, with inputs that fit its buffer, has all its jobs, however many, and each ends by its
/// deadline.
pub fn run_has_all()
    ensures jobs { (mode : Mode) (s : Setting) (inputs : ℕ → List ℕ) (n : ℕ) → IsRunnable mode s → AllFit s inputs
        → (jobs : List RanJob) × AreRun mode s inputs jobs × (length jobs ≡ n) }
    ensures in_time { (mode : Mode) (s : Setting) (inputs : ℕ → List ℕ) (jobs : List RanJob) → IsRunnable mode s
        → AllFit s inputs → AreRun mode s inputs jobs → AllByRecursion (IsInTime s) jobs }
{}

/// Whatever the mode, the operating points, the plans, the predictor and the counts: jobs that open alike leave the
/// same states, and end with the same answers.
pub fn modes_agree()
    ensures states { (mode other : Mode) (s o : Setting) (inputs : ℕ → List ℕ) (jobs others : List RanJob)
        → OpenAlike s o → AreRun mode s inputs jobs → AreRun other o inputs others → length jobs ≡ length others
        → states_of jobs ≡ states_of others }
    ensures answers { (mode other : Mode) (s o : Setting) (inputs : ℕ → List ℕ) (jobs others : List RanJob)
        → OpenAlike s o → AreRun mode s inputs jobs → AreRun other o inputs others → length jobs ≡ length others
        → answers_of jobs ≡ answers_of others }
{}

/// Some task can be run, in either mode.
pub fn some_task_runs()
    ensures { (mode : Mode) → (s : Setting) × (inputs : ℕ → List ℕ) × IsRunnable mode s × AllFit s inputs }
{}
