// Laws of what a call asks for: they speak of the definitions alone.
ghost use Rattle.std.specs.Prelude.{◌≡◌, ◌≤◌, ℕ, List};
ghost use Rattle.std.specs.List.{AllByRecursion};
ghost use Rattle.admission.specs.declared.mode.Mode.{Mode as ModeOf};
ghost use Rattle.command_line.specs.declared.forms.PredictorKind.{PredictorKind as Kind};
ghost use Rattle.job_runner.specs.Job.{RanJob};
ghost use Rattle.visa_cli.specs.Product.{Found, IsProduct};
ghost use Rattle.visa_cli.specs.Reads.{FileRead};
ghost use Rattle.visa_cli.specs.Run.{AreRunOf, IsLog};
ghost use Rattle.visa_cli.specs.Stages.{plan};
ghost use Rattle.visa_cli.specs.declared.plan.Plan.{Plan as PlanOf};
ghost use Rattle.visa_cli.specs.declared.status.Status.{Status as StatusOf};

/// Words and files ask for one status and one text, want of memory aside.
pub fn one_product()
    ensures { (words : List (List ℕ)) (found : Found) (status another : StatusOf) (text other : List ℕ)
        → IsProduct words found status text → IsProduct words found another other → (status ≡ another) × (text ≡ other) }
{}

/// Every plan that files make has a log, in both modes and with each predictor.
pub fn plan_has_log()
    ensures { (mode : ModeOf) (predictor : Kind) (task_name jobs_name : List ℕ) (reads : List FileRead) (p : PlanOf)
        → (plan mode task_name jobs_name).Gives reads p → (lines : List (List ℕ)) × IsLog predictor p lines }
{}

/// Every job of such a plan ends by the deadline of its task.
pub fn in_time()
    ensures { (mode : ModeOf) (predictor : Kind) (task_name jobs_name : List ℕ) (reads : List FileRead) (p : PlanOf)
        (jobs : List RanJob) → (plan mode task_name jobs_name).Gives reads p → AreRunOf predictor p jobs
        → AllByRecursion (λ (r : RanJob). r.job.end_ps ≤ p.task.deadline_ps) jobs }
{}
