//! Laws on texts: each has one answer, want of memory aside.
ghost use Rattle.std.specs.Prelude.{◌≡◌, ◌≢◌, ℕ, List};
ghost use Rattle.task_text.specs.JobsTexts.{IsJobs, IsRefusal as IsJobsRefusal};
ghost use Rattle.task_text.specs.Texts.{IsRefusal, IsTask};
ghost use Rattle.task_text.specs.declared.fault.JobsFault.{JobsFault};
ghost use Rattle.task_text.specs.declared.fault.JobsFault.TheVariants as jobs_fault;
ghost use Rattle.task_text.specs.declared.fault.TaskFault.{TaskFault};
ghost use Rattle.task_text.specs.declared.fault.TaskFault.TheVariants as task_fault;
ghost use Rattle.task_text.specs.declared.jobs.Jobs.{Jobs};
ghost use Rattle.task_text.specs.declared.task.Task.{Task};

/// A text gives one task, or has one refusal: its first line that no task continues, and the first test that it fails.
pub fn one_task()
    ensures tasks { (bytes : List ℕ) (a b : Task) → IsTask bytes a → IsTask bytes b → a ≡ b }
    ensures refusals { (bytes : List ℕ) (one other : TaskFault) → IsRefusal bytes one → IsRefusal bytes other
        → one ≢ task_fault.Memory → other ≢ task_fault.Memory → one ≡ other }
    ensures apart { (bytes : List ℕ) (t : Task) (fault : TaskFault) → IsTask bytes t → IsRefusal bytes fault
        → fault ≡ task_fault.Memory }
{}

/// A text gives one list of jobs of a task, or has one refusal: its first line that no jobs text of the task continues.
pub fn one_list_of_jobs()
    ensures jobs { (bytes : List ℕ) (t : Task) (a b : Jobs) → IsJobs bytes t a → IsJobs bytes t b → a ≡ b }
    ensures refusals { (bytes : List ℕ) (t : Task) (one other : JobsFault) → IsJobsRefusal bytes t one
        → IsJobsRefusal bytes t other → one ≢ jobs_fault.Memory → other ≢ jobs_fault.Memory → one ≡ other }
    ensures apart { (bytes : List ℕ) (t : Task) (jobs : Jobs) (fault : JobsFault) → IsJobs bytes t jobs
        → IsJobsRefusal bytes t fault → fault ≡ jobs_fault.Memory }
{}
