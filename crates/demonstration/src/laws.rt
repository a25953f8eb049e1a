//! Laws on the demonstration.
ghost use Rattle.demonstration.specs.Demonstration.{demo_input, demo_jobs, demo_task};
ghost use Rattle.std.specs.Prelude.{◌≡◌, ◌<◌, ℕ, [], length};
ghost use Rattle.task_text.specs.JobInputs.{AreInputsOf, input_of};
ghost use Rattle.task_text.specs.Limits.{KeepsLimits};
ghost use Rattle.task_text.specs.Texts.{IsGiven};

/// Some task text gives the task, which so keeps every limit.
pub fn the_task_is_given()
    ensures given { IsGiven demo_task }
    ensures limits { KeepsLimits demo_task }
{}

/// There are 200 jobs and no past lines. Each job has the input that is drawn for it, and fits the task's buffer.
pub fn each_job_has_its_input()
    ensures number { (seed : ℕ) → length (demo_jobs seed).inputs ≡ 200 }
    ensures past { (seed : ℕ) → (demo_jobs seed).past ≡ [] }
    ensures input { (seed k : ℕ) → k < 200 → input_of (demo_jobs seed) k ≡ demo_input seed k }
    ensures fits { (seed : ℕ) → AreInputsOf demo_task (demo_jobs seed) }
{}
