// The demonstration: its task and its jobs, which no file holds, and what they come to.
ghost use Rattle.std.specs.Prelude.{◌≡◌, ◌<◌, ◌≤◌, ◌%◌, ◌^◌, [], IfOk};
ghost use Rattle.std.specs.List.{sum};
ghost use Rattle.admission.specs.declared.mode.Mode.TheVariants.{Fast as FastMode};
ghost use Rattle.command_line.specs.declared.forms.PredictorKind.TheVariants.{Static as StaticKind};
ghost use Rattle.demonstration.specs.Demonstration.{demo_task as demo_task_lem};
ghost use Rattle.job_runner.specs.Run.{before};
ghost use Rattle.job_runner.specs.Running.{StandsAt};
ghost use Rattle.predictors.specs.Predicting.{numbers_of};
ghost use Rattle.visa_cli.specs.Admission.{IsFit};
ghost use Rattle.visa_cli.specs.Demo.{IsDemo, is_fast as is_fast_lem, is_missed as is_missed_lem, one_if as one_if_lem};
ghost use Rattle.visa_cli.specs.Run.{predictor_of as predictor_of_lem, setting_of};
ghost use Rattle.visa_cli.specs.Running.{EndsPrinting, HasSummary, MayRun, plan_on, with_job as with_job_lem};
ghost use Rattle.visa_cli.specs.Stage.{Ran};
ghost use Rattle.visa_cli.specs.Stages.{demo, demo_admission};

use crate::admit::AdmittedTask;
use crate::plan::Plan;
use crate::predicting::predictor_of;
use crate::report::report_memory;
use crate::running::{OpenPlan, open_plan, run_next};
use crate::stages::{admit, image_of_task, plan_of};
use crate::status::Status;
use admission::Mode;
use command_line::PredictorKind;
use demonstration::laws::each_job_has_its_input;
use demonstration::{demo_jobs, demo_task};
use job_runner::Runner;
use log_text::{JobMode, JobRecord, Summary, put_summary};
use std::alloc::Global;
use task_text::{Jobs, Task};
use visa_io::{Files, Sink};

// The demonstration's task, admitted for fast mode.
fn demo_admitted<F: Files>(alloc: Global, files: &mut F) -> Result<AdmittedTask, Status>
    ensures ran { Ran demo_admission (F.seen files.old) (F.seen files.new) result }
    ensures fit { IfOk result (IsFit FastMode) }
    ensures task { IfOk result (λ a. a.task ≡ demo_task_lem) }
{
    let Ok(task) = demo_task(alloc) else {
        return Err(Status::Memory);
    };
    match image_of_task(alloc, files, &task) {
        Ok(image) => admit(alloc, Mode::Fast, task, &image),
        Err(status) => Err(status),
    }
}

/// The demonstration's task, admitted for fast mode, and its jobs for a seed. No file is read.
pub fn demo_plan<F: Files>(alloc: Global, files: &mut F, seed: u32) -> Result<Plan, Status>
    ensures ran { Ran (demo seed) (F.seen files.old) (F.seen files.new) result }
    ensures runnable { IfOk result MayRun }
{
    each_job_has_its_input();
    let admitted = match demo_admitted(alloc, files) {
        Ok(admitted) => admitted,
        Err(refusal) => return Err(refusal),
    };
    match demo_jobs(alloc, seed) {
        Ok(jobs) => Ok(plan_of(Mode::Fast, admitted, jobs)),
        Err(_) => Err(Status::Memory),
    }
}

fn is_fast(mode: JobMode) -> bool
    ensures { result ≡ is_fast_lem mode }
{
    match mode {
        JobMode::Fast { pair: _ } => true,
        _ => false,
    }
}

fn is_missed(mode: JobMode) -> bool
    ensures { result ≡ is_missed_lem mode }
{
    match mode {
        JobMode::Missed {
            sub: _,
            pair: _,
            at: _,
            switch_ps: _,
        } => true,
        _ => false,
    }
}

fn one_if(yes: bool) -> u64
    ensures { result ≡ one_if_lem yes }
{
    if yes { 1 } else { 0 }
}

// The sum of words, modulo 2^32.
fn sum_of(words: &[u32]) -> u32
    ensures { result ≡ sum words.now % 2 ^ 32 }
{
    let mut total: u32 = 0;
    for word in words {
        total = total.wrapping_add(*word);
    }
    total
}

// What jobs come to with one job more, which put out these words.
fn with_job(so_far: Summary, job: &JobRecord, output: &[u32]) -> Summary
    requires jobs { so_far.jobs < 2 ^ 32 }
    requires fast { so_far.fast ≤ so_far.jobs }
    requires missed { so_far.missed ≤ so_far.jobs }
    ensures { result ≡ with_job_lem so_far job.now output.now }
{
    Summary {
        seed: so_far.seed,
        jobs: so_far.jobs + 1,
        fast: so_far.fast + one_if(is_fast(job.mode)),
        missed: so_far.missed + one_if(is_missed(job.mode)),
        latest_ps: so_far.latest_ps.max(job.end_ps),
        sum: so_far.sum.wrapping_add(sum_of(output)),
    }
}

// Runs all jobs of a plan, and sums them up. Takes no memory.
fn run_all(seed: u32, mode: Mode, _task: &Task, jobs: &Jobs, runner: Runner) -> Summary
    requires runnable { MayRun (plan_on mode _task.now jobs.now runner) }
    requires stands { StandsAt (setting_of StaticKind (plan_on mode _task.now jobs.now runner))
        (before (setting_of StaticKind (plan_on mode _task.now jobs.now runner)) []) runner
        (numbers_of (predictor_of_lem StaticKind)) }
    ensures { HasSummary seed (plan_on mode _task.now jobs.now runner) result }
{
    let mut predictor = predictor_of(PredictorKind::Static);
    let mut resting = runner;
    let mut summary = Summary {
        seed,
        jobs: 0,
        fast: 0,
        missed: 0,
        latest_ps: 0,
        sum: 0,
    };
    for done in 0..jobs.inputs.len() {
        let (next, job) = run_next(mode, resting, &mut predictor, jobs.input(done));
        resting = next;
        summary = with_job(summary, &job, resting.state().output());
    }
    summary
}

/// Runs the jobs of the demonstration's plan and writes what they come to. All memory is taken before the first job.
pub fn sum_up<S: Sink>(alloc: Global, sink: &mut S, seed: u32, plan: Plan) -> Status
    requires { MayRun plan }
    ensures { EndsPrinting (IsDemo seed) plan (S.taken sink.old) (S.taken sink.new) result }
{
    let Ok(opened) = open_plan(alloc, plan) else {
        return report_memory(sink);
    };
    let OpenPlan {
        mode,
        task,
        jobs,
        runner,
        mut room,
    } = opened;
    let summary = run_all(seed, mode, &task, &jobs, runner);
    match put_summary(sink, &mut room, &summary) {
        Ok(()) => Status::Done,
        Err(_) => Status::WriteFault,
    }
}
