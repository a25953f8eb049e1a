// The log of a plan: its first line, and the lines of each job.
ghost use Rattle.std.specs.Prelude.{◌≡◌, []};
ghost use Rattle.predictors.specs.Predicting.{numbers_of};
ghost use Rattle.job_runner.specs.Run.{before};
ghost use Rattle.job_runner.specs.Running.{StandsAt};
ghost use Rattle.task_text.specs.Limits.{KeepsLimits};
ghost use Rattle.log_text.specs.Lines.{record_lines};
ghost use Rattle.visa_io.specs.Puts.{Puts};
ghost use Rattle.visa_cli.specs.Run.{IsLog, header_of as header_of_lem, predictor_of as predictor_of_lem, setting_of};
ghost use Rattle.visa_cli.specs.Running.{EndsPrinting, IsRoomOf, Logs, MayRun, plan_on};

use crate::plan::Plan;
use crate::predicting::predictor_of;
use crate::report::report_memory;
use crate::running::{OpenPlan, open_plan, run_next};
use crate::status::Status;
use admission::Mode;
use command_line::PredictorKind;
use job_runner::Runner;
use log_text::{JobRecord, RUN_HEADER, SIMPLE_HEADER, put_record};
use std::alloc::Global;
use task_text::{Jobs, LineRoom, Task};
use visa_io::{Sink, SinkFailed};

// The first line of a log.
fn header_of(mode: Mode) -> &'static [u8]
    ensures { result.now ≡ header_of_lem mode }
{
    match mode {
        Mode::Simple => SIMPLE_HEADER,
        Mode::Fast => RUN_HEADER,
    }
}

// Puts the lines of the job that a runner has run.
fn put_job<S: Sink>(
    sink: &mut S,
    room: &mut LineRoom,
    task: &Task,
    runner: &Runner,
    job: &JobRecord,
) -> Result<(), SinkFailed>
    requires limits { KeepsLimits task.now }
    requires output { runner.now.idle.state.mips.output_max ≡ task.now.out_max }
    requires room { IsRoomOf task.now room.old }
    ensures puts { Puts (S.taken sink.old) (S.taken sink.new)
        (record_lines job.now runner.now.idle.counts runner.now.idle.state.mips task.now.show) result }
    ensures room { IsRoomOf task.now room.new }
{
    put_record(
        sink,
        room,
        job,
        runner.counts(),
        runner.state(),
        task.show.as_slice(),
    )
}

// Runs the jobs and puts their lines behind the first line.
fn log_jobs<S: Sink>(
    sink: &mut S,
    room: &mut LineRoom,
    mode: Mode,
    kind: PredictorKind,
    task: &Task,
    jobs: &Jobs,
    runner: Runner,
) -> Result<(), SinkFailed>
    requires runnable { MayRun (plan_on mode task.now jobs.now runner) }
    requires stands { StandsAt (setting_of kind (plan_on mode task.now jobs.now runner))
        (before (setting_of kind (plan_on mode task.now jobs.now runner)) []) runner
        (numbers_of (predictor_of_lem kind)) }
    requires room { IsRoomOf task.now room.old }
    ensures { Logs kind (plan_on mode task.now jobs.now runner) (S.taken sink.old) (S.taken sink.new) result }
{
    match sink.put(header_of(mode)) {
        Ok(()) => (),
        Err(failed) => return Err(failed),
    }
    let mut predictor = predictor_of(kind);
    let mut resting = runner;
    for done in 0..jobs.inputs.len() {
        let (next, job) = run_next(mode, resting, &mut predictor, jobs.input(done));
        resting = next;
        match put_job(sink, room, task, &resting, &job) {
            Ok(()) => (),
            Err(failed) => return Err(failed),
        }
    }
    Ok(())
}

/// Runs the jobs of a plan with a predictor and writes their log. All memory is taken before the first line.
pub fn finish<S: Sink>(alloc: Global, sink: &mut S, kind: PredictorKind, plan: Plan) -> Status
    requires { MayRun plan }
    ensures { EndsPrinting (IsLog kind) plan (S.taken sink.old) (S.taken sink.new) result }
{
    let Ok(opened) = open_plan(alloc, plan) else {
        return report_memory(sink);
    };
    let OpenPlan {
        mode,
        task,
        jobs,
        runner,
        mut room,
    } = opened;
    match log_jobs(sink, &mut room, mode, kind, &task, &jobs, runner) {
        Ok(()) => Status::Done,
        Err(_) => Status::WriteFault,
    }
}
