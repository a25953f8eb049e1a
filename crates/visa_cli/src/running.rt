// The jobs of a plan, one after the other.
ghost use Rattle.std.specs.Prelude.{◌≡◌, ◌+◌, ◌≤◌, [], IfOk, length};
ghost use Rattle.frequency_pick.specs.Counts.{StandsFor};
ghost use Rattle.mode_states.specs.Kept.{IsMadeOf};
ghost use Rattle.predictors.specs.Predicting.{numbers_of};
ghost use Rattle.job_runner.specs.Running.{HasRun};
ghost use Rattle.visa_cli.specs.Run.{builtin_predicts, told_counts};
ghost use Rattle.visa_cli.specs.Running.{ArePast, IsOpened, IsPlannedIn, IsRoomOf, MayRun, StandsFirst, plan_on};

use crate::plan::Plan;
use admission::{Admitted, Mode};
use job_runner::Runner;
use log_text::JobRecord;
use mips_ref::Memory;
use mode_states::Idle;
use predictors::Builtin;
use std::alloc::{AllocError, Global};
use task_text::{Jobs, LineRoom, Past, Task};

// Tells past counts to a runner that has none. Takes no memory.
fn tell_past(runner: &mut Runner, past: &[Past])
    requires none { StandsFor runner.old.history [] }
    requires subs { ArePast (length runner.old.idle.kept.cuts + 1) past.now }
    ensures idle { runner.new.idle ≡ runner.old.idle }
    ensures ran { runner.new.ran ≡ runner.old.ran }
    ensures counts { StandsFor runner.new.history (told_counts past.now) }
{
    for told in past {
        runner.past(told.sub as usize, told.cycles);
    }
}

// A runner of a task's jobs, the first of them on this memory, to which past counts are told.
fn open(
    alloc: Global,
    task: &Task,
    entry: u32,
    times: Admitted,
    memory: Memory,
    past: &[Past],
) -> Result<Runner, AllocError>
    requires made { IsMadeOf task.now entry times memory }
    requires past { ArePast (length task.now.cuts + 1) past.now }
    ensures { IfOk result (IsOpened task.now entry times memory past.now) }
{
    let idle = Idle::open(alloc, task, entry, times, memory)?;
    let mut runner = Runner::new(alloc, idle)?;
    tell_past(&mut runner, past);
    Ok(runner)
}

/// A plan whose jobs may begin. All memory that they and their lines take is taken.
#[derive(Drop)]
pub struct OpenPlan {
    pub mode: Mode,
    pub task: Task,
    pub jobs: Jobs,
    pub runner: Runner,
    pub room: LineRoom,
}

/// Opens a plan: takes all memory that its jobs and their lines take.
pub fn open_plan(alloc: Global, plan: Plan) -> Result<OpenPlan, AllocError>
    requires { MayRun plan }
    ensures plan { IfOk result (λ o. plan_on o.mode o.task o.jobs o.runner ≡ plan) }
    ensures stands { IfOk result (λ o. StandsFirst (plan_on o.mode o.task o.jobs o.runner) o.runner) }
    ensures room { IfOk result (λ o. IsRoomOf o.task o.room) }
{
    let Plan {
        mode,
        task,
        entry,
        memory,
        times,
        jobs,
    } = plan;
    let room = LineRoom::new(alloc, &task)?;
    let runner = open(alloc, &task, entry, times, memory, jobs.past.as_slice())?;
    Ok(OpenPlan {
        mode,
        task,
        jobs,
        runner,
        room,
    })
}

/// Runs the next job in a mode; in simple mode nothing is predicted. Takes no memory.
pub fn run_next(
    mode: Mode,
    runner: Runner,
    predictor: &mut Builtin,
    input: &[u8],
) -> (Runner, JobRecord)
    requires fits { length input.now ≤ runner.idle.kept.input_len }
    requires planned { IsPlannedIn mode runner.idle.kept }
    ensures { HasRun mode builtin_predicts runner (numbers_of predictor.old) input.now result.0 result.1
        (numbers_of predictor.new) }
{
    match mode {
        Mode::Simple => runner.job_simple(input),
        Mode::Fast => runner.job(predictor, input),
    }
}
