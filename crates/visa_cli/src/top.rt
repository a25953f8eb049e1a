// The top call.
ghost use Rattle.std.specs.Prelude.{map};
ghost use Rattle.std.specs.String.{string_bytes};
ghost use Rattle.admission.specs.declared.mode.Mode.TheVariants.{Fast as FastMode};
ghost use Rattle.command_line.specs.Commands.{seen};
ghost use Rattle.visa_cli.specs.Clauses.{Does, KeepsProduct, KeepsMemoryPrefix, KeepsFaultCauses, KeepsDeadline, KeepsUntold, IsComplete};
ghost use Rattle.visa_cli.specs.Check.{IsCheck};
ghost use Rattle.visa_cli.specs.Demo.{IsDemo};
ghost use Rattle.visa_cli.specs.Listing.{IsListing};
ghost use Rattle.visa_cli.specs.Product.{Asks, Ends, WordsAsk};
ghost use Rattle.visa_cli.specs.Run.{IsLog};
ghost use Rattle.visa_cli.specs.Stages.{admission, demo, listing, plan};

use crate::checking::tell;
use crate::demonstrating::{demo_plan, sum_up};
use crate::listing::list_code;
use crate::logging::finish;
use crate::report::{report, report_memory, report_usage};
use crate::stages::{admitted_named, image_of_task, plan_named, task_named};
use crate::status::Status;
use admission::Mode;
use command_line::{Command, PredictorKind, read_command};
use std::alloc::Global;
use visa_io::{Files, Sink};

// `simple TASK JOBS` and `run TASK JOBS`: runs the jobs in a mode, with a predictor.
fn run<F: Files, S: Sink>(
    alloc: Global,
    mode: Mode,
    predictor: PredictorKind,
    files: &mut F,
    sink: &mut S,
    task_name: &str,
    jobs_name: &str,
) -> Status
    ensures { Does (Ends (plan mode task_name.now jobs_name.now) (IsLog predictor))
        (F.seen files.old) (F.seen files.new) (S.taken sink.old) (S.taken sink.new) result }
{
    match plan_named(alloc, mode, files, task_name, jobs_name) {
        Ok(plan) => finish(alloc, sink, predictor, plan),
        Err(status) => report(alloc, sink, status),
    }
}

// `check TASK`.
fn check<F: Files, S: Sink>(alloc: Global, files: &mut F, sink: &mut S, task_name: &str) -> Status
    ensures { Does (Ends (admission FastMode task_name.now) IsCheck) (F.seen files.old) (F.seen files.new)
        (S.taken sink.old) (S.taken sink.new) result }
{
    match admitted_named(alloc, Mode::Fast, files, task_name) {
        Ok(admitted) => tell(alloc, sink, &admitted),
        Err(status) => report(alloc, sink, status),
    }
}

// `list TASK`.
fn list<F: Files, S: Sink>(alloc: Global, files: &mut F, sink: &mut S, task_name: &str) -> Status
    ensures { Does (Ends (listing task_name.now) IsListing) (F.seen files.old) (F.seen files.new)
        (S.taken sink.old) (S.taken sink.new) result }
{
    let task = match task_named(alloc, files, task_name) {
        Ok(task) => task,
        Err(refusal) => return report(alloc, sink, refusal),
    };
    match image_of_task(alloc, files, &task) {
        Ok(image) => list_code(alloc, sink, &task, &image),
        Err(status) => report(alloc, sink, status),
    }
}

// `demo N`: runs the jobs of the demonstration for a seed.
fn demonstrate<F: Files, S: Sink>(alloc: Global, files: &mut F, sink: &mut S, seed: u32) -> Status
    ensures { Does (Ends (demo seed) (IsDemo seed)) (F.seen files.old) (F.seen files.new)
        (S.taken sink.old) (S.taken sink.new) result }
{
    match demo_plan(alloc, files, seed) {
        Ok(plan) => sum_up(alloc, sink, seed, plan),
        Err(status) => report(alloc, sink, status),
    }
}

// Performs a command.
#[tactic(auto, unfolding(crate::specs::Product::Asks))]
fn perform<F: Files, S: Sink>(
    alloc: Global,
    files: &mut F,
    sink: &mut S,
    command: Command<'_>,
) -> Status
    ensures { Does (Asks (seen command.entry)) (F.seen files.old) (F.seen files.new)
        (S.taken sink.old) (S.taken sink.new) result }
{
    match command {
        Command::Simple { task, jobs } => run(
            alloc,
            Mode::Simple,
            PredictorKind::Static,
            files,
            sink,
            task,
            jobs,
        ),
        Command::Check { task } => check(alloc, files, sink, task),
        Command::Run {
            task,
            jobs,
            predictor,
        } => run(alloc, Mode::Fast, predictor, files, sink, task, jobs),
        Command::List { task } => list(alloc, files, sink, task),
        Command::Demo { seed } => demonstrate(alloc, files, sink, seed),
    }
}

/// Does what the words ask for: reads the files that they name, writes the log or one line to the sink, and answers how
/// it ended. `words` are those of the command line without the program's name.
pub fn visa<F: Files, S: Sink>(
    alloc: Global,
    words: &[String],
    files: &mut F,
    sink: &mut S,
) -> Status
    // The status and the text are those that the call asks for.
    ensures product { KeepsProduct (map string_bytes words.now) (F.seen files.old) (F.seen files.new)
        (S.taken sink.old) (S.taken sink.new) result }

    // Want of memory leaves its line alone.
    ensures memory_prefix { KeepsMemoryPrefix (S.taken sink.old) (S.taken sink.new) result }

    // Each fault has its status, and each status of a fault has its fault.
    ensures fault_causes { KeepsFaultCauses (map string_bytes words.now) (F.seen files.old) (F.seen files.new)
        (S.taken sink.old) (S.taken sink.new) result }

    // Each job that is logged is the reference's, ended by its deadline, and left fast mode only where a checkpoint was
    // missed. A check and a list log none.
    ensures headline { KeepsDeadline (map string_bytes words.now) (F.seen files.old)
        (S.taken sink.old) (S.taken sink.new) }

    // What holds where nothing is told: the reads that were made, and that the status and the lines are those that they
    // ask for.
    ensures untold { KeepsUntold (map string_bytes words.now) (F.seen files.old) (F.seen files.new)
        (S.taken sink.old) (S.taken sink.new) result }

    // Where all is there and no fault comes, all lines are written.
    ensures complete { IsComplete (map string_bytes words.now) (F.seen files.old) (F.seen files.new)
        (S.taken sink.old) (S.taken sink.new) result }
{
    does(alloc, words, files, sink)
}

fn does<F: Files, S: Sink>(alloc: Global, words: &[String], files: &mut F, sink: &mut S) -> Status
    ensures { Does (WordsAsk (map string_bytes words.now)) (F.seen files.old) (F.seen files.new)
        (S.taken sink.old) (S.taken sink.new) result }
{
    let Ok(read) = read_command(alloc, words) else {
        return report_memory(sink);
    };
    match read {
        Some(command) => perform(alloc, files, sink, command),
        None => report_usage(sink),
    }
}
