// The stages that commands go through: each reads what it needs, and stops the call with the status of its first fault.
ghost use Rattle.std.specs.Prelude.{◌≡◌, ◌+◌, [], IfOk, length};
ghost use Rattle.visa_io.specs.ImageCode.{IsFilled, code_of_image};
ghost use Rattle.flow_graph.specs.Code.{IsCode};
ghost use Rattle.task_text.specs.JobInputs.{AreInputsOf};
ghost use Rattle.task_text.specs.Limits.{KeepsLimits};
ghost use Rattle.visa_cli.specs.Admission.{IsFit};
ghost use Rattle.visa_cli.specs.Running.{ArePast, MayRun};
ghost use Rattle.visa_cli.specs.Stage.{Outcome, Ran, still};
ghost use Rattle.visa_cli.specs.Stages.{JobsAnswer, PlanAnswer, TaskAnswer, admission, admitted, elf_status as elf_status_lem, file, image_from, jobs, jobs_status as jobs_status_lem, laid_out, plan, task, task_status as task_status_lem};
ghost use Rattle.mips_elf.specs.Images.{IsAnswer};
ghost use Rattle.task_text.specs.declared.task.Source.TheVariants.{Name};

use crate::admit::{AdmittedTask, admit_on};
use crate::faults::{
    elf_status, file_status, jobs_status, layout_status, refusal_status, task_status,
};
use crate::plan::Plan;
use crate::status::{Role, Status};
use admission::Mode;
use laid_code::laws::items_are_bytes;
use mips_elf::read_elf;
use mips_ref::Memory;
use std::alloc::Global;
use task_layout::layout;
use task_text::{Jobs, Task, read_jobs, read_task, words_image};
use visa_io::{Files, Image, List};

/// No file has more bytes than this.
pub const LONGEST_FILE: u64 = 8388608;

/// The bytes of the file of a role.
fn read_file<F: Files>(
    alloc: Global,
    files: &mut F,
    role: Role,
    name: &str,
) -> Result<List<u8>, Status>
    ensures { Ran (file role name.now) (F.seen files.old) (F.seen files.new) result }
{
    match files.read(alloc, name, LONGEST_FILE) {
        Ok(bytes) => Ok(bytes),
        Err(fault) => Err(file_status(role, fault)),
    }
}

// The task of a text.
fn task_of(alloc: Global, bytes: &[u8]) -> Result<Task, Status>
    ensures outcome { Outcome (still (TaskAnswer bytes.now) task_status_lem) [] result }
    ensures limits { IfOk result KeepsLimits }
{
    match read_task(alloc, bytes) {
        Ok(task) => Ok(task),
        Err(fault) => Err(task_status(fault)),
    }
}

/// The task of the text of a file.
pub fn task_named<F: Files>(alloc: Global, files: &mut F, name: &str) -> Result<Task, Status>
    ensures ran { Ran (task name.now) (F.seen files.old) (F.seen files.new) result }
    ensures limits { IfOk result KeepsLimits }
{
    match read_file(alloc, files, Role::Task, name) {
        Ok(bytes) => task_of(alloc, bytes.as_slice()),
        Err(status) => Err(status),
    }
}

// The image of a file's bytes.
fn image_of(alloc: Global, bytes: &[u8]) -> Result<Image, Status>
    ensures outcome { Outcome (still (IsAnswer bytes.now) elf_status_lem) [] result }
    ensures filled { IfOk result IsFilled }
{
    match read_elf(alloc, bytes) {
        Ok(image) => Ok(image),
        Err(fault) => Err(elf_status(fault)),
    }
}

// The image of the file of a name.
fn named_image<F: Files>(
    alloc: Global,
    files: &mut F,
    task: &Task,
    name: &str,
) -> Result<Image, Status>
    ensures ran { Ran (image_from task.now (Name name.now)) (F.seen files.old) (F.seen files.new) result }
    ensures filled { IfOk result IsFilled }
{
    match read_file(alloc, files, Role::Image, name) {
        Ok(bytes) => image_of(alloc, bytes.as_slice()),
        Err(status) => Err(status),
    }
}

/// The image of a task: that of its words, or that of the file that it names.
pub fn image_of_task<F: Files>(alloc: Global, files: &mut F, task: &Task) -> Result<Image, Status>
    requires { KeepsLimits task.now }
    ensures ran { Ran (image_from task.now task.now.image) (F.seen files.old) (F.seen files.new) result }
    ensures filled { IfOk result IsFilled }
{
    match task.image_name() {
        Some(name) => named_image(alloc, files, task, name),
        None => match words_image(alloc, task) {
            Ok(image) => Ok(image),
            Err(_) => Err(Status::Memory),
        },
    }
}

// The memory that a task is given with its image.
fn lay_out(alloc: Global, task: &Task, image: &Image) -> Result<Memory, Status>
    requires filled { IsFilled image.now }
    ensures outcome { Outcome (laid_out task.now image.now) [] result }
    ensures code { IfOk result (λ memory. IsCode (code_of_image image.now)) }
{
    items_are_bytes(image.bytes.as_slice());
    let _input_at = task.input_at;
    match layout(alloc, task, image) {
        Ok(memory) => Ok(memory),
        Err(fault) => Err(layout_status(fault)),
    }
}

/// A task with its image, laid out and admitted for a mode.
pub fn admit(alloc: Global, mode: Mode, task: Task, image: &Image) -> Result<AdmittedTask, Status>
    requires limits { KeepsLimits task }
    requires filled { IsFilled image.now }
    ensures outcome { Outcome (admitted mode task image.now) [] result }
    ensures fit { IfOk result (IsFit mode) }
{
    let memory = match lay_out(alloc, &task, image) {
        Ok(memory) => memory,
        Err(status) => return Err(status),
    };
    match admit_on(alloc, mode, task, image, memory) {
        Ok(admitted) => Ok(admitted),
        Err(refusal) => Err(refusal_status(refusal)),
    }
}

/// The task of a file, read with its image and admitted for a mode.
pub fn admitted_named<F: Files>(
    alloc: Global,
    mode: Mode,
    files: &mut F,
    name: &str,
) -> Result<AdmittedTask, Status>
    ensures ran { Ran (admission mode name.now) (F.seen files.old) (F.seen files.new) result }
    ensures fit { IfOk result (IsFit mode) }
{
    let task = match task_named(alloc, files, name) {
        Ok(task) => task,
        Err(status) => return Err(status),
    };
    match image_of_task(alloc, files, &task) {
        Ok(image) => admit(alloc, mode, task, &image),
        Err(status) => Err(status),
    }
}

// The jobs of a text.
fn jobs_of(alloc: Global, bytes: &[u8], task: &Task) -> Result<Jobs, Status>
    ensures outcome { Outcome (still (JobsAnswer bytes.now task.now) jobs_status_lem) [] result }
    ensures inputs { IfOk result (AreInputsOf task.now) }
    ensures past { IfOk result (λ jobs. ArePast (length task.now.cuts + 1) jobs.past) }
{
    match read_jobs(alloc, bytes, task) {
        Ok(jobs) => Ok(jobs),
        Err(fault) => Err(jobs_status(fault)),
    }
}

/// The jobs of the text of a file, for a task.
pub fn jobs_named<F: Files>(
    alloc: Global,
    files: &mut F,
    name: &str,
    task: &Task,
) -> Result<Jobs, Status>
    ensures ran { Ran (jobs name.now task.now) (F.seen files.old) (F.seen files.new) result }
    ensures inputs { IfOk result (AreInputsOf task.now) }
    ensures past { IfOk result (λ jobs. ArePast (length task.now.cuts + 1) jobs.past) }
{
    match read_file(alloc, files, Role::Jobs, name) {
        Ok(bytes) => jobs_of(alloc, bytes.as_slice(), task),
        Err(status) => Err(status),
    }
}

/// A plan of an admitted task and jobs of it.
pub fn plan_of(mode: Mode, admitted: AdmittedTask, jobs: Jobs) -> Plan
    requires fit { IsFit mode admitted }
    requires inputs { AreInputsOf admitted.task jobs }
    requires past { ArePast (length admitted.task.cuts + 1) jobs.past }
    ensures answer { PlanAnswer mode admitted jobs (Ok result) }
    ensures runnable { MayRun result }
{
    let AdmittedTask {
        task,
        entry,
        memory,
        times,
    } = admitted;
    Plan {
        mode,
        task,
        entry,
        memory,
        times,
        jobs,
    }
}

/// A task that is admitted for a mode and its jobs, from the files of these names.
pub fn plan_named<F: Files>(
    alloc: Global,
    mode: Mode,
    files: &mut F,
    task_name: &str,
    jobs_name: &str,
) -> Result<Plan, Status>
    ensures ran { Ran (plan mode task_name.now jobs_name.now) (F.seen files.old) (F.seen files.new) result }
    ensures runnable { IfOk result MayRun }
{
    let admitted = match admitted_named(alloc, mode, files, task_name) {
        Ok(admitted) => admitted,
        Err(refusal) => return Err(refusal),
    };
    match jobs_named(alloc, files, jobs_name, &admitted.task) {
        Ok(jobs) => Ok(plan_of(mode, admitted, jobs)),
        Err(status) => Err(status),
    }
}
