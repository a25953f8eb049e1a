// The admission of a task that is laid out.
ghost use Rattle.std.specs.Prelude.{◌≡◌};
ghost use Rattle.visa_io.specs.ImageCode.{IsFilled, code_of_image};
ghost use Rattle.flow_graph.specs.Code.{IsCode};
ghost use Rattle.task_text.specs.Limits.{KeepsLimits};
ghost use Rattle.admission.specs.Refused.{Admits};
ghost use Rattle.visa_cli.specs.Admission.{AdmitsOn};

use admission::{Admitted, Mode, Refusal, admit, admit_simple};
use mips_ref::Memory;
use std::alloc::Global;
use task_text::Task;
use visa_io::Image;

/// A task that is admitted: its jobs begin at the entry, the first of them on this memory.
#[derive(Debug, Drop)]
pub struct AdmittedTask {
    pub task: Task,
    pub entry: u32,
    pub memory: Memory,
    /// The bounds of its sub-tasks at each operating point, and the plans of the pairs of points.
    pub times: Admitted,
}

// What comes of a task and its image in a mode.
fn decide(alloc: Global, mode: Mode, task: &Task, image: &Image) -> Result<Admitted, Refusal>
    requires limits { KeepsLimits task.now }
    requires filled { IsFilled image.now }
    requires code { IsCode (code_of_image image.now) }
    ensures { Admits mode task.now image.now result }
{
    match mode {
        Mode::Simple => admit_simple(alloc, task, image),
        Mode::Fast => admit(alloc, task, image),
    }
}

/// A task, with its image and the memory of both, is admitted where its analysis passes in the mode.
pub fn admit_on(
    alloc: Global,
    mode: Mode,
    task: Task,
    image: &Image,
    memory: Memory,
) -> Result<AdmittedTask, Refusal>
    requires limits { KeepsLimits task }
    requires filled { IsFilled image.now }
    requires code { IsCode (code_of_image image.now) }
    ensures { AdmitsOn mode task image.now memory result }
{
    let entry = task.entry.unwrap_or(image.entry);
    match decide(alloc, mode, &task, image) {
        Ok(times) => Ok(AdmittedTask {
            task,
            entry,
            memory,
            times,
        }),
        Err(refusal) => Err(refusal),
    }
}
