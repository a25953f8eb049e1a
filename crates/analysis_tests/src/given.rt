//! Tasks, by the part of their text that a test is about.
ghost use Rattle.std.specs.Prelude.{IfSome};
ghost use Rattle.visa_io.specs.ImageCode.{IsFilled, code_of_image};
ghost use Rattle.flow_graph.specs.Code.{IsCode};
ghost use Rattle.task_text.specs.Limits.{KeepsLimits};

use admission::{Admitted, Refusal, admit};
use std::alloc::{AllocError, Global};
use task_layout::layout;
use task_text::{Task, read_task, words_image};
use visa_io::{Code, Image, code_of};

/// Where code begins, and where it is entered if a test doesn't say otherwise.
pub(crate) const ENTRY: u32 = 0x0040_0000;

/// A task without input.
pub(crate) const NO_INPUT: &str = "input 00000000 0\n";

// The text of a task at one point of 1 ns with much time: a miss and a store take ten cycles more, and there
// is no data cache.
pub(crate) fn text_with(
    alloc: Global,
    icache: &str,
    words: &str,
    entry: u32,
    memory: &str,
    rest: &str,
) -> Result<String, AllocError> {
    format!(in alloc;
        "visa-task 1\norder big\ncore 1 8 4 16\nmemory 10000 10000 0 0\nicache {icache}\ndcache none\npoint 1000\n\
         time 1000000000000 1000000000000\nwords 00400000 {words}\nentry {entry:08x}\n\
         stack 7fff0000\n{memory}output 16\n{rest}"
    )
}

/// The text of a task with these words from 00400000 on, this entry, and these lines of cuts, loops and facts.
pub(crate) fn text(
    alloc: Global,
    words: &str,
    entry: u32,
    rest: &str,
) -> Result<String, AllocError> {
    text_with(alloc, "none", words, entry, NO_INPUT, rest)
}

/// A task whose code stands in its text, its image, and the code of its image.
#[derive(Drop)]
pub(crate) struct Given {
    pub(crate) task: Task,
    pub(crate) image: Image,
    pub(crate) code: Code,
}

/// The task of a text; none where it isn't read or laid out.
pub(crate) fn task_of(alloc: Global, text: &str) -> Option<Given>
    ensures limits { IfSome result (λ g. KeepsLimits g.task) }
    ensures filled { IfSome result (λ g. IsFilled g.image) }
    ensures code { IfSome result (λ g. IsCode (code_of_image g.image)) }
    ensures own { IfSome result (λ g. IsCode g.code) }
{
    let Ok(task) = read_task(alloc, text.as_bytes()) else {
        return None;
    };
    let Ok(image) = words_image(alloc, &task) else {
        return None;
    };
    let Ok(_memory) = layout(alloc, &task, &image) else {
        return None;
    };
    let Ok(code) = code_of(alloc, &image) else {
        return None;
    };
    Some(Given { task, image, code })
}

// The bound of a sub-task at the slowest point; 0 where there is no such sub-task.
fn bound_or_zero(admitted: &Admitted, sub: usize) -> u64 {
    if sub < 1 || admitted.points() < 1 || admitted.bounds_at(0).len() < sub {
        return 0;
    }
    admitted.bound(0, sub)
}

/// The bounds of sub-tasks 1 and 2 of the task of a text at its slowest point, 0 where there is no second
/// one; or how the task is refused.
pub(crate) fn admission_of(alloc: Global, text: &str) -> Option<Result<[u64; 2], Refusal>> {
    let given = task_of(alloc, text)?;
    match admit(alloc, &given.task, &given.image) {
        Ok(admitted) => Some(Ok([bound_or_zero(&admitted, 1), bound_or_zero(&admitted, 2)])),
        Err(refusal) => Some(Err(refusal)),
    }
}
