// What the program decides beside the top call.
ghost use Rattle.std.specs.Prelude.{◌≡◌, drop};
ghost use Rattle.visa_cli.specs.Clauses.{ProgramDoes};

use crate::report::report_usage;
use crate::status::Status;
use crate::top::visa;
use std::alloc::Global;
use visa_io::{Files, Sink};

/// Why the arguments of the program can't be had.
#[derive(Clone, Copy, Debug, PartialEq, Eq)]
pub enum ArgumentsFault {
    /// One of them is no text.
    NotText,
    /// Memory ran out.
    Memory,
}

// The arguments behind the program's own name.
fn behind_name(arguments: &[String]) -> &[String]
    ensures { result.now ≡ drop 1 arguments.now }
{
    match arguments {
        [] => &[],
        [_, words @ ..] => words,
    }
}

/// Runs the program on its arguments, the first of which is its own name, and answers its exit status. Without memory
/// for the arguments nothing is printed, and the status is 8; an argument that is no text is answered by the usage
/// line, and 1.
#[tactic(auto, unfolding(crate::specs::Clauses::ProgramDoes))]
pub fn run_program<F: Files, S: Sink>(
    alloc: Global,
    arguments: Result<Vec<String>, ArgumentsFault>,
    files: &mut F,
    sink: &mut S,
) -> u8
    ensures { ProgramDoes arguments (F.seen files.old) (F.seen files.new) (S.taken sink.old) (S.taken sink.new) result }
{
    match arguments {
        Ok(arguments) => visa(alloc, behind_name(&arguments), files, sink).number(),
        Err(ArgumentsFault::NotText) => report_usage(sink).number(),
        Err(ArgumentsFault::Memory) => Status::Memory.number(),
    }
}
