// The lines of the code of an image.
ghost use Rattle.std.specs.Prelude.{◌≡◌, ◌≤◌, IfOk};
ghost use Rattle.visa_io.specs.ImageCode.{IsFilled, IsWhole, code_of_image};
ghost use Rattle.list_text.specs.Tables.{IsTableOf};
ghost use Rattle.visa_cli.specs.Running.{Lists};

use crate::report::report_memory;
use crate::status::Status;
use list_text::{SymbolLine, put_list, symbol_table};
use std::alloc::{AllocError, Global};
use task_text::{LineRoom, Task};
use visa_io::{Code, Image, Sink, code_of};

/// What the lines are put from: all memory that they take.
#[derive(Debug, Drop)]
struct Listing {
    table: Vec<SymbolLine>,
    code: Code,
    room: LineRoom,
}

impl Listing {
    // That of an image, in the room of its task's lines.
    fn new(alloc: Global, task: &Task, image: &Image) -> Result<Listing, AllocError>
        requires filled { IsFilled image.now }
        ensures table { IfOk result (λ l. IsTableOf image.now.symbols l.table.items) }
        ensures code { IfOk result (λ l. l.code ≡ code_of_image image.now) }
        ensures whole { IfOk result (λ l. IsWhole l.code) }
        ensures room { IfOk result (λ l. 67 ≤ l.room.room) }
    {
        let table = symbol_table(alloc, &image.symbols)?;
        let code = code_of(alloc, image)?;
        let room = LineRoom::new(alloc, task)?;
        Ok(Listing { table, code, room })
    }
}

/// Writes the code of a task's image. All memory is taken before the first line.
pub fn list_code<S: Sink>(alloc: Global, sink: &mut S, task: &Task, image: &Image) -> Status
    requires { IsFilled image.now }
    ensures { Lists image.now (S.taken sink.old) (S.taken sink.new) result }
{
    let Ok(listing) = Listing::new(alloc, task, image) else {
        return report_memory(sink);
    };
    let Listing {
        table,
        code,
        mut room,
    } = listing;
    match put_list(sink, &mut room, table.as_slice(), &code) {
        Ok(()) => Status::Done,
        Err(_) => Status::WriteFault,
    }
}
