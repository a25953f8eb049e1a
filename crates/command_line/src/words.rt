// The words of the command line become a command.
ghost use Rattle.std.specs.Prelude.{IfOk, MatchOption, map};
ghost use Rattle.std.specs.String.{string_bytes};
ghost use Rattle.command_line.specs.Commands.{Asked, IsCommand, seen};

use crate::forms::Command;
use crate::parser::{command_found, parser, refused};
use std::alloc::{AllocError, Global};

/// The command that the words are, without the program's name; None where they are none. `clap` reads them.
///
/// # Errors
///
/// Memory ran out.
pub fn read_command<'a>(
    alloc: Global,
    words: &'a [String],
) -> Result<Option<Command<'a>>, AllocError>
    ensures { IfOk result (λ command. MatchOption command
        ((c : Asked) → ¬ (IsCommand (map string_bytes words.now) c))
        (λ c. IsCommand (map string_bytes words.now) (seen c))) }
{
    let parser = parser(alloc)?;
    match parser.try_get_matches_from(words) {
        Ok(matches) => Ok(command_found(&matches)),
        Err(error) => refused(error.kind()),
    }
}
