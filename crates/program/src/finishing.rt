//! The last step of an answer: what was written is flushed.
ghost use Rattle.std.specs.Io.KnownBytes.{Keeps};
ghost use Rattle.program.specs.Endings.{EndsAs};
ghost use Rattle.program.specs.Prints.{Shows};

use crate::fault::ProgramFault;
use batch::{AnswerFault, Status, write_text};
use std::io::Write;

/// Flushes what was written of an answer, where it was written whole, and says how it ended.
pub fn finish<'a, O: Write>(
    answered: Result<Status, AnswerFault>,
    out: &mut O,
) -> Result<Status, ProgramFault<'a>>
    ensures ends { EndsAs answered result }
    ensures kept { Keeps (O.contents out.old) (O.contents out.new) }
{
    match answered {
        Ok(status) => match out.flush() {
            Ok(()) => Ok(status),
            Err(_) => Err(ProgramFault::Write),
        },
        Err(AnswerFault::Memory) => Err(ProgramFault::Memory),
        Err(AnswerFault::Write) => Err(ProgramFault::Write),
    }
}

/// Writes a text and flushes it: then the program ends with that status.
pub fn show<'a, O: Write>(
    text: &[u8],
    status: Status,
    out: &mut O,
) -> Result<Status, ProgramFault<'a>>
    ensures { Shows text.now status (O.contents out.old) (O.contents out.new) result }
{
    if write_text(out, text).is_err() || out.flush().is_err() {
        return Err(ProgramFault::Write);
    }
    Ok(status)
}
