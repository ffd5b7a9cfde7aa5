//! Listing what one file exports.
ghost use Rattle.std.specs.Prelude.{List, [], ◌∷◌};
ghost use Rattle.program.specs.Sources.{ReadsPaths};
ghost use Rattle.program.specs.Lists.{Lists, ShowsText};

use crate::fault::ProgramFault;
use crate::finishing::show;
use crate::reading::read_file;
use crate::source::Source;
use batch::{Status, verdict_line};
use explain::text_of_exports;
use std::alloc::{AllocError, Global};
use std::io::Write;
use verdict::judge_alone;
use wsyntax::MODULE_LIMIT;

/// The pages that the memory of a call may have where the words say none.
pub const PAGES: u32 = 256;

/// Writes a text, where there was memory for it, and flushes it.
pub fn show_text<'a, O: Write>(
    text: Result<String, AllocError>,
    status: Status,
    out: &mut O,
) -> Result<Status, ProgramFault<'a>>
    ensures { ShowsText text status (O.contents out.old) (O.contents out.new) result }
{
    match text {
        Ok(text) => show(text.as_bytes(), status, out),
        Err(_) => Err(ProgramFault::Memory),
    }
}

/// Reads a module whole, judges it on the calling thread, and writes what it exports, or its verdict line where it is refused.
pub fn list_file<'a, S: Source, O: Write>(
    alloc: Global,
    path: &'a str,
    source: &mut S,
    out: &mut O,
) -> Result<Status, ProgramFault<'a>>
    ensures listed { Lists (S.holds source.old path.entry.now) (O.contents out.old) (O.contents out.new) result }
    ensures only { ReadsPaths (S.asked source.old) (S.asked source.new) (path.entry.now ∷ []) }
{
    let bytes = read_file(alloc, path, MODULE_LIMIT, source)?;
    match judge_alone(alloc, bytes.as_slice()) {
        Ok(accepted) => {
            let text = text_of_exports(alloc, bytes.as_slice(), &accepted, PAGES);
            show_text(text, Status::Good, out)
        }
        Err(refusal) => {
            let line = verdict_line(alloc, Err(refusal));
            show_text(line, Status::ModuleRefused, out)
        }
    }
}
