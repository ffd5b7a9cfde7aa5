//! Judging one file.
ghost use Rattle.std.specs.Prelude.{List, [], ◌∷◌};
ghost use Rattle.program.specs.Sources.{ReadsPaths};
ghost use Rattle.program.specs.Checks.{Checks};

use crate::fault::ProgramFault;
use crate::finishing::finish;
use crate::reading::read_file;
use crate::source::Source;
use batch::{Plan, Quiet, Status, report_verdict};
use std::alloc::Global;
use std::io::Write;
use std::sync::Wait;
use std::thread::Threads;
use wsyntax::MODULE_LIMIT;

/// Reads a module whole, judges it and writes its verdict line.
pub fn check_file<'a, R: Threads + Wait + Sync, S: Source, O: Write>(
    rt: &R,
    alloc: Global,
    path: &'a str,
    plan: Plan,
    source: &mut S,
    out: &mut O,
) -> Result<Status, ProgramFault<'a>>
    ensures check { Checks (S.holds source.old path.entry.now) (O.contents out.old) (O.contents out.new) result }
    ensures only { ReadsPaths (S.asked source.old) (S.asked source.new) (path.entry.now ∷ []) }
{
    let bytes = read_file(alloc, path, MODULE_LIMIT, source)?;
    let answered = report_verdict(rt, alloc, bytes.as_slice(), plan, &Quiet, out);
    finish(answered, out)
}
