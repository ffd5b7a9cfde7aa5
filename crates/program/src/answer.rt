//! Running calls of one module.
ghost use Rattle.wstore.specs.CallLimits.{limits_of};
ghost use Rattle.program.specs.Reads.{ReadsInOrder};
ghost use Rattle.program.specs.Runs.{RunsOn};

use crate::fault::ProgramFault;
use crate::finishing::finish;
use crate::reading::read_file;
use crate::source::Source;
use batch::{Plan, Quiet, Settings, Status, answer};
use std::alloc::Global;
use std::io::Write;
use std::sync::Wait;
use std::thread::Threads;
use wsyntax::{CALLS_LIMIT, MODULE_LIMIT};

/// Reads a module whole, and then the calls, and writes the answer to both.
pub fn answer_files<'a, R: Threads + Wait + Sync, S: Source, O: Write>(
    rt: &R,
    alloc: Global,
    path: &'a str,
    calls: &'a str,
    settings: Settings,
    plan: Plan,
    source: &mut S,
    out: &mut O,
) -> Result<Status, ProgramFault<'a>>
    ensures answer { RunsOn (S.holds source.old path.entry.now) (S.holds source.old calls.entry.now) (limits_of settings)
        (O.contents out.old) (O.contents out.new) result }
    ensures order { ReadsInOrder path.entry.now calls.entry.now (S.asked source.old) (S.asked source.new) result }
{
    let bytes = read_file(alloc, path, MODULE_LIMIT, source)?;
    let text = read_file(alloc, calls, CALLS_LIMIT, source)?;
    let answered = answer(rt, alloc, &bytes, &text, settings, plan, &Quiet, out);
    finish(answered, out)
}
