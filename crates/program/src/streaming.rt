//! Answering calls of one module while they are read.
ghost use Rattle.std.specs.Prelude.{◌≡◌, List, [], ◌∷◌, Some, IfErr, IfOk, IfSome};
ghost use Rattle.wstore.specs.CallLimits.{limits_of};
ghost use Rattle.program.specs.Reads.{IsWant};
ghost use Rattle.program.specs.Sources.{ReadsPaths};
ghost use Rattle.program.specs.Streams.{EndsStream, ReadsAccepted, StreamsOn};

use crate::fault::ProgramFault;
use crate::listing::show_text;
use crate::reading::read_file;
use crate::source::{ReadFault, Reason, Source};
use batch::{Plan, Quiet, Settings, Status, StreamFault, stream, verdict_line};
use std::alloc::Global;
use std::io::Write;
use std::sync::Wait;
use std::thread::Threads;
use verdict::judge;
use wsyntax::MODULE_LIMIT;

/// How the program ends by the end of a stream of the calls at a path.
fn end_of(streamed: Result<Status, StreamFault>, path: &str) -> Result<Status, ProgramFault<'_>>
    ensures { EndsStream path.entry.now streamed result }
{
    match streamed {
        Ok(status) => Ok(status),
        Err(StreamFault::Read) => Err(ProgramFault::Unread {
            path,
            reason: Reason::Failed,
        }),
        Err(StreamFault::Write) => Err(ProgramFault::Write),
        Err(StreamFault::Memory) => Err(ProgramFault::Memory),
    }
}

/// Opens a path, or says why the program ends without it.
fn open_file<'a, S: Source>(path: &'a str, source: &mut S) -> Result<S::File, ProgramFault<'a>>
    ensures known { IfOk result (λ file. IfSome (S.holds source.old path.entry.now) (λ held. S.File.remaining file ≡ Some held)) }
    ensures fault { IfErr result (IsWant path.entry.now) }
    ensures logged { ReadsPaths (S.asked source.old) (S.asked source.new) (path.entry.now ∷ []) }
{
    match source.open(path) {
        Ok(file) => Ok(file),
        Err(ReadFault::Unreadable(reason)) => Err(ProgramFault::Unread { path, reason }),
        Err(ReadFault::Memory) => Err(ProgramFault::Memory),
    }
}

/// Reads a module whole and judges it on all workers. Where it is refused, its verdict line is written, and the calls are not
/// asked for; else these are answered while they are read. A stop by a signal leaves what was written: rounds of whole lines.
pub fn stream_files<'a, R: Threads + Wait + Sync, S: Source, O: Write>(
    rt: &R,
    alloc: Global,
    path: &'a str,
    calls: &'a str,
    settings: Settings,
    plan: Plan,
    source: &mut S,
    out: &mut O,
) -> Result<Status, ProgramFault<'a>>
    ensures streamed { StreamsOn (S.holds source.old path.entry.now) (S.holds source.old calls.entry.now) (limits_of settings)
        (O.contents out.old) (O.contents out.new) result }
    ensures order { ReadsAccepted (S.holds source.old path.entry.now) path.entry.now calls.entry.now
        (S.asked source.old) (S.asked source.new) result }
{
    let bytes = read_file(alloc, path, MODULE_LIMIT, source)?;
    match judge(rt, alloc, bytes.as_slice(), plan, &Quiet) {
        Ok(accepted) => {
            let mut file = open_file(calls, source)?;
            let streamed = stream(rt, alloc, &accepted, &mut file, settings, plan, out);
            end_of(streamed, calls)
        }
        Err(refusal) => {
            let line = verdict_line(alloc, Err(refusal));
            show_text(line, Status::ModuleRefused, out)
        }
    }
}
