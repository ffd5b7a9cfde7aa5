//! The program over any source and writers.
ghost use Rattle.std.specs.Prelude.{◌≡◌, ◌⊎◌, map};
ghost use Rattle.std.specs.Io.KnownBytes.{Keeps};
ghost use Rattle.program.specs.Endings.{answer_status, IsStatus};
ghost use Rattle.program.specs.Prints.{AsksFor, AnswersRequest, AnswersWords};
ghost use Rattle.program.specs.Prints.{PrintsCallsRefusal, PrintsFirst, PrintsFirstCalls, PrintsGood, PrintsRefusal, WritesAtOnce};

use crate::answer::answer_files;
use crate::check::check_file;
use crate::checking_all::{check_listed, check_names};
use crate::explaining::{explain_file, explain_files};
use crate::fault::{ProgramFault, end};
use crate::finishing::show;
use crate::listing::list_file;
use crate::source::Source;
use crate::streaming::stream_files;
use batch::Status;
use command::{Request, read_words};
use std::alloc::Global;
use std::io::Write;
use std::sync::Wait;
use std::thread::Threads;

/// Does what the words after the program's name ask for, and answers the status. A write to `err` that
/// fails changes nothing.
pub fn run<R: Threads + Wait + Sync, S: Source, O: Write, E: Write>(
    rt: &R,
    alloc: Global,
    words: &[&str],
    source: &mut S,
    out: &mut O,
    err: &mut E,
) -> u8
    ensures named { IsStatus result }
    ensures obeyed { AnswersWords (map (λ w. w.now) words.now) (S.holds source.old) (S.lists source.old)
        (S.asked source.old) (S.asked source.new)
        (O.contents out.old) (O.contents out.new) result }
    ensures silent { (result ≡ 64) ⊎ ((result ≡ 70) × WritesAtOnce (map (λ w. w.now) words.now))
        → Keeps (O.contents out.old) (O.contents out.new) }
    ensures short { result ≡ 70 → Keeps (O.contents out.old) (O.contents out.new)
        ⊎ (PrintsFirst (map (λ w. w.now) words.now) (S.holds source.old) (S.lists source.old) (S.asked source.old) (S.asked source.new)
        (O.contents out.old) (O.contents out.new)
        ⊎ PrintsFirstCalls (map (λ w. w.now) words.now) (S.holds source.old) (S.asked source.old) (S.asked source.new)
        (O.contents out.old) (O.contents out.new)) }
    ensures accepted { result ≡ 0 →
        PrintsGood (map (λ w. w.now) words.now) (S.holds source.old) (S.lists source.old) (S.asked source.old) (S.asked source.new)
        (O.contents out.old) (O.contents out.new) }
    ensures refused { result ≡ 2 →
        PrintsRefusal (map (λ w. w.now) words.now) (S.holds source.old) (S.lists source.old) (S.asked source.old) (S.asked source.new)
        (O.contents out.old) (O.contents out.new) }
    ensures calls_refused { result ≡ 3 →
        PrintsCallsRefusal (map (λ w. w.now) words.now) (S.holds source.old) (S.asked source.old) (S.asked source.new)
        (O.contents out.old) (O.contents out.new) }
{
    let request = match read_words(alloc, words) {
        Ok(request) => request,
        Err(fault) => return end(&ProgramFault::from(fault), err),
    };
    match obey(rt, alloc, request, source, out) {
        Ok(status) => exit_code(status),
        Err(fault) => end(&fault, err),
    }
}

/// Does what is asked for, and flushes.
fn obey<'a, R: Threads + Wait + Sync, S: Source, O: Write>(
    rt: &R,
    alloc: Global,
    request: Request<'a>,
    source: &mut S,
    out: &mut O,
) -> Result<Status, ProgramFault<'a>>
    ensures done { AnswersRequest request.entry (S.holds source.old) (S.lists source.old)
        (S.asked source.old) (S.asked source.new) (O.contents out.old) (O.contents out.new) result }
    ensures asked { AsksFor request.entry (S.asked source.old) (S.asked source.new) result }
{
    match request {
        Request::Check { path, plan } => check_file(rt, alloc, path, plan, source, out),
        Request::Run {
            path,
            calls,
            settings,
            plan,
        } => answer_files(rt, alloc, path, calls, settings, plan, source, out),
        Request::CheckAll {
            names,
            folders,
            plan,
        } => check_names(rt, alloc, names.as_slice(), folders, plan, source, out),
        Request::CheckListed {
            is_null,
            folders,
            plan,
        } => check_listed(rt, alloc, is_null, folders, plan, source, out),
        Request::Explain { path, json } => explain_file(alloc, path, json, source, out),
        Request::ExplainCalls { path, calls, json } => explain_files(
            alloc, path, calls, json, source, out,
        ),
        Request::Exports { path } => list_file(alloc, path, source, out),
        Request::Stream {
            path,
            calls,
            settings,
            plan,
        } => stream_files(rt, alloc, path, calls, settings, plan, source, out),
        Request::Text(text) => show(text.as_bytes(), Status::Good, out),
    }
}

/// The code with which the program exits after an answer.
fn exit_code(status: Status) -> u8
    ensures { result ≡ answer_status status }
{
    match status {
        Status::Good => 0,
        Status::ModuleRefused => 2,
        Status::CallsRefused => 3,
    }
}
