//! The answer to a module and a text of calls.

ghost use Rattle.std.specs.Prelude.{IfErr, IfOk, string_bytes};
ghost use Rattle.wsyntax.specs.Validation.Verdict.{Accepted as accepted_verdict};
ghost use Rattle.wstore.specs.CallLimits.{limits_of};
ghost use Rattle.batch.specs.Answers.{Answers, HasStatus, IsAnswerFrom, IsSomeAnswer, SaysRefused, StatusBy};
ghost use Rattle.batch.specs.Output.{FallsShort};
ghost use Rattle.batch.specs.Whole.{text_of};
ghost use Rattle.batch.specs.Safe.{NeverStuck, ValuesAreTyped};

use crate::laws::answers_are_safe;
use crate::line::verdict_line;
use crate::output::write_parts;
use crate::reading::read_by_workers;
use crate::running::run_groups;
use crate::status::{AnswerFault, Status};
use batch_text::{CallsFault, Part, last_line};
use pieces::{Plan, Watch};
use std::alloc::{AllocError, Global};
use std::io::Write;
use std::sync::Wait;
use std::thread::Threads;
use verdict::{Accepted, judge};
use wstore::Settings;

/// An answer: the texts of its parts, the line after them, and its status.
#[derive(Drop)]
struct Written {
    parts: Vec<Part>,
    last: String,
    status: Status,
}

/// The answer on calls that are refused.
pub(crate) fn calls_line(alloc: Global, fault: CallsFault) -> Result<String, AllocError>
    ensures { IfOk result (λ line. SaysRefused fault (string_bytes line)) }
{
    match fault {
        CallsFault::TooLarge => String::from_str(alloc, "accepted\ncalls too-large\n"),
        CallsFault::Line(line) => format!(in alloc; "accepted\ncalls line {line} refused\n"),
        CallsFault::Memory => Err(AllocError),
    }
}

/// The answer on an accepted module.
fn answer_on<R: Threads + Wait + Sync, W: Watch + Sync>(
    rt: &R,
    alloc: Global,
    accepted: &Accepted<'_>,
    calls: &[u8],
    settings: Settings,
    plan: Plan,
    watch: &W,
) -> Result<Written, AllocError>
    ensures answer { IfOk result (λ a. IsAnswerFrom accepted.now calls.now (limits_of settings) (text_of a)) }
    ensures status { IfOk result (λ a. StatusBy calls.now accepted_verdict a.status) }
{
    let sliced = match read_by_workers(rt, alloc, calls, plan) {
        Ok(sliced) => sliced,
        Err(fault) => {
            return Ok(Written {
                parts: Vec::new(alloc),
                last: calls_line(alloc, fault)?,
                status: Status::CallsRefused,
            });
        }
    };
    let parts = run_groups(rt, alloc, accepted, &sliced, settings, plan, watch)?;
    let last = last_line(alloc, &parts)?;
    Ok(Written {
        parts,
        last,
        status: Status::Good,
    })
}

/// The answer to a module and a text of calls, made in memory.
fn answer_to<R: Threads + Wait + Sync, W: Watch + Sync>(
    rt: &R,
    alloc: Global,
    bytes: &[u8],
    calls: &[u8],
    settings: Settings,
    plan: Plan,
    watch: &W,
) -> Result<Written, AllocError>
    ensures answer { IfOk result (λ a. IsSomeAnswer bytes.now calls.now (limits_of settings) (text_of a)) }
    ensures status { IfOk result (λ a. HasStatus bytes.now calls.now a.status) }
{
    match judge(rt, alloc, bytes, plan, watch) {
        Ok(accepted) => answer_on(rt, alloc, &accepted, calls, settings, plan, watch),
        Err(refusal) => Ok(Written {
            parts: Vec::new(alloc),
            last: verdict_line(alloc, Err(refusal))?,
            status: Status::ModuleRefused,
        }),
    }
}

/// Judges a module, reads the calls, runs each alone, and writes the answer. The whole promise, each phrase with the clause
/// that carries it:
///
/// - What is written is the answer of the definition for `bytes`, `calls` and `settings`: a refused module's verdict line; else
///   what is wrong with the calls; else the report, in which each call ends as its reduction on an instance of its own ends,
///   after the start function, with the exact fuel (`answer`, by `IsSomeAnswer`). `plan` stands in no clause. Where the same
///   calls ran out of memory, the answer is one (`one_answer`): one function of the two texts and the settings.
/// - `Status` says which of the three was written (`status`).
/// - No call is ever stuck: no configuration that a call reaches is, from the start function on the fresh store, and from the
///   call on the store that the start function left (`never_stuck`).
/// - The values of a call are of the result types of the function that it names (`typed`): whatever ends the report tells.
/// - The answer is made before its first byte is written, so running out of memory leaves `out` as it was. Where the fault is `Write`,
///   a beginning of the answer was written, and not all of it (`answer`, `fault`).
///
/// Nothing is flushed. Of a writer whose contents are not known the clauses on writing say nothing. That `Write` comes only
/// after a write failed or took no byte is tested, where less than all was written: contents do not tell it. That memory is
/// wanting only where it was refused is tested too.
pub fn answer<R: Threads + Wait + Sync, W: Watch + Sync, O: Write>(
    rt: &R,
    alloc: Global,
    bytes: &[u8],
    calls: &[u8],
    settings: Settings,
    plan: Plan,
    watch: &W,
    out: &mut O,
) -> Result<Status, AnswerFault>
    ensures answer { Answers (IsSomeAnswer bytes.now calls.now (limits_of settings)) (O.contents out.old) (O.contents out.new) result }
    ensures status { IfOk result (HasStatus bytes.now calls.now) }
    ensures never_stuck { NeverStuck bytes.now calls.now (limits_of settings) }
    ensures typed { ValuesAreTyped bytes.now calls.now (limits_of settings) }
    ensures fault { IfErr result
        (FallsShort (IsSomeAnswer bytes.now calls.now (limits_of settings))
        (O.contents out.old) (O.contents out.new)) }
{
    answers_are_safe();
    let Ok(answer) = answer_to(rt, alloc, bytes, calls, settings, plan, watch) else {
        return Err(AnswerFault::Memory);
    };
    match write_parts(out, &answer.parts, answer.last.as_bytes()) {
        Ok(()) => Ok(answer.status),
        Err(_) => Err(AnswerFault::Write),
    }
}
