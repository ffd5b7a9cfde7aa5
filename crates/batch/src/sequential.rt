//! The answer on the calling thread alone, for hosts that may not start threads or wait.

ghost use Rattle.std.specs.Prelude.{IfOk, string_bytes};
ghost use Rattle.wsyntax.specs.Validation.Verdict.{Accepted as accepted_verdict};
ghost use Rattle.wstore.specs.CallLimits.{limits_of};
ghost use Rattle.batch.specs.Answers.{HasStatus, IsAnswerFrom, IsAnswerOn, IsSomeAnswer, StatusBy};
ghost use Rattle.batch.specs.Safe.{NeverStuck, ValuesAreTyped};
ghost use Rattle.batch.specs.Groups.{GiveLines};

use crate::answering::calls_line;
use crate::laws::answers_are_safe;
use crate::line::verdict_line;
use crate::runner::call_alone;
use crate::status::Status;
use batch_text::{Call, Line, read_calls, report};
use memory::CleanMem;
use std::alloc::{AllocError, Global};
use verdict::{Accepted, judge_alone};
use wstore::Settings;

/// The text of an answer, and its status.
#[derive(Drop)]
pub struct Answer {
    pub text: String,
    pub status: Status,
}

/// How each call ends, in the order of the calls, which have one memory in turn.
fn lines_alone(
    alloc: Global,
    accepted: &Accepted<'_>,
    calls: &[Call<'_>],
    settings: Settings,
) -> Result<Vec<Line>, AllocError>
    ensures { IfOk result (λ lines. GiveLines accepted.now settings calls.now lines.items) }
{
    let mut lines = Vec::with_capacity(alloc, calls.len())?;
    let mut clean = CleanMem::empty(alloc);
    for call in calls {
        let (line, back) = call_alone(alloc, accepted, call, settings, clean);
        lines.push(line)?;
        clean = back;
    }
    Ok(lines)
}

/// The answer on a module that is judged already, on the calling thread alone: by what `accepted` holds (`held`), so that of
/// `answer` on the bytes that it was judged from (`answer`). The calls have one memory in turn. Out of memory is an error only
/// where no line can say it: where the text of calls is read, or the answer is made.
pub fn answer_on_alone(
    alloc: Global,
    accepted: &Accepted<'_>,
    calls: &[u8],
    settings: Settings,
) -> Result<Answer, AllocError>
    ensures held { IfOk result (λ a. IsAnswerFrom accepted.now calls.now (limits_of settings) (string_bytes a.text)) }
    ensures answer { IfOk result (λ a. IsAnswerOn accepted.now calls.now (limits_of settings) (string_bytes a.text)) }
    ensures status { IfOk result (λ a. StatusBy calls.now accepted_verdict a.status) }
{
    let read = match read_calls(alloc, calls) {
        Ok(read) => read,
        Err(fault) => {
            return Ok(Answer {
                text: calls_line(alloc, fault)?,
                status: Status::CallsRefused,
            });
        }
    };
    let lines = lines_alone(alloc, accepted, &read, settings)?;
    Ok(Answer {
        text: report(alloc, &lines)?,
        status: Status::Good,
    })
}

/// The answer that `answer` writes, made in memory on the calling thread alone: what `answer` promises of the text and of its
/// status holds here too, and no call is ever stuck.
pub fn answer_alone(
    alloc: Global,
    bytes: &[u8],
    calls: &[u8],
    settings: Settings,
) -> Result<Answer, AllocError>
    ensures answer { IfOk result (λ a. IsSomeAnswer bytes.now calls.now (limits_of settings) (string_bytes a.text)) }
    ensures status { IfOk result (λ a. HasStatus bytes.now calls.now a.status) }
    ensures never_stuck { NeverStuck bytes.now calls.now (limits_of settings) }
    ensures typed { ValuesAreTyped bytes.now calls.now (limits_of settings) }
{
    answers_are_safe();
    match judge_alone(alloc, bytes) {
        Ok(accepted) => answer_on_alone(alloc, &accepted, calls, settings),
        Err(refusal) => Ok(Answer {
            text: verdict_line(alloc, Err(refusal))?,
            status: Status::ModuleRefused,
        }),
    }
}
