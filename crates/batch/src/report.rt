ghost use Rattle.std.specs.Prelude.{◌≡◌, IfErr, Some};
ghost use Rattle.wsyntax.specs.Validation.Verdict.{IsVerdict, Verdict};
ghost use Rattle.batch.specs.Output.{FallsShort};
ghost use Rattle.batch.specs.Report.{given_verdict, status_of, IsLineOf, Reports};

use crate::line::verdict_line;
use crate::output::write_text;
use crate::status::{AnswerFault, Status};
use pieces::{Plan, Watch};
use std::alloc::Global;
use std::io::Write;
use std::sync::Wait;
use std::thread::Threads;
use verdict::{Refusal, examine};

/// Judges a module and writes its verdict line. The line is made before its first byte is written, so running out of memory leaves
/// `out` as it was. Where the fault is `Write`, a beginning of the line was written, and not all of it (`fault`); that a write
/// then failed or took no byte is tested. Nothing is flushed.
pub fn report_verdict<R: Threads + Wait + Sync, W: Watch + Sync, O: Write>(
    rt: &R,
    alloc: Global,
    bytes: &[u8],
    plan: Plan,
    watch: &W,
    out: &mut O,
) -> Result<Status, AnswerFault>
    ensures report { Reports (IsVerdict bytes.now) (O.contents out.old) (O.contents out.new) result }
    ensures fault { IfErr result (FallsShort (IsLineOf (IsVerdict bytes.now)) (O.contents out.old) (O.contents out.new)) }
{
    let judged = examine(rt, alloc, bytes, plan, watch);
    write_verdict(alloc, judged, out)
}

/// Writes the line of the verdict that the judge gave; its faults are those of `report_verdict`.
pub fn write_verdict<O: Write>(
    alloc: Global,
    judged: Result<(), Refusal>,
    out: &mut O,
) -> Result<Status, AnswerFault>
    ensures report { Reports (λ v. given_verdict judged ≡ Some v) (O.contents out.old) (O.contents out.new) result }
    ensures fault { IfErr result (FallsShort (IsLineOf (λ v. given_verdict judged ≡ Some v)) (O.contents out.old) (O.contents out.new)) }
{
    let Ok(line) = verdict_line(alloc, judged) else {
        return Err(AnswerFault::Memory);
    };
    match write_text(out, line.as_bytes()) {
        Ok(()) => Ok(status(judged)),
        Err(_) => Err(AnswerFault::Write),
    }
}

/// Good exactly where the judge refused nothing.
fn status(judged: Result<(), Refusal>) -> Status
    ensures { (v : Verdict) → given_verdict judged ≡ Some v → result ≡ status_of v }
{
    match judged {
        Ok(()) => Status::Good,
        Err(_) => Status::ModuleRefused,
    }
}
