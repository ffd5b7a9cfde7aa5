//! Answers to C.

ghost use Rattle.std.specs.Prelude.{◌≡◌, ◌⊎◌, string_bytes};
ghost use Rattle.c_api.specs.Handed.{HandsOrKeeps};
ghost use Rattle.c_api.specs.Handles.{IsAnswered};
ghost use Rattle.c_api.specs.Runs.{LeavesAll};

use crate::kept::Kept;
use crate::loose::Loose;
use crate::report::ReportSlot;
use crate::sending::sendable;
use crate::status::NO_MEMORY;
use batch::Answer;
use std::alloc::Global;

/// Writes an answer, where there is room for it, and else keeps it, and writes its length.
pub(crate) fn hand_out(
    alloc: Global,
    answer: Answer,
    out: &mut [u8],
    length: &mut usize,
    kept: &mut ReportSlot,
) -> u32
    requires { ∥ IsAnswered (string_bytes answer.text) answer.status ∥₁ }
    ensures { ((result ≡ 70) × LeavesAll out.old out.new length.old length.new kept.old kept.new)
        ⊎ HandsOrKeeps (string_bytes answer.text) answer.status out.old out.new length.new kept.old kept.new result }
{
    let answered = Kept { answer };
    if answered.answer.text.len() <= out.len() {
        return answered.hand(out, length);
    }
    let Ok(report) = Box::new(alloc, sendable(answered)) else {
        return NO_MEMORY;
    };
    let status = report.hand(out, length);
    *kept = ReportSlot::tied(Loose::of(report));
    status
}
