//! What C calls for an explanation.

ghost use Rattle.c_api.specs.Explained.{Explains, HandsText};
ghost use Rattle.c_api.specs.Verdicts.{Answers};

use crate::explained::{GateExplanation, status_with};
use crate::status::NO_MEMORY;
use crate::text::hand_text;
use explain::{explain, explain_calls};
use std::alloc::Global;

/// Judges a module, and says of a refusal where and why. 0: it is accepted; 2: it is refused; either way the fields are written.
/// 70: nothing is written.
#[unsafe(no_mangle)]
pub extern "C" fn gate_explain(
    alloc: Global,
    bytes: &[u8],
    explanation: &mut GateExplanation,
) -> u32
    ensures fields { Explains bytes.now explanation.old explanation.new result }
    ensures verdict { Answers bytes.now explanation.old.verdict explanation.new.verdict result }
{
    let found = explain(alloc, bytes);
    let Some(fields) = GateExplanation::of(&found) else {
        return NO_MEMORY;
    };
    *explanation = fields;
    status_with(&found)
}

/// How many pages a memory may have where the caller says none, as in `gate run`.
const PAGES: u32 = 256;

/// Judges a module, and writes the text that says where and why it is refused, or why no call of it runs under the default limits. 0: it
/// is accepted; 2: it is refused; either way the text is written, and its length. 70: nothing is written; 75: the text has `length`
/// bytes, and there is no room for it.
#[unsafe(no_mangle)]
pub extern "C" fn gate_explain_text(
    alloc: Global,
    bytes: &[u8],
    out: &mut [u8],
    length: &mut usize,
) -> u32
    ensures { HandsText bytes.now out.old out.new length.old length.new result }
{
    let Ok(told) = explain_calls(alloc, bytes, &[], PAGES) else {
        return NO_MEMORY;
    };
    hand_text(
        told.text.as_bytes(),
        status_with(&told.explanation),
        out,
        length,
    )
}
