//! The calls at the front of a text that is read further.

ghost use Rattle.std.specs.Prelude.{◌≡◌, ◌≢◌, ◌<◌, IfOk};
ghost use Rattle.batch_text.specs.declared.fault.CallsFault.TheVariants.{Memory};
ghost use Rattle.batch.specs.Streams.{EndsLines, IsFront};

use batch_text::{Call, CallsFault, read_calls, split_before};
use soundness::texts::one_calls;
use std::alloc::{AllocError, Global};

/// What stands at the front of a text.
#[derive(Drop)]
pub(crate) enum Front<'t> {
    /// Lines that say these calls, and the text behind them.
    Calls(Vec<Call<'t>>, &'t [u8]),
    /// A line that says none, or is too long.
    Bad,
    /// No whole line.
    Unended,
}

/// Where the first lines of a text end, which are no more than that many.
fn end_of_lines(text: &[u8], most: usize) -> usize
    ensures { EndsLines most text.now result }
{
    let mut end = 0;
    for _ in 0..most {
        let (line, behind) = split_before(&text[end..], b'\n');
        if behind.is_empty() {
            return end;
        }
        end += line.len() + 1;
    }
    end
}

/// How many lines are tried where as many as `most` were refused for this fault: none where that was one line.
fn fewer_lines(fault: CallsFault, most: usize) -> Result<usize, AllocError>
    requires { 0 < most }
    ensures { IfOk result (λ fewer. (fault ≢ Memory) × (fewer < most) × (fewer ≡ 0 → most ≡ 1)) }
{
    match fault {
        CallsFault::Memory => Err(AllocError),
        CallsFault::Line(line) => Ok((line as usize).max(2).min(most) - 1),
        CallsFault::TooLarge => Ok(most / 2),
    }
}

/// The calls of the first lines of a text: of as many as `most`, or of those before a bad one.
pub(crate) fn read_front(alloc: Global, text: &[u8], most: usize) -> Result<Front<'_>, AllocError>
    requires { 0 < most }
    ensures { IfOk result (IsFront text.now) }
{
    one_calls();
    let mut tried = most;
    'tries: loop {
        let (lines, behind) = text.split_at(end_of_lines(text, tried));
        if lines.is_empty() {
            return Ok(Front::Unended);
        }
        match read_calls(alloc, lines) {
            Ok(calls) => return Ok(Front::Calls(calls, behind)),
            Err(fault) => {
                tried = fewer_lines(fault, tried)?;
                if tried == 0 {
                    return Ok(Front::Bad);
                }
            }
        }
    }
}
