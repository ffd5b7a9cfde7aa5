ghost use Rattle.std.specs.Prelude.{◌<◌, ◌≤◌, ◌++◌, IfErr, IfOk, MatchResult, length};
ghost use Rattle.std.specs.Io.KnownBytes.{Appends, WriteAppends};
ghost use Rattle.batch_text.specs.Parts.{parts_text};
ghost use Rattle.batch.specs.Output.{AppendsFront, AppendsLess};

use batch_text::Part;
use std::io::{ErrorKind, Write};

/// A write that failed, or that took no byte.
#[derive(Clone, Copy, PartialEq, Eq)]
pub struct WriteFailed;

/// One write of a text, which is tried again where it is interrupted: how many of its bytes were taken, and at least one.
fn write_some<W: Write>(out: &mut W, text: &[u8]) -> Result<usize, WriteFailed>
    ensures some { IfOk result (λ n. 0 < n) }
    ensures within { IfOk result (λ n. n ≤ length text.now) }
    ensures bytes { WriteAppends (W.contents out.old) (W.contents out.new) result text.now }
{
    for _ in 0..u64::MAX {
        match out.write(text) {
            Ok(0) => return Err(WriteFailed),
            Ok(taken) => return Ok(taken),
            Err(error) if error.kind() == ErrorKind::Interrupted => {}
            Err(_) => return Err(WriteFailed),
        }
    }
    Err(WriteFailed)
}

/// Writes the whole text, or a beginning of it that is shorter: the first write that fails, or that takes no byte, ends it.
pub fn write_text<W: Write>(out: &mut W, text: &[u8]) -> Result<(), WriteFailed>
    ensures text { MatchResult result
        (λ _. Appends (W.contents out.old) (W.contents out.new) text.now)
        (λ _. AppendsFront (W.contents out.old) (W.contents out.new) text.now) }
    ensures less { IfErr result (λ _. AppendsLess (W.contents out.old) (W.contents out.new) text.now) }
{
    let mut rest = text;
    'writes: while !rest.is_empty() {
        match write_some(out, rest) {
            Ok(taken) => rest = &rest[taken..],
            Err(failed) => return Err(failed),
        }
    }
    Ok(())
}

/// Writes the texts of the parts one after another and a last line after them, or a beginning of that, which is shorter.
pub(crate) fn write_parts<W: Write>(
    out: &mut W,
    parts: &[Part],
    last: &[u8],
) -> Result<(), WriteFailed>
    ensures { MatchResult result
        (λ _. Appends (W.contents out.old) (W.contents out.new) (parts_text parts.now ++ last.now))
        (λ _. AppendsLess (W.contents out.old) (W.contents out.new) (parts_text parts.now ++ last.now)) }
{
    for part in parts {
        if let Err(failed) = write_text(out, part.text()) {
            return Err(failed);
        }
    }
    write_text(out, last)
}
