ghost use Rattle.std.specs.Prelude.{◌≤◌, IfOk, vec_len};
ghost use Rattle.batch_text.specs.Calls.{ReadsCalls};

use crate::call::{Call, read_call};
use crate::fault::CallsFault;
use crate::split::{count_marks, split_before};
use std::alloc::Global;
use wsyntax::{CALLS_LIMIT, LINE_LIMIT};

/// Reads a text of calls: one line a call, each ended by a newline. The names are slices of the text.
pub fn read_calls(alloc: Global, text: &[u8]) -> Result<Vec<Call<'_>>, CallsFault>
    ensures said { ReadsCalls text.now result }
    ensures few { IfOk result (λ calls. vec_len calls ≤ LINE_LIMIT) }
{
    if text.len() > CALLS_LIMIT {
        return Err(CallsFault::TooLarge);
    }
    let mut calls = Vec::with_capacity(alloc, count_marks(text, b'\n').min(LINE_LIMIT))?;
    let mut rest = text;
    'lines: while !rest.is_empty() {
        let bad_line = CallsFault::Line(calls.len() as u32 + 1);
        if calls.len() == LINE_LIMIT {
            return Err(bad_line);
        }
        let (line, after) = split_before(rest, b'\n');
        if after.is_empty() {
            return Err(bad_line);
        }
        let Some(call) = read_call(alloc, line)? else {
            return Err(bad_line);
        };
        calls.push(call)?;
        rest = &after[1..];
    }
    Ok(calls)
}
