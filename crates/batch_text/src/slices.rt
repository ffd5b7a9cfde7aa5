//! A text of calls is cut into slices, which workers read.
ghost use Rattle.std.specs.Prelude.{◌≤◌, ◌≢◌, All, IfOk, MatchOption, drop, length, take};
ghost use Rattle.batch_text.specs.Slices.{CutsLines, EndsLine, CountsCalls, slices_of};

use crate::call::Call;
use crate::split::split_before;
use std::alloc::{AllocError, Global};
use wsyntax::LINE_LIMIT;

/// Where the first line ends that has its newline after the first `size` bytes of the text.
fn line_end(text: &[u8], size: usize) -> Option<usize>
    ensures { MatchOption result (All (λ b. b ≢ 0x0A) (drop size text.now))
        (λ end. (end ≤ length text.now) × EndsLine size (take end text.now)) }
{
    let behind = text.get(size..)?;
    let (line, after) = split_before(behind, b'\n');
    if after.is_empty() {
        return None;
    }
    Some(size + line.len() + 1)
}

/// Cuts a text after newlines into slices of that size, each of them longer by the rest of its last line.
pub fn cut_lines(alloc: Global, text: &[u8], size: usize) -> Result<Vec<&[u8]>, AllocError>
    ensures { IfOk result (λ slices. CutsLines size text.now (slices_of slices.items)) }
{
    let mut slices = Vec::new(alloc);
    let mut rest = text;
    'lines: while let Some(end) = line_end(rest, size) {
        let (slice, behind) = rest.split_at(end);
        slices.push(slice)?;
        rest = behind;
    }
    slices.push(rest)?;
    Ok(slices)
}

/// How many calls the slices of a text have together. `None` where a text may not have that many.
pub fn count_calls(read: &[Vec<Call<'_>>]) -> Option<usize>
    ensures { CountsCalls read.now result }
{
    let mut count = 0;
    for calls in read {
        if calls.len() > LINE_LIMIT - count {
            return None;
        }
        count += calls.len();
    }
    Some(count)
}
