//! The text of calls, read by the workers.

ghost use Rattle.std.specs.Prelude.{◌≤◌, IfOk, IfSome, length};
ghost use Rattle.batch.specs.Slices.{ReadsSlices, SayTogether};

use crate::sliced::SlicedCalls;
use crate::slices::Slices;
use crate::tuning::{SHORT_TEXT, SLICES_EACH};
use batch_text::{Call, CallsFault, count_calls, cut_lines, read_calls};
use pieces::{Plan, TryFault, try_all};
use std::alloc::{AllocError, Global};
use std::sync::Wait;
use std::thread::Threads;
use wsyntax::CALLS_LIMIT;

/// The calls of the slices of a text. `None` where a slice says no calls, or all together are too many.
fn read_slices<'t, R: Threads + Wait + Sync>(
    rt: &R,
    alloc: Global,
    text: &'t [u8],
    plan: Plan,
) -> Result<Option<SlicedCalls<'t>>, AllocError>
    requires { length text.now ≤ CALLS_LIMIT }
    ensures { IfOk result (λ read. IfSome read (λ sliced. SayTogether text.now sliced.slices.items)) }
{
    let workers = plan.workers() as usize;
    let slices = cut_lines(alloc, text, text.len() / (SLICES_EACH * workers))?;
    // Each slice but the last has a byte at least.
    let count = slices.len() as u32;
    let locals = vec![in alloc; (); workers]?;
    let job = Slices {
        alloc,
        slices: &slices,
    };
    match try_all(rt, alloc, &job, locals, count, plan.one_group_each()) {
        Ok(read) => match count_calls(&read) {
            Some(all) => Ok(Some(SlicedCalls {
                slices: read,
                count: all as u32,
            })),
            None => Ok(None),
        },
        Err(TryFault::Stopped { .. }) => Ok(None),
        Err(TryFault::Memory) => Err(AllocError),
    }
}

/// All calls of a text as those of one slice.
fn read_at_once<'t>(alloc: Global, text: &'t [u8]) -> Result<SlicedCalls<'t>, CallsFault>
    ensures { ReadsSlices text.now result }
{
    let calls = read_calls(alloc, text)?;
    let count = calls.len() as u32;
    let mut slices = Vec::with_capacity(alloc, 1)?;
    slices.push(calls)?;
    Ok(SlicedCalls { slices, count })
}

/// Reads a text of calls as `read_calls` does, a long one in slices by the workers. Where these do not say calls, one thread
/// reads the text from its first line on: it finds the least bad line.
pub(crate) fn read_by_workers<'t, R: Threads + Wait + Sync>(
    rt: &R,
    alloc: Global,
    text: &'t [u8],
    plan: Plan,
) -> Result<SlicedCalls<'t>, CallsFault>
    ensures { ReadsSlices text.now result }
{
    if plan.workers() == 1 || text.len() < SHORT_TEXT || text.len() > CALLS_LIMIT {
        return read_at_once(alloc, text);
    }
    match read_slices(rt, alloc, text, plan)? {
        Some(sliced) => Ok(sliced),
        None => read_at_once(alloc, text),
    }
}
