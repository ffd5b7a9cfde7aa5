//! A batch of calls on many workers.

ghost use Rattle.std.specs.Prelude.{◌<◌, ◌^◌, IfOk, OnOk, length};
ghost use Rattle.batch_text.specs.Slices.{joined_calls};
ghost use Rattle.batch.specs.Ends.{AreEnds};
ghost use Rattle.batch.specs.Groups.{GiveParts};

use crate::each::EachCall;
use crate::groups::{GroupedCalls, groups_of};
use crate::runner::Runner;
use crate::sliced::SlicedCalls;
use crate::tuning::FEWEST_GROUPS;
use batch_text::{Call, Line, Part};
use memory::Pool;
use pieces::{Plan, TryFault, Watch, try_all};
use std::alloc::{AllocError, Global};
use std::sync::Wait;
use std::thread::Threads;
use verdict::Accepted;
use wstore::Settings;

/// Runs each call alone, on an instance of its own, with a memory that is lent from one pool, where the module has one. The
/// lines stand in the order of the calls. These are fewer than 4,294,967,296: more get an error too.
pub fn run_batch<R: Threads + Wait + Sync, W: Watch + Sync>(
    rt: &R,
    alloc: Global,
    accepted: &Accepted<'_>,
    calls: &[Call<'_>],
    settings: Settings,
    plan: Plan,
    watch: &W,
) -> Result<Vec<Line>, AllocError>
    ensures ends { IfOk result (λ lines. AreEnds accepted.now settings calls.now lines.items) }
    ensures few { OnOk result (length calls.now < 2 ^ 32) }
{
    let Ok(count) = u32::try_from(calls.len()) else {
        return Err(AllocError);
    };
    let (pool, tickets) = Pool::new(alloc, plan.workers())?;
    let runner = Runner {
        alloc,
        accepted,
        settings,
    };
    let job = EachCall {
        runner,
        pool: &pool,
        calls,
        watch,
    };
    match try_all(rt, alloc, &job, tickets, count, plan) {
        Ok(lines) => Ok(lines),
        Err(TryFault::Stopped { .. } | TryFault::Memory) => Err(AllocError),
    }
}

/// Runs each call of a text as `run_batch` does, in groups of as many as the plan has in a piece, or more.
/// Each worker makes the lines of its groups, and the parts stand in the order of the calls.
pub(crate) fn run_groups<R: Threads + Wait + Sync, W: Watch + Sync>(
    rt: &R,
    alloc: Global,
    accepted: &Accepted<'_>,
    sliced: &SlicedCalls<'_>,
    settings: Settings,
    plan: Plan,
    watch: &W,
) -> Result<Vec<Part>, AllocError>
    ensures { IfOk result (λ parts. GiveParts accepted.now settings (joined_calls sliced.now.slices.items) parts.items) }
{
    let (pool, tickets) = Pool::new(alloc, plan.workers())?;
    let wanted = plan.workers().saturating_mul(FEWEST_GROUPS);
    let size = plan.grouping(sliced.count, wanted).piece() as usize;
    let groups = groups_of(alloc, &sliced.slices, size)?;
    // A group has a call at least.
    let count = groups.len() as u32;
    let runner = Runner {
        alloc,
        accepted,
        settings,
    };
    let job = GroupedCalls {
        runner,
        pool: &pool,
        groups: &groups,
        watch,
    };
    match try_all(rt, alloc, &job, tickets, count, plan.one_group_each()) {
        Ok(parts) => Ok(parts),
        Err(TryFault::Stopped { .. } | TryFault::Memory) => Err(AllocError),
    }
}
