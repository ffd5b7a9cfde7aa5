//! All modules, small and large.
ghost use Rattle.std.specs.Prelude.{◌<◌, ◌^◌, IfOk, IfSome, length, map};
ghost use Rattle.program.specs.Verdicts.{AreFound, AreVerdicts, IsJudged};

use crate::small::SmallModules;
use pieces::{Plan, Quiet, TryFault, try_all};
use std::alloc::{AllocError, Global};
use std::sync::Wait;
use std::thread::Threads;
use verdict::{Refusal, examine};

/// The verdicts on the small modules, each judged by one worker, and `None` for the large ones.
fn judge_small<R: Threads + Wait + Sync>(
    rt: &R,
    alloc: Global,
    modules: &[&[u8]],
    plan: Plan,
) -> Result<Vec<Option<Result<(), Refusal>>>, AllocError>
    requires { length modules.now < 2 ^ 32 }
    ensures { IfOk result (λ found. AreFound modules.now found.items) }
{
    let count = modules.len() as u32;
    let locals = vec![in alloc; (); plan.workers() as usize]?;
    let job = SmallModules { alloc, modules };
    match try_all(rt, alloc, &job, locals, count, plan.one_group_each()) {
        Ok(found) => Ok(found),
        Err(TryFault::Stopped { .. }) => unreachable!(),
        Err(TryFault::Memory) => Err(AllocError),
    }
}

/// The verdict that was found, or where there is none, for the module is large, that of all workers.
fn settled<R: Threads + Wait + Sync>(
    rt: &R,
    alloc: Global,
    found: Option<Result<(), Refusal>>,
    bytes: &[u8],
    plan: Plan,
) -> Result<(), Refusal>
    requires { IfSome found (IsJudged bytes.now) }
    ensures { IsJudged bytes.now result }
{
    match found {
        Some(judged) => judged,
        None => examine(rt, alloc, bytes, plan, &Quiet),
    }
}

/// Judges many modules, fewer than 2^32: a verdict each, in their order. Each worker takes small modules one after the
/// other; then all workers judge each large one together. Out of memory for one module is its `Refusal::Memory`, of which
/// nothing more is said; an error is out of memory for the run itself.
pub fn judge_all<R: Threads + Wait + Sync>(
    rt: &R,
    alloc: Global,
    modules: &[&[u8]],
    plan: Plan,
) -> Result<Vec<Result<(), Refusal>>, AllocError>
    requires { length modules.now < 2 ^ 32 }
    ensures { IfOk result (λ verdicts. AreVerdicts (map (λ b. b.now) modules.now) verdicts.items) }
{
    let found = judge_small(rt, alloc, modules, plan)?;
    let mut verdicts = Vec::with_capacity(alloc, modules.len())?;
    for position in 0..modules.len() {
        let judged = settled(rt, alloc, found[position], modules[position], plan);
        verdicts.push(judged)?;
    }
    Ok(verdicts)
}
