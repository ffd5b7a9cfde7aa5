//! The answer of a loop on one thread, worked out by many.
ghost use Rattle.std.specs.Prelude.{◌≡◌, ◌≤◌, All, MatchResult, vec_len};
ghost use Rattle.pieces.specs.TryAll.{AllPass, StopsAt, Results, StopsIn};

use crate::gathering::gather;
use crate::job::{Job, JobFault};
use crate::plan::Plan;
use std::alloc::Global;
use std::fmt::{Debug, Display};
use std::sync::Wait;
use std::thread::Threads;
use thiserror::Error;

/// Why `try_all` gave no results.
#[derive(Clone, Copy, Debug, PartialEq, Eq, Drop, Error)]
#[error_bound(F: Debug + Display)]
pub enum TryFault<F> {
    /// The least refused index, and its fault.
    #[error("index {index} is refused: {fault}")]
    Stopped { index: u32, fault: F },
    /// Memory was refused, to the job or to the run.
    #[error("out of memory")]
    Memory,
}

/// Runs the job at every index below n, and gives all results in order of index; or stops at the least
/// index that is refused, where every smaller one passes; or memory was refused. So each answer is one
/// that a loop on one thread may give, whatever the plan. Locals, workers and waiting are as for
/// `gather`.
pub fn try_all<R: Threads + Wait + Sync, J: Job + Sync>(
    rt: &R,
    alloc: Global,
    job: &J,
    locals: Vec<J::Local>,
    n: u32,
    plan: Plan,
) -> Result<Vec<J::Out>, TryFault<J::Fault>>
    requires n { n ≤ J.limit job.now }
    requires locals { (vec_len locals ≡ plan.workers) × All (J.belongs job.now) locals.items }
    ensures { MatchResult result
        (λ v. AllPass n (J.passes job.now) (J.gives job.now) v.items)
        (StopsAt n (J.passes job.now) (J.refuses job.now)) }
{
    let Ok(answers) = gather(rt, alloc, job, locals, n, plan) else {
        return Err(TryFault::Memory);
    };
    results(alloc, answers)
}

/// The results of the answers up to the first that is none.
fn results<O: Drop, F: Drop>(
    alloc: Global,
    answers: Vec<(u32, Result<O, JobFault<F>>)>,
) -> Result<Vec<O>, TryFault<F>>
    ensures { MatchResult result (λ v. Results answers.items v.items) (StopsIn answers.items) }
{
    let mut outs = Vec::with_capacity(alloc, answers.len()).map_err(|_| TryFault::Memory)?;
    for (index, answer) in answers {
        match answer {
            Ok(out) => {
                if outs.push(out).is_err() {
                    return Err(TryFault::Memory);
                }
            }
            Err(JobFault::Refused(fault)) => return Err(TryFault::Stopped { index, fault }),
            Err(JobFault::Memory) => return Err(TryFault::Memory),
        }
    }
    Ok(outs)
}
