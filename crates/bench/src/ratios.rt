//! What `try_all` costs beside a plain loop.
use anyhow::Result;
use pieces::{Job, JobFault, Plan, try_all};
use std::alloc::{AllocError, Global};
use std::sync::Wait;
use std::thread::Threads;
use std::time::{Clock, Instant};

/// How many indices a run has, and how many runs the least time is taken of.
const INDICES: u32 = 100_000;

const ROUNDS: u32 = 20;

/// A job that does nothing.
#[derive(Clone, Copy, Drop)]
struct Empty;

impl Job for Empty {
    type Local = ();

    type Out = u32;

    type Fault = u32;

    ghost use Rattle.std.specs.Prelude.{◌≡◌, ◌^◌};

    ghost limit = { λ j. 2 ^ 32 };

    ghost belongs = { λ j l. Unit {0} };

    ghost passes = { λ j i. Unit {0} };

    ghost gives = { λ j i o. o ≡ i };

    ghost refuses = { λ j i f. ⊥ };

    fn run<R: Wait>(&self, _rt: &R, _local: &mut (), index: u32) -> Result<u32, JobFault<u32>> {
        Ok(index)
    }

    ghost never_both = { λ j i f p r. r };

    ghost one_fault = { λ j i f g r s. absurd r };
}

fn plain<R: Wait>(rt: &R, alloc: Global, job: &Empty) -> Result<Vec<u32>, AllocError> {
    let mut outs = Vec::new(alloc);
    for index in 0..INDICES {
        if let Ok(out) = job.run(rt, &mut (), index) {
            outs.push(out)?;
        }
    }
    Ok(outs)
}

/// The least time of a plain loop, in nanoseconds.
fn plain_time<R: Wait + Clock>(rt: &R, alloc: Global) -> Result<u128> {
    let mut least = u128::MAX;
    for _ in 0..ROUNDS {
        let start = Instant::now(rt)?;
        let outs = plain(rt, alloc, &Empty)?;
        let took = start.elapsed(rt)?.as_nanos();
        if outs.len() == INDICES as usize {
            least = least.min(took);
        }
    }
    Ok(least)
}

/// The least time of `try_all`, in nanoseconds.
fn pieces_time<R: Threads + Wait + Sync + Clock>(
    rt: &R,
    alloc: Global,
    plan: Plan,
) -> Result<u128> {
    let mut least = u128::MAX;
    for _ in 0..ROUNDS {
        let locals = Vec::from_elem(alloc, (), plan.workers() as usize)?;
        let start = Instant::now(rt)?;
        let outs = try_all(rt, alloc, &Empty, locals, INDICES, plan)?;
        let took = start.elapsed(rt)?.as_nanos();
        if outs.len() == INDICES as usize {
            least = least.min(took);
        }
    }
    Ok(least)
}

/// One line a plan.
pub fn print_ratios<R: Threads + Wait + Sync + Clock + Print>(rt: &R, alloc: Global) -> Result<()> {
    let base = plain_time(rt, alloc)?.max(1);
    for workers in [1, 2, 4] {
        for piece in [1, 16, 1024] {
            let Some(plan) = Plan::new(workers, piece) else {
                continue;
            };
            let tenths = pieces_time(rt, alloc, plan)?.saturating_mul(10) / base;
            let (whole, tenth) = (tenths / 10, tenths % 10);
            println!(rt;
                "{workers} workers, pieces of {piece}: {whole}.{tenth} times a plain loop"
            )?;
        }
    }
    Ok(())
}
