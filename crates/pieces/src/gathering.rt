//! What all workers answer together.
ghost use Rattle.std.specs.Prelude.{◌≡◌, ◌≤◌, ℕ, false, IfOk, OnOk, All, vec_len, IsPermutation};
ghost use Rattle.pieces.specs.Counting.{total};
ghost use Rattle.pieces.specs.Gathered.{is_at, Rises, Gathers};
ghost use Rattle.pieces.specs.Crew.{shares_of, locals_of, NoneYet, any_short, answers_of};

use crate::crew::run_crew;
use crate::job::{Job, JobFault};
use crate::member::Member;
use crate::opening::open;
use crate::plan::Plan;
use crate::settling::settle;
use crate::share::Share;
use crate::tuning::FEW_ANSWERS;
use crossbeam_utils::CachePadded;
use std::alloc::{AllocError, Global};
use std::sync::Wait;
use std::thread::Threads;

/// The workers, each with its share, its local, and room for `room` answers.
fn new_crew<L: Drop, O: Drop, F: Drop>(
    alloc: Global,
    mut shares: Vec<Share>,
    mut locals: Vec<L>,
    room: usize,
) -> Result<Vec<Member<L, O, F>>, AllocError>
    requires { vec_len shares ≡ vec_len locals }
    ensures shares { IfOk result (λ v. shares_of v.items ≡ shares.items) }
    ensures locals { IfOk result (λ v. locals_of v.items ≡ locals.items) }
    ensures none { IfOk result (λ v. NoneYet v.items) }
{
    let mut crew = Vec::new(alloc);
    while let Some(share) = shares.pop() {
        let Some(local) = locals.pop() else {
            unreachable!()
        };
        let member = Member {
            share,
            local,
            answers: CachePadded::new(Vec::with_capacity(alloc, room)?),
            short: false,
        };
        crew.insert(0, member)?;
    }
    Ok(crew)
}

/// The shares and the answers of workers that are done, or `Err` where one was short of memory.
fn split_crew<L: Drop, O: Drop, F: Drop>(
    alloc: Global,
    crew: Vec<Member<L, O, F>>,
) -> Result<(Vec<Share>, Vec<(u32, Result<O, JobFault<F>>)>), AllocError>
    ensures shares { IfOk result (λ r. r.0.items ≡ shares_of crew.items) }
    ensures whole { OnOk result (any_short crew.items ≡ false) }
    ensures answers { IfOk result (λ r. r.1.items ≡ answers_of crew.items) }
{
    let mut shares = Vec::new(alloc);
    let mut answers = Vec::new(alloc);
    for member in crew {
        let Member {
            share,
            local: _,
            answers: theirs,
            short,
        } = member;
        if short {
            return Err(AllocError);
        }
        shares.push(share)?;
        let mut theirs = theirs.into_inner();
        answers.append(&mut theirs)?;
    }
    Ok((shares, answers))
}

/// The answers in rising order of index.
fn sorted<O: Drop, F: Drop>(
    mut answers: Vec<(u32, Result<O, JobFault<F>>)>,
) -> Result<Vec<(u32, Result<O, JobFault<F>>)>, AllocError>
    requires { (i : ℕ) → total (is_at i) answers.items ≤ 1 }
    ensures same { IfOk result (λ v. IsPermutation answers.items v.items) }
    ensures rises { IfOk result (λ v. Rises v.items) }
{
    answers.sort_by_key(|a| a.0)?;
    Ok(answers)
}

/// Runs the job on the plan's workers, and gives their answers in rising order of index. An index above
/// one that is refused, or that found no memory, may be missing. One local is needed for each worker, and
/// where there are more workers than pieces those that are left over are dropped unused.
/// `Err` comes only where memory for the run itself was refused. Each of several workers has a thread of
/// its own, and the calling thread waits for them; workers whose threads cannot be started are replaced
/// by those that run. It may wait; what it promises holds if it returns.
pub fn gather<R: Threads + Wait + Sync, J: Job + Sync>(
    rt: &R,
    alloc: Global,
    job: &J,
    mut locals: Vec<J::Local>,
    n: u32,
    plan: Plan,
) -> Result<Vec<(u32, Result<J::Out, JobFault<J::Fault>>)>, AllocError>
    requires n { n ≤ J.limit job.now }
    requires locals { (vec_len locals ≡ plan.workers) × All (J.belongs job.now) locals.items }
    ensures { IfOk result (λ v. Gathers n (J.passes job.now) (J.gives job.now) (J.refuses job.now) v.items) }
{
    let plan = plan.narrowed(n);
    locals.truncate(plan.workers() as usize);
    let (bag, mark, shares) = open(alloc, n, plan)?;
    let crew = new_crew(alloc, shares, locals, n.min(FEW_ANSWERS) as usize)?;
    let crew = run_crew(rt, job, &bag, &mark, crew);
    let (shares, answers) = split_crew(alloc, crew)?;
    let _settled = settle(shares);
    let all = sorted(answers)?;
    Ok(all)
}
