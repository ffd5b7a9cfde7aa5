//! In which order pieces are taken, what one worker sees of another, how often a job is run, and what faults print.
mod sharing;
mod starving;

ghost use Rattle.std.specs.Prelude.{◌≡◌, IfOk, vec_len};

use pieces::*;
use std::alloc::Global;
use std::process::Abort;
use std::sync::Wait;
use std::sync::atomic::{AtomicU64, Ordering};
use std::test::*;
use std::thread::Threads;

/// Counts its runs at each index. The indices `a` and `b` are refused.
#[derive(Drop)]
struct Counting {
    runs: Vec<AtomicU64>,
    a: u32,
    b: u32,
}

impl Job for Counting {
    type Local = ();

    type Out = u32;

    type Fault = u32;

    ghost use Rattle.std.specs.Prelude.{◌≡◌, ◌≢◌, vec_len};
    ghost use Rattle.unit_tests.specs.TestJobs.{same_fault};

    ghost limit = { λ j. vec_len j.runs };

    ghost belongs = { λ j l. Unit {0} };

    ghost passes = { λ j i. (i ≢ j.a) × (i ≢ j.b) };

    ghost gives = { λ j i o. o ≡ i };

    ghost refuses = { λ j i f. (((i ≢ j.a) × (i ≢ j.b)) → ⊥) × (f ≡ i) };

    fn run<R: Wait>(&self, _rt: &R, _local: &mut (), index: u32) -> Result<u32, JobFault<u32>> {
        self.runs[index as usize].fetch_add(1, Ordering::SeqCst);
        if index == self.a || index == self.b {
            Err(JobFault::Refused(index))
        } else {
            Ok(index)
        }
    }

    ghost never_both = { λ j i f p r. r.0 p };

    ghost one_fault = { λ j i f g r s. same_fault i f g r.1 s.1 };
}

/// An index that no test reaches.
const NEVER: u32 = u32::MAX;

fn new_counting(alloc: Global, n: u32, a: u32, b: u32) -> Result<Counting, Fail>
    ensures { IfOk result (λ j. vec_len j.runs ≡ n) }
{
    let mut runs = Vec::new(alloc);
    for _ in 0..n {
        runs.push(AtomicU64::new(0))?;
    }
    Ok(Counting { runs, a, b })
}

fn units(alloc: Global, workers: u32) -> Result<Vec<()>, Fail>
    ensures { IfOk result (λ v. vec_len v ≡ workers) }
{
    Ok(Vec::from_elem(alloc, (), workers as usize)?)
}

#[test]
fn ten_indices_make_three_pieces(rt: HostRuntime) -> Result<(), Fail> {
    let plan = Plan::new(2, 4).ok_or("plan")?;
    let (bag, _mark, mut shares) = open(rt.alloc(), 10, plan)?;
    let mut second = shares.pop().ok_or("share")?;
    let mut first = shares.pop().ok_or("share")?;
    assert!(rt; bag.take(&rt, &mut first) == Some(Piece { first: 0, end: 4 }));
    assert!(rt; bag.take(&rt, &mut second) == Some(Piece { first: 4, end: 8 }));
    assert!(rt; bag.take(&rt, &mut second) == Some(Piece { first: 8, end: 10 }));
    assert!(rt; bag.take(&rt, &mut second) == None);
    assert!(rt; bag.take(&rt, &mut second) == None);
    assert!(rt; bag.take(&rt, &mut first) == None);
    Ok(())
}

#[test]
fn two_shares_see_one_mark(rt: HostRuntime) -> Result<(), Fail> {
    let plan = Plan::new(2, 1).ok_or("plan")?;
    let (_bag, mark, mut shares) = open(rt.alloc(), 0, plan)?;
    let mut second = shares.pop().ok_or("share")?;
    let mut first = shares.pop().ok_or("share")?;
    assert_eq!(rt; mark.read(&mut first), None);
    assert_eq!(rt; mark.read(&mut second), None);
    mark.lower(&mut first, 7);
    assert_eq!(rt; mark.read(&mut second), Some(7));
    mark.lower(&mut second, 9);
    mark.lower(&mut second, 4);
    assert_eq!(rt; mark.read(&mut first), Some(4));
    Ok(())
}

/// Each of 1,000 indices is run once where none is refused.
fn runs_each_once<R: Threads + Wait + Abort + Sync>(
    rt: &R,
    alloc: Global,
    plan: Plan,
) -> Result<(), Fail> {
    let job = new_counting(alloc, 1000, NEVER, NEVER)?;
    let locals = units(alloc, plan.workers())?;
    let outs = try_all(rt, alloc, &job, locals, 1000, plan);
    assert!(rt; outs.is_ok());
    for run in job.runs.iter() {
        assert_eq!(rt; run.load(Ordering::SeqCst), 1);
    }
    Ok(())
}

/// With refusals at 3 and 900 the answer is 3, and no index below it is left out or run twice.
fn stops_at_three<R: Threads + Wait + Abort + Sync>(
    rt: &R,
    alloc: Global,
    plan: Plan,
) -> Result<(), Fail> {
    let job = new_counting(alloc, 1000, 900, 3)?;
    let locals = units(alloc, plan.workers())?;
    match try_all(rt, alloc, &job, locals, 1000, plan) {
        Err(TryFault::Stopped { index, fault }) => assert_eq!(rt; (index, fault), (3, 3)),
        _ => panic!(rt; "not stopped"),
    }
    for (i, run) in job.runs.iter().enumerate() {
        let count = run.load(Ordering::SeqCst);
        assert!(rt; count <= 1);
        assert!(rt; i > 3 || count == 1);
        assert!(rt; plan.workers() > 1 || i <= 3 || count == 0);
    }
    Ok(())
}

#[test]
fn every_plan_gives_the_answer_of_one_thread(rt: HostRuntime) -> Result<(), Fail> {
    for workers in [1, 2, 8, 64] {
        for piece in [1, 7, 65_535] {
            let plan = Plan::new(workers, piece).ok_or("plan")?;
            runs_each_once(&rt, rt.alloc(), plan)?;
            stops_at_three(&rt, rt.alloc(), plan)?;
        }
    }
    Ok(())
}

#[test]
fn faults_print_what_they_are(rt: HostRuntime) -> Result<(), Fail> {
    let stopped: TryFault<u32> = TryFault::Stopped { index: 3, fault: 7 };
    let memory: TryFault<u32> = TryFault::Memory;
    let refused: JobFault<u32> = JobFault::Refused(7);
    let text = format!(in rt.alloc(); "{stopped}, {memory}, {refused}")?;
    assert_eq!(rt;
        text.as_str(),
        "index 3 is refused: 7, out of memory, refused: 7"
    );
    Ok(())
}
