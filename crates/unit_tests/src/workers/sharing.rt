//! That the work is really shared: indices that look for one another.
ghost use Rattle.std.specs.Prelude.{◌≡◌};

use super::units;
use pieces::{Job, JobFault, Plan, try_all};
use std::alloc::Global;
use std::process::Abort;
use std::sync::Wait;
use std::sync::atomic::{AtomicU64, Ordering};
use std::test::Fail;
use std::thread;
use std::thread::Threads;

/// How often an index looks for another before it gives up.
const TURNS: u32 = 2000;

/// How often a run is tried before a test gives up.
const TRIES: u32 = 10_000;

/// Counts the indices that arrived, and those that are inside. The indices `a` and `b` look for `wanted`
/// that are inside at once. Where the job refuses, `a` is then refused, and `b` stays inside as long
/// again.
#[derive(Drop)]
struct Looking {
    arrived: AtomicU64,
    inside: AtomicU64,
    met: AtomicU64,
    a: u32,
    b: u32,
    wanted: u64,
    leaves: bool,
    refuses: bool,
}

impl Looking {
    fn new(a: u32, b: u32, wanted: u64) -> Looking
        ensures { (result.a ≡ a) × (result.b ≡ b) }
    {
        Looking {
            arrived: AtomicU64::new(0),
            inside: AtomicU64::new(0),
            met: AtomicU64::new(0),
            a,
            b,
            wanted,
            leaves: false,
            refuses: false,
        }
    }

    fn look(&self) {
        for _ in 0..TURNS {
            if self.inside.load(Ordering::SeqCst) >= self.wanted {
                self.met.store(1, Ordering::SeqCst);
                return;
            }
            thread::yield_now();
        }
    }

    fn stay(&self) {
        for _ in 0..TURNS {
            thread::yield_now();
        }
    }

    fn has_met(&self) -> bool {
        self.met.load(Ordering::SeqCst) == 1
    }
}

impl Job for Looking {
    type Local = ();

    type Out = u32;

    type Fault = u32;

    ghost use Rattle.std.specs.Prelude.{◌≡◌, ◌^◌, true};
    ghost use Rattle.unit_tests.specs.TestJobs.{same_fault};

    ghost limit = { λ j. 2 ^ 32 };

    ghost belongs = { λ j l. Unit {0} };

    ghost passes = { λ j i. ((i ≡ j.a) × (j.refuses ≡ true)) → ⊥ };

    ghost gives = { λ j i o. o ≡ i };

    ghost refuses = { λ j i f. (i ≡ j.a) × (j.refuses ≡ true) × (f ≡ i) };

    fn run<R: Wait>(&self, _rt: &R, _local: &mut (), index: u32) -> Result<u32, JobFault<u32>> {
        self.arrived.fetch_add(1, Ordering::SeqCst);
        self.inside.fetch_add(1, Ordering::SeqCst);
        if index == self.a || index == self.b {
            self.look();
        }
        if index == self.a && self.refuses {
            return Err(JobFault::Refused(index));
        }
        if index == self.b && self.refuses {
            self.stay();
        }
        if self.leaves {
            self.inside.fetch_sub(1, Ordering::SeqCst);
        }
        Ok(index)
    }

    ghost never_both = { λ j i f p r. p (r.0, r.1) };

    ghost one_fault = { λ j i f g r s. same_fault i f g r.2 s.2 };
}

#[test]
fn two_indices_are_inside_at_once(rt: HostRuntime) -> Result<(), Fail> {
    let plan = Plan::new(2, 1).ok_or("plan")?;
    for _ in 0..TRIES {
        let mut job = Looking::new(0, 1, 2);
        job.leaves = true;
        let locals = units(rt.alloc(), 2)?;
        let outs = try_all(&rt, rt.alloc(), &job, locals, 2, plan);
        assert!(rt; outs.is_ok());
        if job.has_met() {
            return Ok(());
        }
    }
    panic!(rt; "no two indices were inside at once")
}

/// Of four indices in pieces of one, index k sees the three others arrive while it runs.
fn sees_all_others<R: Threads + Wait + Abort + Sync>(
    rt: &R,
    alloc: Global,
    k: u32,
) -> Result<(), Fail> {
    let plan = Plan::new(2, 1).ok_or("plan")?;
    for _ in 0..TRIES {
        let job = Looking::new(k, k, 4);
        let locals = units(alloc, 2)?;
        let outs = try_all(rt, alloc, &job, locals, 4, plan);
        assert!(rt; outs.is_ok());
        if job.has_met() {
            return Ok(());
        }
    }
    panic!(rt; "index {k} never saw all others")
}

#[test]
fn the_other_worker_takes_what_is_left(rt: HostRuntime) -> Result<(), Fail> {
    sees_all_others(&rt, rt.alloc(), 0)?;
    sees_all_others(&rt, rt.alloc(), 1)
}

#[test]
fn a_worker_heeds_the_refusal_of_another(rt: HostRuntime) -> Result<(), Fail> {
    let plan = Plan::new(2, 500).ok_or("plan")?;
    for _ in 0..TRIES {
        let mut job = Looking::new(0, 500, 2);
        job.refuses = true;
        let locals = units(rt.alloc(), 2)?;
        let outs = try_all(&rt, rt.alloc(), &job, locals, 1000, plan);
        assert!(rt; outs.is_err());
        if job.has_met() && job.arrived.load(Ordering::SeqCst) == 2 {
            return Ok(());
        }
    }
    panic!(rt; "no refusal kept the other worker from its later indices")
}
