//! Jobs that find no memory at an index.
use super::units;
use pieces::{Job, JobFault, Plan, TryFault, try_all};
use std::alloc::Global;
use std::process::Abort;
use std::sync::Wait;
use std::test::Fail;
use std::thread::Threads;

/// Finds no memory at the index `starved`, and is refused at `refused`.
#[derive(Drop)]
struct Starving {
    starved: u32,
    refused: u32,
}

impl Job for Starving {
    type Local = ();

    type Out = u32;

    type Fault = u32;

    ghost use Rattle.std.specs.Prelude.{◌≡◌, ◌≢◌, ◌^◌};
    ghost use Rattle.unit_tests.specs.TestJobs.{same_fault};

    ghost limit = { λ j. 2 ^ 32 };

    ghost belongs = { λ j l. Unit {0} };

    ghost passes = { λ j i. i ≢ j.refused };

    ghost gives = { λ j i o. o ≡ i };

    ghost refuses = { λ j i f. (i ≡ j.refused) × (f ≡ i) };

    fn run<R: Wait>(&self, _rt: &R, _local: &mut (), index: u32) -> Result<u32, JobFault<u32>> {
        if index == self.starved {
            return Err(JobFault::Memory);
        }
        if index == self.refused {
            return Err(JobFault::Refused(index));
        }
        Ok(index)
    }

    ghost never_both = { λ j i f p r. p r.0 };

    ghost one_fault = { λ j i f g r s. same_fault i f g r.1 s.1 };
}

/// Out of memory below a refusal is the answer, and above it is not.
fn answers_the_first_of_both<R: Threads + Wait + Abort + Sync>(
    rt: &R,
    alloc: Global,
    plan: Plan,
) -> Result<(), Fail> {
    let below = Starving {
        starved: 3,
        refused: 900,
    };
    let outs = try_all(rt, alloc, &below, units(alloc, plan.workers())?, 1000, plan);
    assert!(rt; matches!(outs, Err(TryFault::Memory)));
    let above = Starving {
        starved: 900,
        refused: 3,
    };
    match try_all(rt, alloc, &above, units(alloc, plan.workers())?, 1000, plan) {
        Err(TryFault::Stopped { index, fault }) => assert_eq!(rt; (index, fault), (3, 3)),
        _ => panic!(rt; "not stopped"),
    }
    Ok(())
}

#[test]
fn want_of_memory_in_a_job_is_the_answer(rt: HostRuntime) -> Result<(), Fail> {
    for workers in [1, 2, 8, 64] {
        for piece in [1, 7, 65_535] {
            let plan = Plan::new(workers, piece).ok_or("plan")?;
            answers_the_first_of_both(&rt, rt.alloc(), plan)?;
        }
    }
    Ok(())
}
