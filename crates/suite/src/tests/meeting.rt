//! Two bodies and two calls are at work at once. Where one worker does both, or a loop without workers, none sees the
//! other come while it is there itself.
use crate::judges::found;
use crate::longer::lengthened;
use batch::{Call, Plan, Quiet, Settings, Status, Watch, answer, read_calls, run_batch};
use pieces::Stage;
use std::alloc::Global;
use std::process::Abort;
use std::sync::Wait;
use std::sync::atomic::{AtomicBool, Ordering};
use std::test::Fail;
use std::thread;
use std::thread::Threads;
use verdict::{Accepted, BodyRefusal, Refusal, judge};

/// (module (func (export "f")) (func))
const ACCEPTED: &[u8] = b"\0asm\x01\0\0\0\
    \x01\x04\x01\x60\0\0\
    \x03\x03\x02\0\0\
    \x07\x05\x01\x01f\0\0\
    \x0a\x07\x02\x02\0\x0b\x02\0\x0b";

/// (module (memory 1)
///   (func (export "a") (param i32) (result i32) local.get 0 i32.load)
///   (func (export "b") (param i32) (result i32) local.get 0 i32.load offset=4294967295))
const LOADS: &[u8] = b"\0asm\x01\0\0\0\
    \x01\x06\x01\x60\x01\x7f\x01\x7f\
    \x03\x03\x02\0\0\
    \x05\x03\x01\0\x01\
    \x07\x09\x02\x01a\0\0\x01b\0\x01\
    \x0a\x15\x02\x07\0\x20\0\x28\x02\0\x0b\x0b\0\x20\0\x28\x02\xff\xff\xff\xff\x0f\x0b";

/// (module (func (export "f")) (func drop))
const REFUSED: &[u8] = b"\0asm\x01\0\0\0\
    \x01\x04\x01\x60\0\0\
    \x03\x03\x02\0\0\
    \x07\x05\x01\x01f\0\0\
    \x0a\x08\x02\x02\0\x0b\x03\0\x1a\x0b";

const ACCEPTANCE: Result<(), Refusal> = Ok(());

const REFUSAL: Result<(), Refusal> = Err(Refusal::Body {
    func: 1,
    refusal: BodyRefusal::IllTyped { at: 0 },
});

/// How often an index looks for the other before it gives up.
const TURNS: u32 = 2_000;

/// How often a run is tried before a test gives up.
const TRIES: u32 = 10_000;

/// Whether an index arrived, and whether it saw that the other one had.
#[derive(Drop)]
struct Visitor {
    arrived: AtomicBool,
    saw: AtomicBool,
}

impl Visitor {
    fn new() -> Visitor {
        Visitor {
            arrived: AtomicBool::new(false),
            saw: AtomicBool::new(false),
        }
    }

    fn look_for(&self, other: &Visitor) {
        self.arrived.store(true, Ordering::SeqCst);
        for _ in 0..TURNS {
            if other.arrived.load(Ordering::SeqCst) {
                self.saw.store(true, Ordering::SeqCst);
                return;
            }
            thread::yield_now();
        }
    }
}

/// The indices 0 and 1 of a stage.
#[derive(Drop)]
struct Pair {
    first: Visitor,
    second: Visitor,
}

impl Pair {
    fn new() -> Pair {
        Pair {
            first: Visitor::new(),
            second: Visitor::new(),
        }
    }

    fn visit(&self, index: u32) {
        match index {
            0 => self.first.look_for(&self.second),
            1 => self.second.look_for(&self.first),
            _ => {}
        }
    }

    /// Each came before the other had given up, so both were inside at once.
    fn has_met(&self) -> bool {
        self.first.saw.load(Ordering::SeqCst) && self.second.saw.load(Ordering::SeqCst)
    }
}

/// Sees whether two bodies and two calls meet.
#[derive(Drop)]
struct Meeting {
    bodies: Pair,
    calls: Pair,
}

impl Meeting {
    fn new() -> Meeting {
        Meeting {
            bodies: Pair::new(),
            calls: Pair::new(),
        }
    }
}

impl Watch for Meeting {
    fn note(&self, stage: Stage, index: u32) {
        match stage {
            Stage::Body => self.bodies.visit(index),
            Stage::Call => self.calls.visit(index),
        }
    }

    fn lent(&self, _call: u32, _bytes: usize) {}
}

/// The judge that keeps the bodies, or the one that keeps nothing.
fn judged_bodies_meet<R: Threads + Wait + Abort + Sync>(
    rt: &R,
    alloc: Global,
    module: &[u8],
    verdict: Result<(), Refusal>,
    keeps: bool,
) -> Result<(), Fail> {
    let plan = Plan::new(2, 1).ok_or("plan")?;
    let module = lengthened(alloc, module)?;
    for _ in 0..TRIES {
        let meeting = Meeting::new();
        assert_eq!(rt; found(rt, alloc, &module, plan, &meeting, keeps), verdict);
        if meeting.bodies.has_met() {
            return Ok(());
        }
    }
    panic!(rt; "no two bodies were judged at once")
}

#[test]
fn two_bodies_are_judged_at_once(rt: HostRuntime) -> Result<(), Fail> {
    for keeps in [true, false] {
        judged_bodies_meet(&rt, rt.alloc(), ACCEPTED, ACCEPTANCE, keeps)?;
        judged_bodies_meet(&rt, rt.alloc(), REFUSED, REFUSAL, keeps)?;
    }
    Ok(())
}

/// Answers two calls of two bodies.
fn meeting_of_answer<R: Threads + Wait + Abort + Sync>(
    rt: &R,
    alloc: Global,
    module: &[u8],
    piece: u32,
) -> Result<Meeting, Fail> {
    let plan = Plan::new(2, piece).ok_or("plan")?;
    let settings = Settings::new(10, 1, 1).ok_or("settings")?;
    let meeting = Meeting::new();
    let mut text = Vec::new(alloc);
    let status = answer(
        rt,
        alloc,
        module,
        b"a\ti32:0\nb\ti32:1\n",
        settings,
        plan,
        &meeting,
        &mut text,
    )?;
    assert!(rt; status == Status::Good);
    Ok(meeting)
}

#[test]
fn two_bodies_and_two_calls_of_an_answer_meet(rt: HostRuntime) -> Result<(), Fail> {
    let module = lengthened(rt.alloc(), LOADS)?;
    let (mut bodies_met, mut calls_met) = (false, false);
    for _ in 0..TRIES {
        let meeting = meeting_of_answer(&rt, rt.alloc(), &module, 1)?;
        bodies_met = bodies_met || meeting.bodies.has_met();
        calls_met = calls_met || meeting.calls.has_met();
        if bodies_met && calls_met {
            return Ok(());
        }
    }
    panic!(rt; "bodies met: {bodies_met}, calls met: {calls_met}")
}

/// Few calls are shared among the workers, whatever the piece.
#[test]
fn two_calls_of_one_piece_are_run_at_once(rt: HostRuntime) -> Result<(), Fail> {
    for _ in 0..TRIES {
        if meeting_of_answer(&rt, rt.alloc(), LOADS, 16)?
            .calls
            .has_met()
        {
            return Ok(());
        }
    }
    panic!(rt; "no two calls were run at once")
}

/// Runs a batch on two workers.
fn meeting_of_batch<R: Threads + Wait + Abort + Sync>(
    rt: &R,
    alloc: Global,
    accepted: &Accepted<'_>,
    calls: &[Call<'_>],
) -> Result<Meeting, Fail> {
    let plan = Plan::new(2, 1).ok_or("plan")?;
    let settings = Settings::new(10, 1, 0).ok_or("settings")?;
    let meeting = Meeting::new();
    let lines = run_batch(rt, alloc, accepted, calls, settings, plan, &meeting)?;
    assert_eq!(rt; lines.len(), calls.len());
    Ok(meeting)
}

#[test]
fn two_calls_of_a_batch_are_run_at_once(rt: HostRuntime) -> Result<(), Fail> {
    let plan = Plan::new(2, 1).ok_or("plan")?;
    let accepted = judge(&rt, rt.alloc(), ACCEPTED, plan, &Quiet)?;
    let calls = read_calls(rt.alloc(), b"f\nf\n")?;
    for _ in 0..TRIES {
        if meeting_of_batch(&rt, rt.alloc(), &accepted, &calls)?
            .calls
            .has_met()
        {
            return Ok(());
        }
    }
    panic!(rt; "no two calls of a batch were run at once")
}
