//! What a watch is told: each index of each stage once, and how much memory a call was lent.
use crate::longer::lengthened;
use batch::{Plan, Quiet, Settings, Status, Watch, answer, read_calls, run_batch};
use pieces::Stage;
use std::alloc::{AllocError, Global};
use std::process::Abort;
use std::sync::Wait;
use std::sync::atomic::{AtomicU64, Ordering};
use std::test::Fail;
use std::thread::Threads;
use verdict::{examine, judge};

/// A hundred empty functions of type [] -> [], the first of which is exported as "f".
fn hundred_bodies(alloc: Global) -> Result<Vec<u8>, AllocError> {
    let mut bytes = b"\0asm\x01\0\0\0\x01\x04\x01\x60\0\0\x03\x65\x64".to_vec(alloc)?;
    bytes.extend_from_slice(&[0; 100])?;
    bytes.extend_from_slice(b"\x07\x05\x01\x01f\0\0\x0a\xad\x02\x64")?;
    for _ in 0..100 {
        bytes.extend_from_slice(b"\x02\0\x0b")?;
    }
    lengthened(alloc, &bytes)
}

fn hundred_calls(alloc: Global) -> Result<Vec<u8>, AllocError> {
    let mut calls = Vec::new(alloc);
    for _ in 0..100 {
        calls.extend_from_slice(b"f\n")?;
    }
    Ok(calls)
}

/// How often each of a hundred indices was told, and how often another one.
#[derive(Drop)]
struct Tally {
    times: Vec<AtomicU64>,
    strays: AtomicU64,
}

impl Tally {
    fn new(alloc: Global) -> Result<Tally, AllocError> {
        let mut times = Vec::new(alloc);
        for _ in 0..100 {
            times.push(AtomicU64::new(0))?;
        }
        Ok(Tally {
            times,
            strays: AtomicU64::new(0),
        })
    }

    fn add(&self, index: u32) {
        let told = self.times.get(index as usize).unwrap_or(&self.strays);
        told.fetch_add(1, Ordering::SeqCst);
    }

    fn is_each(&self, wanted: u64) -> bool {
        self.strays.load(Ordering::SeqCst) == 0
            && self
                .times
                .iter()
                .all(|told| told.load(Ordering::SeqCst) == wanted)
    }
}

/// Counts what it is told.
#[derive(Drop)]
struct CountingWatch {
    bodies: Tally,
    calls: Tally,
}

impl CountingWatch {
    fn new(alloc: Global) -> Result<CountingWatch, AllocError> {
        Ok(CountingWatch {
            bodies: Tally::new(alloc)?,
            calls: Tally::new(alloc)?,
        })
    }
}

impl Watch for CountingWatch {
    fn note(&self, stage: Stage, index: u32) {
        match stage {
            Stage::Body => self.bodies.add(index),
            Stage::Call => self.calls.add(index),
        }
    }

    fn lent(&self, _call: u32, _bytes: usize) {}
}

/// The judge that keeps the bodies tells each once, and so does the one that keeps nothing.
fn judges_tell_each_once<R: Threads + Wait + Abort + Sync>(
    rt: &R,
    alloc: Global,
    plan: Plan,
) -> Result<(), Fail> {
    let module = hundred_bodies(alloc)?;
    let counting = CountingWatch::new(alloc)?;
    assert!(rt; judge(rt, alloc, &module, plan, &counting).is_ok());
    assert!(rt; counting.bodies.is_each(1));
    assert!(rt; examine(rt, alloc, &module, plan, &counting).is_ok());
    assert!(rt; counting.bodies.is_each(2) && counting.calls.is_each(0));
    Ok(())
}

/// An answer tells each body and each call once.
fn answer_tells_each_once<R: Threads + Wait + Abort + Sync>(
    rt: &R,
    alloc: Global,
    plan: Plan,
) -> Result<(), Fail> {
    let module = hundred_bodies(alloc)?;
    let calls = hundred_calls(alloc)?;
    let counting = CountingWatch::new(alloc)?;
    let settings = Settings::new(10, 1, 0).ok_or("settings")?;
    let mut text = Vec::new(alloc);
    let status = answer(
        rt, alloc, &module, &calls, settings, plan, &counting, &mut text,
    )?;
    assert!(rt; status == Status::Good);
    assert!(rt; counting.bodies.is_each(1) && counting.calls.is_each(1));
    Ok(())
}

#[test]
fn each_index_is_told_once(rt: HostRuntime) -> Result<(), Fail> {
    for workers in [1, 2, 8, 64] {
        for piece in [1, 7, 65_535] {
            let plan = Plan::new(workers, piece).ok_or("plan")?;
            judges_tell_each_once(&rt, rt.alloc(), plan)?;
            answer_tells_each_once(&rt, rt.alloc(), plan)?;
        }
    }
    Ok(())
}

/// (module (memory 1)
///   (func (export "s") (i32.store (i32.const 0) (i32.const 7)))
///   (func (export "l") (result i32) (i32.load (i32.const 0))))
const STORES: &[u8] = b"\0asm\x01\0\0\0\
    \x01\x08\x02\x60\0\0\x60\0\x01\x7f\
    \x03\x03\x02\0\x01\
    \x05\x03\x01\0\x01\
    \x07\x09\x02\x01s\0\0\x01l\0\x01\
    \x0a\x13\x02\x09\0\x41\0\x41\x07\x36\x02\0\x0b\x07\0\x41\0\x28\x02\0\x0b";

/// A number of bytes that no call is lent.
const UNTOLD: u64 = u64::MAX;

/// The bytes that the calls 0 and 1 were lent.
#[derive(Drop)]
struct Lending {
    first: AtomicU64,
    second: AtomicU64,
}

impl Lending {
    fn new() -> Lending {
        Lending {
            first: AtomicU64::new(UNTOLD),
            second: AtomicU64::new(UNTOLD),
        }
    }

    /// Nothing for the first, and the whole page of the first for the second.
    fn is_lent_on(&self) -> bool {
        self.first.load(Ordering::SeqCst) == 0
            && (65_536..UNTOLD).contains(&self.second.load(Ordering::SeqCst))
    }
}

impl Watch for Lending {
    fn note(&self, _stage: Stage, _index: u32) {}

    fn lent(&self, call: u32, bytes: usize) {
        let told = if call == 0 { &self.first } else { &self.second };
        told.store(bytes as u64, Ordering::SeqCst);
    }
}

#[test]
fn a_worker_lends_on_the_memory_of_a_call(rt: HostRuntime) -> Result<(), Fail> {
    let plan = Plan::new(1, 1).ok_or("plan")?;
    let settings = Settings::new(10, 1, 1).ok_or("settings")?;
    let lending = Lending::new();
    let mut text = Vec::new(rt.alloc());
    answer(
        &rt,
        rt.alloc(),
        STORES,
        b"s\nl\n",
        settings,
        plan,
        &lending,
        &mut text,
    )?;
    assert!(rt; lending.is_lent_on());
    Ok(())
}

#[test]
fn a_batch_lends_on_the_memory_of_a_call(rt: HostRuntime) -> Result<(), Fail> {
    let plan = Plan::new(1, 1).ok_or("plan")?;
    let settings = Settings::new(10, 1, 1).ok_or("settings")?;
    let lending = Lending::new();
    let accepted = judge(&rt, rt.alloc(), STORES, plan, &Quiet)?;
    let calls = read_calls(rt.alloc(), b"s\nl\n")?;
    run_batch(&rt, rt.alloc(), &accepted, &calls, settings, plan, &lending)?;
    assert!(rt; lending.is_lent_on());
    Ok(())
}
