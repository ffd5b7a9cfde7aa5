//! The lines word by word, writers that fail, take a byte at a time, or take none, and the memory of calls on one thread alone.
use batch::{
    AnswerFault, Status, answer, answer_on_alone, call_alone, verdict_line, write_verdict,
};
use batch_text::{read_calls, report};
use memory::CleanMem;
use pieces::{Plan, Quiet};
use std::alloc::Global;
use std::io;
use std::io::{ErrorKind, Write};
use std::process::Abort;
use std::sync::Wait;
use std::test::Fail;
use std::thread::Threads;
use verdict::{BodyRefusal, Refusal, judge_alone};
use wstore::Settings;

/// Holds what it takes: `at_once` bytes a write, `room` in all. Then it fails, or takes no byte.
#[derive(Drop)]
struct Narrow {
    held: Vec<u8>,
    at_once: usize,
    room: usize,
    fails: bool,
}

impl Narrow {
    fn new(alloc: Global, at_once: usize, room: usize, fails: bool) -> Narrow {
        Narrow {
            held: Vec::new(alloc),
            at_once,
            room,
            fails,
        }
    }
}

impl Write for Narrow {
    fn write(&mut self, buf: &[u8]) -> io::Result<usize> {
        let count = buf.len().min(self.at_once).min(self.room);
        if count == 0 && self.fails {
            return Err(io::Error::from(ErrorKind::BrokenPipe));
        }
        self.held.extend_from_slice(&buf[..count])?;
        self.room -= count;
        Ok(count)
    }

    fn flush(&mut self) -> io::Result<()> {
        Ok(())
    }
}

fn refused_body(func: u32, refusal: BodyRefusal) -> Result<(), Refusal> {
    Err(Refusal::Body { func, refusal })
}

#[test]
fn each_verdict_has_its_line(rt: HostRuntime) -> Result<(), Fail> {
    for (judged, line, status) in [
        (Ok(()), "accepted\n", Status::Good),
        (
            Err(Refusal::TooLarge),
            "refused too-large\n",
            Status::ModuleRefused,
        ),
        (
            Err(Refusal::Malformed),
            "refused malformed\n",
            Status::ModuleRefused,
        ),
        (
            Err(Refusal::Rule(13)),
            "refused rule 13\n",
            Status::ModuleRefused,
        ),
        (
            refused_body(0, BodyRefusal::Malformed),
            "refused body 0 malformed\n",
            Status::ModuleRefused,
        ),
        (
            refused_body(10, BodyRefusal::TooManyLocals),
            "refused body 10 too-many-locals\n",
            Status::ModuleRefused,
        ),
        (
            refused_body(4_294_967_295, BodyRefusal::IllTyped { at: 0 }),
            "refused body 4294967295 ill-typed at 0\n",
            Status::ModuleRefused,
        ),
    ] {
        assert_eq!(rt; verdict_line(rt.alloc(), judged)?.as_str(), line);
        for at_once in [1, 7, 100] {
            let mut out = Narrow::new(rt.alloc(), at_once, 100, true);
            assert!(rt; write_verdict(rt.alloc(), judged, &mut out)? == status);
            assert_eq!(rt; out.held.as_slice(), line.as_bytes());
        }
    }
    Ok(())
}

#[test]
fn a_failed_write_leaves_a_beginning(rt: HostRuntime) -> Result<(), Fail> {
    let line = b"refused body 3 ill-typed at 12\n";
    for room in 0..line.len() {
        for fails in [true, false] {
            let judged = refused_body(3, BodyRefusal::IllTyped { at: 12 });
            let mut out = Narrow::new(rt.alloc(), 4, room, fails);
            assert!(rt; write_verdict(rt.alloc(), judged, &mut out) == Err(AnswerFault::Write));
            assert_eq!(rt; out.held.as_slice(), &line[..room]);
        }
    }
    Ok(())
}

#[test]
fn without_memory_nothing_is_written(rt: HostRuntime) {
    let mut out = Narrow::new(rt.alloc(), 100, 100, true);
    assert!(rt;
        write_verdict(rt.alloc(), Err(Refusal::Memory), &mut out) == Err(AnswerFault::Memory)
    );
    assert!(rt; out.held.is_empty());
}

/// (func (export "add") (param i32 i32) (result i32) (i32.add (local.get 0) (local.get 1)))
const ADD: &[u8] = b"\0asm\x01\0\0\0\
    \x01\x07\x01\x60\x02\x7f\x7f\x01\x7f\
    \x03\x02\x01\0\
    \x07\x07\x01\x03add\0\0\
    \x0a\x09\x01\x07\0\x20\0\x20\x01\x6a\x0b";

/// (memory 1)
/// (func (export "next") (result i32)
///   (i32.store (i32.const 0) (i32.add (i32.load (i32.const 0)) (i32.const 1))) (i32.load (i32.const 0)))
const COUNTING: &[u8] = b"\0asm\x01\0\0\0\
    \x01\x05\x01\x60\0\x01\x7f\
    \x03\x02\x01\0\
    \x05\x03\x01\0\x01\
    \x07\x08\x01\x04next\0\0\
    \x0a\x16\x01\x14\0\x41\0\x41\0\x28\x02\0\x41\x01\x6a\x36\x02\0\x41\0\x28\x02\0\x0b";

/// The second call has the memory of the first, clean.
#[test]
fn calls_alone_have_one_memory_in_turn(rt: HostRuntime) -> Result<(), Fail> {
    let alloc = rt.alloc();
    let accepted = judge_alone(alloc, COUNTING).ok().ok_or("accepted")?;
    let settings = Settings::new(10, 100, 1).ok_or("settings")?;
    let text = b"next\nno\nnext\n";
    let mut lines = Vec::new(alloc);
    let mut clean = CleanMem::empty(alloc);
    for call in &read_calls(alloc, text)? {
        let (line, back) = call_alone(alloc, &accepted, call, settings, clean);
        lines.push(line)?;
        clean = back;
    }
    assert_eq!(rt; clean.len(), 65_536);
    let said = "0 values i32:1 fuel 1\n1 no-export\n2 values i32:1 fuel 1\n\
        total 3 values 2 traps 0 exhausted 0 refused 1 no-memory 0 fuel 2\n";
    assert_eq!(rt; report(alloc, &lines)?.as_str(), said);
    let answer = answer_on_alone(alloc, &accepted, text, settings)?;
    assert_eq!(rt; answer.text.as_str(), said);
    assert!(rt; answer.status == Status::Good);
    Ok(())
}

/// The answer to the call of `add` on 1 and 2.
const SUM: &[u8] = b"0 values i32:3 fuel 1\n\
    total 1 values 1 traps 0 exhausted 0 refused 0 no-memory 0 fuel 1\n";

fn answer_sum<R: AllocGlobal + Threads + Wait + Abort + Sync>(
    rt: &R,
    out: &mut Narrow,
) -> Result<Status, AnswerFault> {
    let plan = Plan::new(2, 1).expect(rt, "a plan");
    let settings = Settings::new(1, 1, 0).expect(rt, "settings");
    let calls = b"add\ti32:1\ti32:2\n";
    answer(rt, rt.alloc(), ADD, calls, settings, plan, &Quiet, out)
}

#[test]
fn an_answer_is_written_whole(rt: HostRuntime) {
    for at_once in [1, 7, 1_000] {
        let mut out = Narrow::new(rt.alloc(), at_once, SUM.len(), true);
        assert!(rt; answer_sum(&rt, &mut out) == Ok(Status::Good));
        assert_eq!(rt; out.held.as_slice(), SUM);
    }
}

#[test]
fn a_failed_write_leaves_a_beginning_of_the_answer(rt: HostRuntime) {
    for room in 0..SUM.len() {
        for fails in [true, false] {
            let mut out = Narrow::new(rt.alloc(), 4, room, fails);
            assert!(rt; answer_sum(&rt, &mut out) == Err(AnswerFault::Write));
            assert_eq!(rt; out.held.as_slice(), &SUM[..room]);
        }
    }
}
