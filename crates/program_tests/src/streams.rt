//! Streams of calls in pieces of every size, on one worker and on several, with bad lines and writers that fail.
use batch::{Status, StreamFault, answer, stream};
use pieces::{Plan, Quiet};
use std::alloc::Global;
use std::io;
use std::io::{ErrorKind, Read, Write};
use std::process::Abort;
use std::sync::Wait;
use std::test::Fail;
use std::thread::Threads;
use verdict::judge_alone;
use wstore::Settings;

/// Gives a text, `at_once` bytes a read. Every other read is interrupted, and where the text is at its end it may fail.
#[derive(Drop)]
struct Slow<'a> {
    text: &'a [u8],
    at_once: usize,
    interrupted: bool,
    fails: bool,
}

impl Read for Slow<'_> {
    fn read(&mut self, buf: &mut [u8]) -> io::Result<usize> {
        self.interrupted = !self.interrupted;
        if self.interrupted {
            return Err(io::Error::from(ErrorKind::Interrupted));
        }
        let count = buf.len().min(self.at_once).min(self.text.len());
        if count == 0 && self.fails {
            return Err(io::Error::from(ErrorKind::BrokenPipe));
        }
        let (front, rest) = self.text.split_at(count);
        buf[..count].copy_from_slice(front);
        self.text = rest;
        Ok(count)
    }
}

/// Holds what it takes, `room` bytes in all, and counts how often it was flushed.
#[derive(Drop)]
struct BoundedOutput {
    bytes: Vec<u8>,
    room: usize,
    flushes: u32,
}

impl BoundedOutput {
    fn new(alloc: Global, room: usize) -> BoundedOutput {
        BoundedOutput {
            bytes: Vec::new(alloc),
            room,
            flushes: 0,
        }
    }
}

impl Write for BoundedOutput {
    fn write(&mut self, buf: &[u8]) -> io::Result<usize> {
        let count = buf.len().min(self.room);
        if count == 0 {
            return Err(io::Error::from(ErrorKind::BrokenPipe));
        }
        self.bytes.extend_from_slice(&buf[..count])?;
        self.room -= count;
        Ok(count)
    }

    fn flush(&mut self) -> io::Result<()> {
        self.flushes = self.flushes.wrapping_add(1);
        Ok(())
    }
}

/// (func (export "add") (param i32 i32) (result i32) (i32.add (local.get 0) (local.get 1)))
const ADD: &[u8] = b"\0asm\x01\0\0\0\
    \x01\x07\x01\x60\x02\x7f\x7f\x01\x7f\
    \x03\x02\x01\0\
    \x07\x07\x01\x03add\0\0\
    \x0a\x09\x01\x07\0\x20\0\x20\x01\x6a\x0b";

const ROOM: usize = 10_000_000;

/// What is written for calls that come `at_once` bytes a read.
fn streamed<R: AllocGlobal + Threads + Wait + Abort + Sync>(
    rt: &R,
    calls: &[u8],
    at_once: usize,
    workers: u32,
    fails: bool,
    room: usize,
) -> Result<(BoundedOutput, Result<Status, StreamFault>), Fail> {
    let alloc = rt.alloc();
    let accepted = judge_alone(alloc, ADD).ok().ok_or("accepted")?;
    let settings = Settings::new(10, 100, 1).ok_or("settings")?;
    let plan = Plan::new(workers, 16).ok_or("plan")?;
    let mut reader = Slow {
        text: calls,
        at_once,
        interrupted: false,
        fails,
    };
    let mut out = BoundedOutput::new(alloc, room);
    let status = stream(rt, alloc, &accepted, &mut reader, settings, plan, &mut out);
    Ok((out, status))
}

/// The report of the whole text at once.
fn reported<R: AllocGlobal + Threads + Wait + Abort + Sync>(
    rt: &R,
    calls: &[u8],
) -> Result<Vec<u8>, Fail> {
    let settings = Settings::new(10, 100, 1).ok_or("settings")?;
    let plan = Plan::new(2, 16).ok_or("plan")?;
    let mut out = BoundedOutput::new(rt.alloc(), ROOM);
    answer(rt, rt.alloc(), ADD, calls, settings, plan, &Quiet, &mut out)?;
    Ok(out.bytes)
}

/// Calls of every kind, that many of them.
fn calls_text<R: AllocGlobal>(rt: &R, count: u32) -> Result<Vec<u8>, Fail> {
    let mut text = Vec::new(rt.alloc());
    for index in 0..count {
        let line: &[u8] = match index % 5 {
            0 => b"add\ti32:1\ti32:2\n",
            1 => b"add\ti32:7\n",
            2 => b"\n",
            3 => b"no\ti64:-9223372036854775808\n",
            _ => b"add\ti32:-1\ti32:-2147483648\n",
        };
        text.extend_from_slice(line)?;
    }
    Ok(text)
}

#[test]
fn a_stream_is_answered_as_its_text(rt: HostRuntime) -> Result<(), Fail> {
    for count in [0, 1, 2, 33] {
        let calls = calls_text(&rt, count)?;
        let whole = reported(&rt, &calls)?;
        for (at_once, workers) in [(1, 1), (1, 4), (7, 1), (7, 4), (100_000, 1), (100_000, 4)] {
            let (out, status) = streamed(&rt, &calls, at_once, workers, false, ROOM)?;
            assert!(rt; status == Ok(Status::Good));
            assert_eq!(rt; out.bytes.as_slice(), whole.as_slice());
        }
    }
    Ok(())
}

/// More bytes than are read at once, and more calls than a round has.
#[test]
fn a_long_stream_is_answered_as_its_text(rt: HostRuntime) -> Result<(), Fail> {
    let calls = calls_text(&rt, 60_000)?;
    let whole = reported(&rt, &calls)?;
    let (out, status) = streamed(&rt, &calls, 1_000_000, 3, false, ROOM)?;
    assert!(rt; status == Ok(Status::Good));
    assert_eq!(rt; out.bytes.as_slice(), whole.as_slice());
    Ok(())
}

#[test]
fn the_calls_before_a_bad_line_are_answered(rt: HostRuntime) -> Result<(), Fail> {
    for (calls, text) in [
        (
            "add\ti32:1\ti32:2\n\nadd\ti32:01\nno\n",
            "0 values i32:3 fuel 1\n1 no-export\ncalls line 3 refused\n",
        ),
        ("add", "calls line 1 refused\n"),
        ("no\nadd", "0 no-export\ncalls line 2 refused\n"),
        ("\tx\nno\n", "calls line 1 refused\n"),
        (
            "no\nno\nno\nno\nno\n\t\n\t\n",
            "0 no-export\n1 no-export\n2 no-export\n3 no-export\n4 no-export\ncalls line 6 refused\n",
        ),
    ] {
        for (at_once, workers) in [(1, 1), (7, 2), (100_000, 4)] {
            let (out, status) = streamed(&rt, calls.as_bytes(), at_once, workers, false, ROOM)?;
            assert!(rt; status == Ok(Status::CallsRefused));
            assert_eq!(rt; out.bytes.as_slice(), text.as_bytes());
        }
    }
    Ok(())
}

/// A short line, and one of that many bytes with this behind it.
fn long_line<R: AllocGlobal>(rt: &R, bytes: usize, end: &[u8]) -> Result<Vec<u8>, Fail> {
    let mut calls = Vec::new(rt.alloc());
    calls.extend_from_slice(b"b\n")?;
    calls.extend_from_slice(&vec![in rt.alloc(); b'a'; bytes]?)?;
    calls.extend_from_slice(end)?;
    Ok(calls)
}

/// As many bytes with the newline as a text of calls may have are good.
#[test]
fn a_long_line_is_answered(rt: HostRuntime) -> Result<(), Fail> {
    let calls = long_line(&rt, 4_194_303, b"\n\n")?;
    let (out, status) = streamed(&rt, &calls, 100_000, 2, false, ROOM)?;
    assert!(rt; status == Ok(Status::Good));
    assert_eq!(rt;
        out.bytes.as_slice(),
        "0 no-export\n1 no-export\n2 no-export\n\
        total 3 values 0 traps 0 exhausted 0 refused 3 no-memory 0 fuel 0\n"
            .as_bytes()
    );
    Ok(())
}

/// One more is too many, with a newline or without.
#[test]
fn a_longer_line_is_refused(rt: HostRuntime) -> Result<(), Fail> {
    for end in ["", "\n", "\n\n"] {
        let calls = long_line(&rt, 4_194_304, end.as_bytes())?;
        let (out, status) = streamed(&rt, &calls, 100_000, 2, false, ROOM)?;
        assert!(rt; status == Ok(Status::CallsRefused));
        assert_eq!(rt;
            out.bytes.as_slice(),
            "0 no-export\ncalls line 2 refused\n".as_bytes()
        );
    }
    Ok(())
}

#[test]
fn a_failed_read_leaves_whole_lines(rt: HostRuntime) -> Result<(), Fail> {
    let (out, status) = streamed(&rt, b"no\nadd\ti32:1\nad", 4, 2, true, ROOM)?;
    assert!(rt; status == Err(StreamFault::Read));
    assert_eq!(rt;
        out.bytes.as_slice(),
        "0 no-export\n1 bad-arguments\n".as_bytes()
    );
    Ok(())
}

#[test]
fn a_failed_write_leaves_a_beginning_of_a_stream(rt: HostRuntime) -> Result<(), Fail> {
    let calls = calls_text(&rt, 3)?;
    let whole = reported(&rt, &calls)?;
    for room in 0..whole.len() {
        let (out, status) = streamed(&rt, &calls, 100, 2, false, room)?;
        assert!(rt; status == Err(StreamFault::Write));
        assert_eq!(rt; out.bytes.as_slice(), &whole[..room]);
    }
    Ok(())
}

/// A line that comes alone is answered before the next is read.
#[test]
fn each_round_is_flushed(rt: HostRuntime) -> Result<(), Fail> {
    let (out, _) = streamed(&rt, b"no\nno\nno\n", 3, 4, false, ROOM)?;
    assert_eq!(rt; out.flushes, 4);
    Ok(())
}
