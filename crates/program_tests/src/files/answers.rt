//! Writes that fail within an answer. What the answers are, the tables of the crate `suite` say, which go through the built
//! program.
use super::{HeldFiles, Screen, status_of};
use program::run;
use std::alloc::Global;
use std::sync::Wait;
use std::test::Fail;
use std::thread::Threads;

/// `f` branches back to its loop for ever.
const LOOPS: [u8; 36] = [
    0x00, 0x61, 0x73, 0x6D, 0x01, 0x00, 0x00, 0x00, 0x01, 0x04, 0x01, 0x60, 0x00, 0x00, 0x03, 0x02,
    0x01, 0x00, 0x07, 0x05, 0x01, 0x01, 0x66, 0x00, 0x00, 0x0A, 0x09, 0x01, 0x07, 0x00, 0x03, 0x40,
    0x0C, 0x00, 0x0B, 0x0B,
];

/// The report of one call of it with fuel 5.
const FIVE: &str =
    "0 out-of-fuel fuel 5\ntotal 1 values 0 traps 0 exhausted 1 refused 0 no-memory 0 fuel 5\n";

/// The status, and what both outputs got, of one call of `f` with these options.
fn looped<'a, R: Threads + Wait + Sync>(
    rt: &R,
    alloc: Global,
    options: &[&'a str],
    room: usize,
) -> Result<(u8, Screen, Screen), Fail> {
    let mut words: Vec<&'a str> = Vec::new(alloc);
    words.extend_from_slice(&["run", "x.wasm", "x.calls"])?;
    words.extend_from_slice(options)?;
    let mut source = HeldFiles::new(&LOOPS, b"f\n");
    let mut out = Screen::new(alloc, 7, room, true);
    let mut err = Screen::wide(alloc);
    let status = run(rt, alloc, words.as_slice(), &mut source, &mut out, &mut err);
    Ok((status, out, err))
}

#[test]
fn a_write_fails_within_a_report(rt: HostRuntime) -> Result<(), Fail> {
    for room in [0, 1, 20, FIVE.len() - 1] {
        let (status, out, err) = looped(&rt, rt.alloc(), &["--fuel", "5"], room)?;
        assert_eq!(rt; status, 74);
        assert_eq!(rt; out.shown.as_slice(), &FIVE.as_bytes()[..room]);
        assert_eq!(rt; err.shown.as_slice(), b"gate: write failed\n".as_slice());
    }
    Ok(())
}

#[test]
fn a_write_fails_within_a_verdict_line(rt: HostRuntime) {
    let words = ["check", "x.wasm"];
    for room in 0..9 {
        let mut out = Screen::new(rt.alloc(), 4, room, true);
        let mut err = Screen::wide(rt.alloc());
        let status = status_of(&rt, rt.alloc(), words.as_slice(), &mut out, &mut err);
        assert_eq!(rt; status, 74);
        assert_eq!(rt; out.shown.as_slice(), &b"accepted\n"[..room]);
        assert_eq!(rt; err.shown.as_slice(), b"gate: write failed\n".as_slice());
    }
}
