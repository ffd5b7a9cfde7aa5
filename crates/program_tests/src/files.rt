//! The program over a source and writers in memory.
mod answers;
mod reads;
mod writes;

use program::{ReadFault, Reason, Source, run};
use std::alloc::{AllocError, Global};
use std::io;
use std::io::{ErrorKind, Read, Write};
use std::sync::Wait;
use std::thread::Threads;

/// A module as `x.wasm`, and calls as `x.calls` and on standard input; or out of memory at each read.
#[derive(Clone, Copy)]
struct HeldFiles<'a> {
    module: &'a [u8],
    calls: &'a [u8],
    has_memory: bool,
}

impl<'a> HeldFiles<'a> {
    fn new(module: &'a [u8], calls: &'a [u8]) -> HeldFiles<'a> {
        HeldFiles {
            module,
            calls,
            has_memory: true,
        }
    }
}

impl<'a> Source for HeldFiles<'a> {
    fn read(&mut self, alloc: Global, path: &str, most: usize) -> Result<Vec<u8>, ReadFault> {
        let bytes = match path {
            "x.wasm" => self.module,
            "x.calls" | "/dev/stdin" => self.calls,
            _ => return Err(ReadFault::Unreadable(Reason::Missing)),
        };
        if !self.has_memory {
            return Err(ReadFault::Memory);
        }
        let front = &bytes[..bytes.len().min(most)];
        front.to_vec(alloc).map_err(|_| ReadFault::Memory)
    }

    type File = Given<'a>;

    fn open(&mut self, path: &str) -> Result<Given<'a>, ReadFault> {
        match path {
            "x.calls" | "/dev/stdin" if self.has_memory => Ok(Given(self.calls)),
            "x.calls" | "/dev/stdin" => Err(ReadFault::Memory),
            _ => Err(ReadFault::Unreadable(Reason::Missing)),
        }
    }

    fn list(&mut self, alloc: Global, path: &str) -> Result<Vec<String>, AllocError> {
        Ok(vec![in alloc; String::from_str(alloc, path)?]?)
    }
}

/// Gives the bytes three a read.
#[derive(Drop)]
struct Given<'a>(&'a [u8]);

impl Read for Given<'_> {
    fn read(&mut self, buf: &mut [u8]) -> io::Result<usize> {
        let count = buf.len().min(self.0.len()).min(3);
        let (front, rest) = self.0.split_at(count);
        buf[..count].copy_from_slice(front);
        self.0 = rest;
        Ok(count)
    }
}

/// Takes `at_once` bytes a write, `room` in all, and then fails. Its flush may fail too.
#[derive(Drop)]
struct Screen {
    shown: Vec<u8>,
    at_once: usize,
    room: usize,
    flushes: bool,
}

impl Screen {
    fn new(alloc: Global, at_once: usize, room: usize, flushes: bool) -> Screen {
        Screen {
            shown: Vec::new(alloc),
            at_once,
            room,
            flushes,
        }
    }

    fn wide(alloc: Global) -> Screen {
        Screen::new(alloc, 100_000, 100_000, true)
    }
}

impl Write for Screen {
    fn write(&mut self, buf: &[u8]) -> io::Result<usize> {
        let count = buf.len().min(self.at_once).min(self.room);
        if count == 0 {
            return Err(io::Error::from(ErrorKind::BrokenPipe));
        }
        self.shown.extend_from_slice(&buf[..count])?;
        self.room -= count;
        Ok(count)
    }

    fn flush(&mut self) -> io::Result<()> {
        if self.flushes {
            Ok(())
        } else {
            Err(io::Error::from(ErrorKind::BrokenPipe))
        }
    }
}

const HEADER: [u8; 8] = [0x00, 0x61, 0x73, 0x6D, 0x01, 0x00, 0x00, 0x00];

/// The status of words over a source that has the header as its module, and no calls.
fn status_of<R: Threads + Wait + Sync>(
    rt: &R,
    alloc: Global,
    words: &[&str],
    out: &mut Screen,
    err: &mut Screen,
) -> u8 {
    let mut source = HeldFiles::new(&HEADER, &[]);
    run(rt, alloc, words, &mut source, out, err)
}
