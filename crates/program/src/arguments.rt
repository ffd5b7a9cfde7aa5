//! The program, on the arguments and the streams of its process.
use crate::disk::Disk;
use crate::fault::{ProgramFault, end};
use crate::obeying::run;
use crate::progress::ProgressWriter;
use crate::spreading::texts_of;
use command::{WordsFault, usage};
use std::env;
use std::io::{ErrorKind, Read, Write};
use std::rt::{Env, Files};
use std::sync::Wait;
use std::thread::Threads;

/// Runs the program on the words of the process, and answers its status. `told` hears how far it is, where the words ask for it.
pub fn run_process<
    R: Env + Files + AllocGlobal + Threads + Wait + Sync + Clone + Drop,
    I: Read + Copy,
    O: Write,
    E: Write,
    T: Write,
>(rt: &R, input: I, out: &mut O, err: &mut E, told: &mut T) -> u8 {
    let words = match words_of(rt) {
        Ok(words) => words,
        Err(fault) => return end(&ProgramFault::from(fault), err),
    };
    let texts = match texts_of(rt.alloc(), words.as_slice()) {
        Ok(texts) => texts,
        Err(_) => return end(&ProgramFault::Memory, err),
    };
    let (alloc, words) = (rt.alloc(), texts.as_slice());
    if !wants_progress(words) {
        return run(rt, alloc, words, &mut Disk { rt, input }, out, err);
    }
    let mut out = ProgressWriter::new(out, told);
    run(rt, alloc, words, &mut Disk { rt, input }, &mut out, err)
}

/// Whether a word before the first `--` asks to be told how far the program is.
fn wants_progress(words: &[&str]) -> bool {
    words
        .iter()
        .take_while(|word| **word != "--")
        .any(|word| *word == "--progress")
}

/// The words after the program's name.
fn words_of<R: Env + AllocGlobal>(rt: &R) -> Result<Vec<String>, WordsFault> {
    match env::args(rt) {
        Ok(args) => args
            .skip(1)
            .collect(rt.alloc())
            .map_err(|_| WordsFault::Memory),
        Err(error) if error.kind() == ErrorKind::OutOfMemory => Err(WordsFault::Memory),
        Err(_) => Err(usage(rt.alloc(), "error: the words are not UTF-8\n")),
    }
}
