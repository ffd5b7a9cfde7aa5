//! Reading of the words.
ghost use Rattle.std.specs.Prelude.{IfOk, IsTrue, map};
ghost use Rattle.command.specs.Requests.{AsksHelp, AsksVersion, IsRequestOf};

use crate::commands::gate_command;
use crate::fault::{WordsFault, usage};
use crate::matched::{check_all_of, check_of, explain_of, exports_of, run_of, stream_of};
use crate::option_values::option_words;
use crate::request::Request;
use crate::words::{begins_with, contains_front, contains_word, first_word};
use clap::error::ErrorKind;
use clap::{ArgMatches, Error};
use std::alloc::Global;

/// What a mistake in the words of `gate check` ends with.
const MANY: &str = "To check many files: gate check-all NAME..\n";

/// Reads the words that follow the program's name.
pub fn read_words<'a>(alloc: Global, words: &'a [&'a str]) -> Result<Request<'a>, WordsFault>
    ensures request { IfOk result (IsRequestOf (map (λ w. w.now) words.now)) }
{
    let command = gate_command(alloc).map_err(|_| WordsFault::Memory)?;
    match command.try_get_matches_from(words) {
        Ok(matches) => request_of(alloc, words, &matches),
        Err(error) => answer_of(alloc, words, &error),
    }
}

/// What the matched words ask for.
fn request_of<'a>(
    alloc: Global,
    words: &'a [&'a str],
    matches: &ArgMatches<'a>,
) -> Result<Request<'a>, WordsFault>
    ensures { IfOk result (IsRequestOf (map (λ w. w.now) words.now)) }
{
    if let Some(request) = check_of(words, matches) {
        return Ok(request);
    }
    if let Some(request) = check_all_of(alloc, words, matches) {
        return request;
    }
    if let Some(request) = explain_of(words, matches) {
        return Ok(request);
    }
    if let Some(request) = exports_of(words, matches) {
        return Ok(request);
    }
    if let Some(request) = run_of(words, matches) {
        return Ok(request);
    }
    match stream_of(words, matches) {
        Some(request) => Ok(request),
        None => Err(usage(alloc, "error: the words are no command\n")),
    }
}

/// Whether a word asks for help: `help` as the first one, or an option.
fn asks_help(words: &[&str]) -> bool
    ensures { IsTrue result → AsksHelp (map (λ w. w.now) words.now) }
{
    let options = option_words(words);
    first_word(words) == "help" || contains_word(options, "--help") || contains_front(options, "-h")
}

/// Whether the first word asks for the version.
fn asks_version(words: &[&str]) -> bool
    ensures { IsTrue result → AsksVersion (map (λ w. w.now) words.now) }
{
    let first = first_word(words);
    first == "--version" || begins_with(first, "-V")
}

/// A text that is asked for, or a mistake in the words.
fn answer_of<'a>(alloc: Global, words: &[&str], error: &Error) -> Result<Request<'a>, WordsFault>
    ensures { IfOk result (IsRequestOf (map (λ w. w.now) words.now)) }
{
    if matches!(error.kind(), ErrorKind::OutOfMemory) {
        return Err(WordsFault::Memory);
    }
    let mut text = error.to_string(alloc).map_err(|_| WordsFault::Memory)?;
    if error.use_stderr() {
        if first_word(words) == "check" {
            text.push_str(MANY).map_err(|_| WordsFault::Memory)?;
        }
        Err(WordsFault::Usage(text))
    } else if asks_help(words) || asks_version(words) {
        Ok(Request::Text(text))
    } else {
        Err(WordsFault::Usage(text))
    }
}
