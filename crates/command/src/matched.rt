//! What the matched words give.
ghost use Rattle.std.specs.Prelude.{◌≡◌, IfOk, IfSome, codes, map};
ghost use Rattle.command.specs.Options.{SaysLimits, SaysPlan};
ghost use Rattle.command.specs.Requests.{IsRequestOf, first_word};

use crate::commands::{
    FRAMES_DEFAULT, FUEL_DEFAULT, PAGES_DEFAULT, PIECE_DEFAULT, WORKERS_DEFAULT,
};
use crate::fault::{WordsFault, usage};
use crate::names::{file_names, input_path, is_list, says_flag};
use crate::option_values::option_number;
use crate::request::Request;
use crate::words::{contains_word, find_word, first_word};
use clap::ArgMatches;
use pieces::Plan;
use std::alloc::Global;
use wstore::Settings;

/// What is matched of the command with this name, where that is the first word. The program has no option of its own that
/// could stand before it.
fn command_matches<'m, 'a>(
    words: &[&str],
    matches: &'m ArgMatches<'a>,
    name: &str,
) -> Option<&'m ArgMatches<'a>>
    ensures { IfSome result (λ m. first_word (map (λ w. w.now) words.now) ≡ name.now) }
{
    if first_word(words) == name {
        matches.subcommand_matches(name)
    } else {
        None
    }
}

/// The file and the plan that `gate check` is given.
pub fn check_of<'a>(words: &'a [&'a str], matches: &ArgMatches<'a>) -> Option<Request<'a>>
    ensures { IfSome result (IsRequestOf (map (λ w. w.now) words.now)) }
{
    let matches = command_matches(words, matches, "check")?;
    let module = find_word(words, 1, matches.get_str("module")?)?;
    let plan = plan_of(words)?;
    Some(Request::Check {
        path: words[module],
        plan,
    })
}

/// The names and the plan that `gate check-all` is given: `None` where the words are no such command.
pub fn check_all_of<'a>(
    alloc: Global,
    words: &'a [&'a str],
    matches: &ArgMatches<'a>,
) -> Option<Result<Request<'a>, WordsFault>>
    ensures { IfSome result (λ r. IfOk r (IsRequestOf (map (λ w. w.now) words.now))) }
{
    let _ = command_matches(words, matches, "check-all")?;
    let plan = plan_of(words)?;
    Some(check_many(alloc, words, plan))
}

/// What files to check, by this plan.
fn check_many<'a>(
    alloc: Global,
    words: &'a [&'a str],
    plan: Plan,
) -> Result<Request<'a>, WordsFault>
    requires command { first_word (map (λ w. w.now) words.now) ≡ codes "check-all" }
    requires plan { SaysPlan (map (λ w. w.now) words.now) plan.workers plan.piece }
    ensures { IfOk result (IsRequestOf (map (λ w. w.now) words.now)) }
{
    let folders = says_flag(words, "--recursive", b'r');
    let names = file_names(alloc, words).map_err(|_| WordsFault::Memory)?;
    if is_list(names.as_slice()) {
        let is_null = says_flag(words, "--null", b'0');
        return Ok(Request::CheckListed {
            is_null,
            folders,
            plan,
        });
    }
    if contains_word(names.as_slice(), "-") {
        return Err(usage(alloc, "error: '-' is given beside other names\n"));
    }
    Ok(Request::CheckAll {
        names,
        folders,
        plan,
    })
}

/// The file that `gate exports` is given.
pub fn exports_of<'a>(words: &'a [&'a str], matches: &ArgMatches<'a>) -> Option<Request<'a>>
    ensures { IfSome result (IsRequestOf (map (λ w. w.now) words.now)) }
{
    let matches = command_matches(words, matches, "exports")?;
    let module = find_word(words, 1, matches.get_str("module")?)?;
    let path = input_path(words[module]);
    Some(Request::Exports { path })
}

/// The files that `gate explain` is given: of a module, and perhaps of calls.
pub fn explain_of<'a>(words: &'a [&'a str], matches: &ArgMatches<'a>) -> Option<Request<'a>>
    ensures { IfSome result (IsRequestOf (map (λ w. w.now) words.now)) }
{
    let matches = command_matches(words, matches, "explain")?;
    let module = find_word(words, 1, matches.get_str("module")?)?;
    let json = says_flag(words, "--json", b'j');
    let Some(text) = matches.get_str("calls") else {
        return Some(Request::Explain {
            path: input_path(words[module]),
            json,
        });
    };
    let second = find_word(words, module + 1, text)?;
    Some(Request::ExplainCalls {
        path: input_path(words[module]),
        calls: words[second],
        json,
    })
}

/// The files, the limits and the plan that `gate run` is given.
pub fn run_of<'a>(words: &'a [&'a str], matches: &ArgMatches<'a>) -> Option<Request<'a>>
    ensures { IfSome result (IsRequestOf (map (λ w. w.now) words.now)) }
{
    let matches = command_matches(words, matches, "run")?;
    let module = find_word(words, 1, matches.get_str("module")?)?;
    let calls = find_word(words, module + 1, matches.get_str("calls")?)?;
    let settings = settings_of(words)?;
    let plan = plan_of(words)?;
    Some(Request::Run {
        path: words[module],
        calls: words[calls],
        settings,
        plan,
    })
}

/// The files, the limits and the plan that `gate stream` is given: standard input for calls that have no file.
pub fn stream_of<'a>(words: &'a [&'a str], matches: &ArgMatches<'a>) -> Option<Request<'a>>
    ensures { IfSome result (IsRequestOf (map (λ w. w.now) words.now)) }
{
    let matches = command_matches(words, matches, "stream")?;
    let module = find_word(words, 1, matches.get_str("module")?)?;
    let settings = settings_of(words)?;
    let plan = plan_of(words)?;
    let Some(text) = matches.get_str("calls") else {
        return Some(Request::Stream {
            path: words[module],
            calls: "/dev/stdin",
            settings,
            plan,
        });
    };
    let streamed = find_word(words, module + 1, text)?;
    Some(Request::Stream {
        path: words[module],
        calls: input_path(words[streamed]),
        settings,
        plan,
    })
}

/// How many threads, and how much each takes at once.
fn plan_of(words: &[&str]) -> Option<Plan>
    ensures { IfSome result (λ p. SaysPlan (map (λ w. w.now) words.now) p.workers p.piece) }
{
    let workers = option_number(words, "workers", WORKERS_DEFAULT)?;
    let piece = option_number(words, "piece", PIECE_DEFAULT)?;
    Plan::new(workers, piece)
}

/// The limits of each call.
fn settings_of(words: &[&str]) -> Option<Settings>
    ensures { IfSome result (λ s. SaysLimits (map (λ w. w.now) words.now) s.fuel s.frames s.pages) }
{
    let fuel = option_number(words, "fuel", FUEL_DEFAULT)?;
    let frames = option_number(words, "frames", FRAMES_DEFAULT)?;
    let pages = option_number(words, "pages", PAGES_DEFAULT)?;
    Settings::new(fuel, frames, pages)
}
