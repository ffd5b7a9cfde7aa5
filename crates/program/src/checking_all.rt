//! Judging many files.
ghost use Rattle.std.specs.Prelude.{◌≡◌, ◌⊎◌, Err, ◌≤◌, ◌<◌, ℕ, List, [], ◌∷◌, IfOk, IfErr, length, map, take};
ghost use Rattle.std.specs.Io.KnownBytes.{Keeps};
ghost use Rattle.program.specs.Verdicts.{AreVerdicts};
ghost use Rattle.program.specs.FileLines.{AreJudgedLines, taken_bytes};
ghost use Rattle.program.specs.NameLists.{IsSpread};
ghost use Rattle.program.specs.ChecksAll.{BeginsBy, ChecksFiles, ChecksListed, ChecksNames, PrintsFiles, outcome_result};

use crate::fault::ProgramFault;
use crate::file_lines::{Lines, lines_of};
use crate::file_outcome::FileOutcome;
use crate::judging_all::judge_all;
use crate::name_list::{listed_names, name_end};
use crate::reading::read_file;
use crate::source::Source;
use crate::spreading::{spread, texts_of};
use crate::taking::{Taken, take_round};
use batch::{Plan, Status, write_text};
use std::alloc::{AllocError, Global};
use std::io::Write;
use std::sync::Wait;
use std::thread::Threads;
use verdict::Refusal;

/// More bytes of names than there is memory for.
const LIST_LIMIT: usize = 0x7FFF_FFFF_FFFF_FFF0;

/// How many files a round had, and what came of them.
#[derive(Clone, Copy)]
struct Round {
    count: usize,
    file_outcome: FileOutcome,
}

/// The verdict on each of what was read.
fn judge_taken<R: Threads + Wait + Sync>(
    rt: &R,
    alloc: Global,
    taken: &[Taken],
    plan: Plan,
) -> Result<Vec<Result<(), Refusal>>, AllocError>
    requires { length taken.now ≤ 4096 }
    ensures { IfOk result (λ judged. AreVerdicts (map taken_bytes taken.now) judged.items) }
{
    let mut modules: Vec<&[u8]> = Vec::with_capacity(alloc, taken.len())?;
    for one in taken {
        modules.push(one.bytes())?;
    }
    judge_all(rt, alloc, modules.as_slice(), plan)
}

/// The lines of these files, of which this was read.
fn judged_lines<R: Threads + Wait + Sync>(
    rt: &R,
    alloc: Global,
    names: &[&str],
    taken: &[Taken],
    plan: Plan,
) -> Result<Lines, AllocError>
    requires names { length names.now ≡ length taken.now }
    requires few { length taken.now ≤ 4096 }
    ensures { IfOk result (λ lines. AreJudgedLines (map (λ n. n.now) names.now) taken.now lines.text.items lines.file_outcome) }
{
    let judged = judge_taken(rt, alloc, taken, plan)?;
    lines_of(alloc, names, taken, judged.as_slice())
}

/// Reads files from the first on, judges them and writes their lines.
fn check_round<'a, R: Threads + Wait + Sync, S: Source, O: Write>(
    rt: &R,
    alloc: Global,
    names: &[&str],
    plan: Plan,
    source: &mut S,
    out: &mut O,
) -> Result<Round, ProgramFault<'a>>
    ensures printed { IfOk result (λ r. PrintsFiles (S.holds source.old) (take r.count (map (λ n. n.now) names.now))
        (S.asked source.old) (S.asked source.new)
        (O.contents out.old) (O.contents out.new) r.file_outcome) }
    ensures begun { IfErr result (BeginsBy (S.holds source.old) (map (λ n. n.now) names.now)
        (S.asked source.old) (S.asked source.new) (O.contents out.old) (O.contents out.new)) }
    ensures within { IfOk result (λ r. r.count ≤ length names.now) }
    ensures some { IfOk result (λ r. 0 < length names.now → 0 < r.count) }
    ensures same { (other : List ℕ) → S.holds source.new other ≡ S.holds source.old other }
{
    let taken = match take_round(alloc, names, source) {
        Ok(taken) => taken,
        Err(_) => return Err(ProgramFault::Memory),
    };
    let count = taken.len();
    let lines = match judged_lines(rt, alloc, &names[..count], taken.as_slice(), plan) {
        Ok(lines) => lines,
        Err(_) => return Err(ProgramFault::Memory),
    };
    match write_text(out, lines.text.as_slice()) {
        Ok(()) => Ok(Round {
            count,
            file_outcome: lines.file_outcome,
        }),
        Err(_) => Err(ProgramFault::Write),
    }
}

/// Judges these files round by round.
fn check_rounds<'a, R: Threads + Wait + Sync, S: Source, O: Write>(
    rt: &R,
    alloc: Global,
    names: &[&str],
    plan: Plan,
    source: &mut S,
    out: &mut O,
) -> Result<FileOutcome, ProgramFault<'a>>
    ensures printed { IfOk result (PrintsFiles (S.holds source.old) (map (λ n. n.now) names.now)
        (S.asked source.old) (S.asked source.new) (O.contents out.old) (O.contents out.new)) }
    ensures begun { IfErr result (BeginsBy (S.holds source.old) (map (λ n. n.now) names.now)
        (S.asked source.old) (S.asked source.new) (O.contents out.old) (O.contents out.new)) }
{
    let mut done = 0;
    let mut file_outcome = FileOutcome::Accepted;
    while done < names.len() {
        let round = match check_round(rt, alloc, &names[done..], plan, source, out) {
            Ok(round) => round,
            Err(fault) => return Err(fault),
        };
        done += round.count;
        file_outcome = file_outcome.or(round.file_outcome);
    }
    Ok(file_outcome)
}

/// How the program ends where this comes of all files.
fn result_of<'a>(file_outcome: FileOutcome) -> Result<Status, ProgramFault<'a>>
    ensures { result ≡ outcome_result file_outcome }
{
    match file_outcome {
        FileOutcome::Accepted => Ok(Status::Good),
        FileOutcome::Refused => Ok(Status::ModuleRefused),
        FileOutcome::Unread => Err(ProgramFault::SomeUnread),
    }
}

/// Flushes what was written of all files.
fn end_all<'a, O: Write>(file_outcome: FileOutcome, out: &mut O) -> Result<Status, ProgramFault<'a>>
    ensures ends { (result ≡ outcome_result file_outcome) ⊎ (result ≡ Err ProgramFault.Write) }
    ensures kept { Keeps (O.contents out.old) (O.contents out.new) }
{
    match out.flush() {
        Ok(()) => result_of(file_outcome),
        Err(_) => Err(ProgramFault::Write),
    }
}

/// Judges these files and flushes their lines.
fn check_files<'a, R: Threads + Wait + Sync, S: Source, O: Write>(
    rt: &R,
    alloc: Global,
    files: &[&str],
    plan: Plan,
    source: &mut S,
    out: &mut O,
) -> Result<Status, ProgramFault<'a>>
    ensures { ChecksFiles (S.holds source.old) (map (λ n. n.now) files.now)
        (S.asked source.old) (S.asked source.new) (O.contents out.old) (O.contents out.new) result }
{
    match check_rounds(rt, alloc, files, plan, source, out) {
        Ok(file_outcome) => end_all(file_outcome, out),
        Err(fault) => Err(fault),
    }
}

/// Judges the files that these names stand for.
pub fn check_names<'a, R: Threads + Wait + Sync, S: Source, O: Write>(
    rt: &R,
    alloc: Global,
    names: &[&str],
    folders: bool,
    plan: Plan,
    source: &mut S,
    out: &mut O,
) -> Result<Status, ProgramFault<'a>>
    ensures { ChecksNames (IsSpread folders (S.lists source.old) (map (λ n. n.now) names.now)) (S.holds source.old)
        (S.asked source.old) (S.asked source.new)
        (O.contents out.old) (O.contents out.new) result }
{
    if !folders {
        return check_files(rt, alloc, names, plan, source, out);
    }
    let files = match spread(alloc, names, source) {
        Ok(files) => files,
        Err(_) => return Err(ProgramFault::Memory),
    };
    match texts_of(alloc, files.as_slice()) {
        Ok(texts) => check_files(rt, alloc, texts.as_slice(), plan, source, out),
        Err(_) => Err(ProgramFault::Memory),
    }
}

/// Reads names on standard input, and judges the files that they stand for.
pub fn check_listed<'a, R: Threads + Wait + Sync, S: Source, O: Write>(
    rt: &R,
    alloc: Global,
    is_null: bool,
    folders: bool,
    plan: Plan,
    source: &mut S,
    out: &mut O,
) -> Result<Status, ProgramFault<'a>>
    ensures { ChecksListed is_null folders (S.holds source.old) (S.lists source.old) (S.asked source.old) (S.asked source.new)
        (O.contents out.old) (O.contents out.new) result }
{
    let bytes = match read_file(alloc, "/dev/stdin", LIST_LIMIT, source) {
        Ok(bytes) => bytes,
        Err(fault) => return Err(fault),
    };
    match listed_names(alloc, bytes.as_slice(), name_end(is_null)) {
        Ok(names) => check_names(rt, alloc, names.as_slice(), folders, plan, source, out),
        Err(fault) => Err(fault),
    }
}
