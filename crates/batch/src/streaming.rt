//! The answer to a text of calls of any length, which is given while it is read.

ghost use Rattle.std.specs.Prelude.{◌≡◌, ◌≢◌, ◌<◌, ◌≤◌, ◌+◌, ◌++◌, ◌^◌, IfOk, IfSome, false, length};
ghost use Rattle.wstore.specs.CallLimits.{limits_of};
ghost use Rattle.batch_text.specs.Totals.{tally, total_text};
ghost use Rattle.batch.specs.Streams.{AnswersAsRun, EndsWith, IsFree, IsHeld, RefusesLine, Streams, Takes};
ghost use Rattle.batch.specs.declared.status.Status.TheVariants as Status;

use crate::reader::read_piece;
use crate::rounds::{Behind, Rounds, StreamProgress, write_and_flush};
use crate::status::Status;
use crate::stream_fault::StreamFault;
use crate::tuning::PIECE;
use batch_text::Total;
use pieces::Plan;
use std::alloc::Global;
use std::io::{Read, Write};
use std::sync::Wait;
use std::thread::Threads;
use verdict::Accepted;
use wstore::Settings;
use wsyntax::CALLS_LIMIT;

/// The most reads of a stream: after these `Read` says that the reader has no end. So the numbers of all lines fit a word.
const MOST_READS: u64 = 1 << 45;

/// Whether the lines so far are good.
enum LinesSoFar {
    Good,
    Bad,
}

/// Whether a line ends in the piece.
fn has_newline(piece: &[u8]) -> bool
    ensures { result ≡ false → IsFree piece.now }
{
    piece.contains(&b'\n')
}

/// Bad where the line that is held is too long.
fn line_held(held: &[u8]) -> LinesSoFar
    ensures { IsHeld held.now result }
{
    if held.len() < CALLS_LIMIT {
        LinesSoFar::Good
    } else {
        LinesSoFar::Bad
    }
}

impl Rounds<'_> {
    /// Puts a piece behind the unfinished line that is held, answers the calls of whole lines, and holds what is behind them.
    fn take_piece<R: Threads + Wait + Sync, O: Write>(
        &self,
        rt: &R,
        piece: &[u8],
        held: &mut Vec<u8>,
        progress: &mut StreamProgress,
        out: &mut O,
    ) -> Result<LinesSoFar, StreamFault>
        requires free { IsFree held.old.items }
        requires room { progress.old.tally.calls + length held.old.items + length piece.now < 2 ^ 64 }
        ensures { Takes self.now.accepted.now (limits_of self.now.settings) (held.old.items ++ piece.now)
            progress.old.tally progress.new.tally held.new.items (O.contents out.old) (O.contents out.new) result }
    {
        let Ok(()) = held.extend_from_slice(piece) else {
            return Err(StreamFault::Memory);
        };
        if !has_newline(piece) {
            return Ok(line_held(held));
        }
        match self.answer_lines(rt, held, progress, out) {
            Ok(Behind::Unended(rest)) => {
                let Ok(kept) = rest.to_vec(self.alloc) else {
                    return Err(StreamFault::Memory);
                };
                *held = kept;
                Ok(line_held(held))
            }
            Ok(Behind::Bad) => Ok(LinesSoFar::Bad),
            Err(fault) => Err(fault),
        }
    }

    /// Writes the last line of a report, and flushes it.
    fn end_report<O: Write>(&self, total: &Total, out: &mut O) -> Result<Status, StreamFault>
        ensures written { EndsWith (total_text total.now.calls (tally total.now)) Status.Good
            (O.contents out.old) (O.contents out.new) result }
        ensures status { IfOk result (λ s. s ≢ Status.ModuleRefused) }
    {
        let mut last = String::new(self.alloc);
        total.push_line(&mut last)?;
        match write_and_flush(out, last.as_bytes()) {
            Ok(()) => Ok(Status::Good),
            Err(_) => Err(StreamFault::Write),
        }
    }

    /// Writes that the line behind those of the calls so far is bad, and flushes it.
    fn refuse_line<O: Write>(&self, tally: &Total, out: &mut O) -> Result<Status, StreamFault>
        requires { tally.now.calls + 1 < 2 ^ 64 }
        ensures written { RefusesLine tally.now (O.contents out.old) (O.contents out.new) result }
        ensures status { IfOk result (λ s. s ≢ Status.ModuleRefused) }
    {
        let line = tally.calls + 1;
        let last = format!(in self.alloc; "calls line {line} refused\n")?;
        match write_and_flush(out, last.as_bytes()) {
            Ok(()) => Ok(Status::CallsRefused),
            Err(_) => Err(StreamFault::Write),
        }
    }

    /// Answers the calls of a stream, which is read to the front of `piece`.
    fn answer_stream<R: Threads + Wait + Sync, F: Read, O: Write>(
        &self,
        rt: &R,
        calls: &mut F,
        piece: &mut [u8],
        out: &mut O,
    ) -> Result<Status, StreamFault>
        requires some { 0 < length piece.old }
        requires most { length piece.old ≤ PIECE }
        ensures written { IfSome (F.remaining calls.old) (λ text.
            Streams self.now.accepted.now (limits_of self.now.settings) text (O.contents out.old) (O.contents out.new) result) }
        ensures status { IfOk result (λ s. s ≢ Status.ModuleRefused) }
    {
        let mut held = Vec::new(self.alloc);
        let mut progress = StreamProgress {
            tally: Total::new(),
            size: self.plan.workers() as usize,
        };
        for _ in 0..MOST_READS {
            match read_piece(calls, piece) {
                Ok(Some(count)) => {
                    match self.take_piece(rt, &piece[..count], &mut held, &mut progress, out) {
                        Ok(LinesSoFar::Good) => {}
                        Ok(LinesSoFar::Bad) => return self.refuse_line(&progress.tally, out),
                        Err(fault) => return Err(fault),
                    }
                }
                Ok(None) => {
                    if held.is_empty() {
                        return self.end_report(&progress.tally, out);
                    }
                    return self.refuse_line(&progress.tally, out);
                }
                Err(fault) => return Err(fault),
            }
        }
        Err(StreamFault::Read)
    }
}

/// Answers a text of calls of any length while it is read. Whole lines are answered in rounds: a round is run on all workers, its
/// lines are written and flushed, numbered from the stream's beginning, and then the next round is read. At the end comes the
/// line of the total over all rounds.
///
/// - With `Good`, what is written is the report of the whole text, by the definition of each line, however many there are
///   (`written`). Where the text is no longer than a text of calls may be, it is what `answer` writes (`answer`).
/// - With `CallsRefused`, the lines of the calls before the first bad line are written, and then `calls line K refused`. Where the
///   text is within the limits of `answer`, its K is this one; but `answer` would have run none of the calls, and would have written
///   `accepted` in place of their lines.
///   Bad is a line that says no call, that has no newline, or that has more bytes with it than a text of calls may have.
/// - With `Read` and `Memory`, whole lines are written, those of the first calls; with `Write`, a beginning of all that.
///
/// A stop between two writes leaves a beginning of the report. No clause says when a line is written, how much memory is taken
/// (a piece, the beginning of a line, and one round), or that a fault comes only after a read, a write or a growth failed. Of a
/// reader whose bytes are not known, or a writer whose contents are not, the clauses say nothing.
pub fn stream<R: Threads + Wait + Sync, F: Read, O: Write>(
    rt: &R,
    alloc: Global,
    accepted: &Accepted<'_>,
    calls: &mut F,
    settings: Settings,
    plan: Plan,
    out: &mut O,
) -> Result<Status, StreamFault>
    ensures written { IfSome (F.remaining calls.old) (λ text.
        Streams accepted.now (limits_of settings) text (O.contents out.old) (O.contents out.new) result) }
    ensures answer { IfSome (F.remaining calls.old) (λ text.
        AnswersAsRun accepted.now (limits_of settings) text (O.contents out.old) (O.contents out.new) result) }
    // The status is of the calls alone, whatever is known of the reader.
    ensures status { IfOk result (λ s. s ≢ Status.ModuleRefused) }
{
    let rounds = Rounds {
        alloc,
        accepted,
        settings,
        plan,
    };
    let Ok(mut piece) = vec![in alloc; 0_u8; PIECE] else {
        return Err(StreamFault::Memory);
    };
    rounds.answer_stream(rt, calls, &mut piece, out)
}
