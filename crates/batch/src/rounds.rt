//! The calls of a stream, answered in rounds.

ghost use Rattle.std.specs.Prelude.{◌+◌, ◌<◌, ◌≤◌, ◌^◌, MatchResult, length};
ghost use Rattle.std.specs.Io.KnownBytes.{Appends};
ghost use Rattle.wstore.specs.CallLimits.{limits_of};
ghost use Rattle.batch_text.specs.Totals.{IsWithin};
ghost use Rattle.batch.specs.Output.{AppendsFront};
ghost use Rattle.batch.specs.Streams.{Answers, AnswersRound};

use crate::front::{Front, read_front};
use crate::output::{WriteFailed, write_text};
use crate::running::run_batch;
use crate::stream_fault::StreamFault;
use crate::tuning::{FEWEST_GROUPS, LONGEST_ROUND, MUCH_FUEL};
use batch_text::{Call, Part, Total};
use pieces::{Plan, Quiet};
use std::alloc::Global;
use std::io::Write;
use std::sync::Wait;
use std::thread::Threads;
use verdict::Accepted;
use wstore::Settings;

/// What the calls of a stream are run with.
#[derive(Drop)]
pub(crate) struct Rounds<'a> {
    pub(crate) alloc: Global,
    pub(crate) accepted: &'a Accepted<'a>,
    pub(crate) settings: Settings,
    pub(crate) plan: Plan,
}

/// How far a stream is answered.
#[derive(Clone, Copy)]
pub(crate) struct StreamProgress {
    /// The counts of the calls that were answered, whose lines are written.
    pub(crate) tally: Total,
    /// The most calls of the next round.
    pub(crate) size: usize,
    pub(crate) ghost within: { IsWithin tally },
    pub(crate) ghost some: { 0 < size },
}

/// What stands behind the calls that were answered.
pub(crate) enum Behind<'t> {
    /// The beginning of a line.
    Unended(&'t [u8]),
    /// A bad line.
    Bad,
}

/// Writes the whole text and flushes it; where that fails, a beginning of it is written.
pub(crate) fn write_and_flush<O: Write>(out: &mut O, text: &[u8]) -> Result<(), WriteFailed>
    ensures { MatchResult result
        (λ _. Appends (O.contents out.old) (O.contents out.new) text.now)
        (λ _. AppendsFront (O.contents out.old) (O.contents out.new) text.now) }
{
    write_text(out, text)?;
    match out.flush() {
        Ok(()) => Ok(()),
        Err(_) => Err(WriteFailed),
    }
}

/// A round has as many calls as there are workers at first, then up to twice as many as one that cost little fuel, and half as
/// many as one that cost much: so no answer waits long for the others of its round.
fn next_size(size: usize, count: usize, fuel: u128) -> usize
    requires { 0 < size }
    ensures { 0 < result }
{
    if fuel > MUCH_FUEL {
        return (count / 2).max(1);
    }
    size.max(count.saturating_mul(2).min(LONGEST_ROUND))
}

impl Rounds<'_> {
    /// Runs calls on all workers, and writes and counts their lines, numbered behind those that were counted.
    fn answer_round<R: Threads + Wait + Sync, O: Write>(
        &self,
        rt: &R,
        calls: &[Call<'_>],
        progress: &mut StreamProgress,
        out: &mut O,
    ) -> Result<(), StreamFault>
        requires { progress.old.tally.calls + length calls.now < 2 ^ 64 }
        ensures { AnswersRound self.now.accepted.now (limits_of self.now.settings) calls.now progress.old.tally progress.new.tally
            (O.contents out.old) (O.contents out.new) result }
    {
        let count = u32::try_from(calls.len()).unwrap_or(u32::MAX);
        let wanted = self.plan.workers().saturating_mul(FEWEST_GROUPS);
        let plan = self.plan.grouping(count, wanted);
        let lines = run_batch(
            rt,
            self.alloc,
            self.accepted,
            calls,
            self.settings,
            plan,
            &Quiet,
        )?;
        let part = Part::of(self.alloc, progress.tally.calls, &lines)?;
        match write_and_flush(out, part.text()) {
            Ok(()) => {
                let total = part.total();
                progress.tally.add(total);
                progress.size = next_size(progress.size, calls.len(), total.fuel);
                Ok(())
            }
            Err(_) => Err(StreamFault::Write),
        }
    }

    /// Answers the calls of the whole lines of a text, round after round, up to the first bad line.
    pub(crate) fn answer_lines<'t, R: Threads + Wait + Sync, O: Write>(
        &self,
        rt: &R,
        text: &'t [u8],
        progress: &mut StreamProgress,
        out: &mut O,
    ) -> Result<Behind<'t>, StreamFault>
        requires { progress.old.tally.calls + length text.now < 2 ^ 64 }
        ensures { Answers self.now.accepted.now (limits_of self.now.settings) text.now progress.old.tally progress.new.tally
            (O.contents out.old) (O.contents out.new) result }
    {
        let mut rest = text;
        'rounds: loop {
            match read_front(self.alloc, rest, progress.size)? {
                Front::Calls(calls, behind) => {
                    if let Err(fault) = self.answer_round(rt, &calls, progress, out) {
                        return Err(fault);
                    }
                    rest = behind;
                }
                Front::Bad => return Ok(Behind::Bad),
                Front::Unended => return Ok(Behind::Unended(rest)),
            }
        }
    }
}
