//! The counts of the last line.
ghost use Rattle.std.specs.Prelude.{◌≡◌, ◌+◌, ◌<◌, ◌^◌, ◌++◌, OnOk, string_bytes};
ghost use Rattle.wsyntax.specs.Texts.Report.{plus, tally_of, none};
ghost use Rattle.batch_text.specs.Ends.{end_of};
ghost use Rattle.batch_text.specs.Totals.{tally, IsWithin, total_text};

use crate::line::Line;
use std::alloc::AllocError;
use wsyntax::Outcome;

/// How many calls ended in each way, and the fuel that they cost together.
#[derive(Clone, Copy)]
pub struct Total {
    pub calls: usize,
    pub values: usize,
    pub traps: usize,
    pub exhausted: usize,
    pub refused: usize,
    pub no_memory: usize,
    pub fuel: u128,
}

impl Total {
    /// The counts of no calls.
    pub fn new() -> Total
        ensures calls { result.calls ≡ 0 }
        ensures tally { tally result ≡ none }
        ensures within { IsWithin result }
    {
        Total {
            calls: 0,
            values: 0,
            traps: 0,
            exhausted: 0,
            refused: 0,
            no_memory: 0,
            fuel: 0,
        }
    }

    /// Counts a call.
    pub(crate) fn count(&mut self, line: &Line)
        requires room { self.old.calls + 1 < 2 ^ 64 }
        requires within { IsWithin self.old }
        ensures calls { self.new.calls ≡ self.old.calls + 1 }
        ensures tally { tally self.new ≡ plus (tally self.old) (tally_of (end_of line.now)) }
        ensures within { IsWithin self.new }
    {
        self.calls += 1;
        match line {
            Line::Ran { outcome, fuel } => {
                self.fuel += u128::from(*fuel);
                match outcome {
                    Outcome::Values(_) => self.values += 1,
                    Outcome::Trapped(_) => self.traps += 1,
                    Outcome::OutOfFuel | Outcome::OutOfFrames => self.exhausted += 1,
                }
            }
            Line::NoExport | Line::NotAFunction | Line::BadArguments | Line::NotStarted(_) => {
                self.refused += 1;
            }
            Line::NoMemory => self.no_memory += 1,
        }
    }

    /// Counts the calls of another total too.
    pub fn add(&mut self, other: &Total)
        requires room { self.old.calls + other.now.calls < 2 ^ 64 }
        requires within { IsWithin self.old × IsWithin other.now }
        ensures calls { self.new.calls ≡ self.old.calls + other.now.calls }
        ensures tally { tally self.new ≡ plus (tally self.old) (tally other.now) }
        ensures within { IsWithin self.new }
    {
        self.calls += other.calls;
        self.values += other.values;
        self.traps += other.traps;
        self.exhausted += other.exhausted;
        self.refused += other.refused;
        self.no_memory += other.no_memory;
        self.fuel += other.fuel;
    }

    /// Appends the last line of a report with these counts.
    pub fn push_line(&self, text: &mut String) -> Result<(), AllocError>
        ensures { OnOk result (string_bytes text.new ≡ string_bytes text.old ++ total_text self.now.calls (tally self.now)) }
    {
        let Total {
            calls,
            values,
            traps,
            exhausted,
            refused,
            no_memory,
            fuel,
        } = *self;
        write!(
            text,
            "total {calls} values {values} traps {traps} exhausted {exhausted}"
        )?;
        writeln!(text, " refused {refused} no-memory {no_memory} fuel {fuel}")
    }
}
