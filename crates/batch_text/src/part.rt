//! Parts of a report.
ghost use Rattle.std.specs.Prelude.{◌≡◌, ◌+◌, ◌<◌, ◌^◌, IfOk, length, string_bytes};
ghost use Rattle.batch_text.specs.Ends.{ends_of};
ghost use Rattle.batch_text.specs.Parts.{IsPart};

use crate::line::Line;
use crate::total::Total;
use crate::tuning::USUAL_LINE;
use crate::words::push_end;
use std::alloc::{AllocError, Global};

/// A part of a report: the lines of some consecutive calls, and their counts.
#[derive(Drop)]
pub struct Part {
    pub(crate) text: String,
    pub(crate) total: Total,
}

impl Part {
    /// The part with these lines, of which the first has that index.
    pub fn of(alloc: Global, first: usize, lines: &[Line]) -> Result<Part, AllocError>
        requires { first + length lines.now < 2 ^ 64 }
        ensures { IfOk result (IsPart first (ends_of lines.now)) }
    {
        let mut text = String::with_capacity(alloc, lines.len().saturating_mul(USUAL_LINE))?;
        let mut total = Total::new();
        for (position, line) in lines.iter().enumerate() {
            let call_index = first + position;
            write!(text, "{call_index} ")?;
            push_end(&mut text, line)?;
            text.push_str("\n")?;
            total.count(line);
        }
        Ok(Part { text, total })
    }

    /// The text of its lines.
    pub fn text(&self) -> &[u8]
        ensures { result.now ≡ string_bytes self.now.text }
    {
        self.text.as_bytes()
    }

    /// The counts of its calls.
    pub fn total(&self) -> &Total
        ensures { result.now ≡ self.now.total }
    {
        &self.total
    }
}
