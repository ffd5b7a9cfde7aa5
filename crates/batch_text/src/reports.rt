//! The report, whole or by its parts.
ghost use Rattle.std.specs.Prelude.{◌≡◌, ◌<◌, ◌^◌, ◌++◌, List, IfOk, length, string_bytes};
ghost use Rattle.wsyntax.specs.Texts.Report.{CallEnd, report_text};
ghost use Rattle.batch_text.specs.Ends.{ends_of};
ghost use Rattle.batch_text.specs.Parts.{AreParts, parts_text};

use crate::line::Line;
use crate::part::Part;
use crate::total::Total;
use crate::tuning::LAST_LINE;
use std::alloc::{AllocError, Global};

/// The report: a line for each call in their order, numbered from 0, and the line of the total.
pub fn report(alloc: Global, lines: &[Line]) -> Result<String, AllocError>
    ensures { IfOk result (λ text. string_bytes text ≡ report_text (ends_of lines.now)) }
{
    let mut part = Part::of(alloc, 0, lines)?;
    part.total.push_line(&mut part.text)?;
    Ok(part.text)
}

/// The line of the total of a report that has these parts. Behind their texts it ends the report.
pub fn last_line(alloc: Global, parts: &[Part]) -> Result<String, AllocError>
    requires { (ends : List CallEnd) × AreParts 0 ends parts.now × (length ends < 2 ^ 64) }
    ensures { IfOk result (λ line. (ends : List CallEnd) → AreParts 0 ends parts.now →
        parts_text parts.now ++ string_bytes line ≡ report_text ends) }
{
    let mut total = Total::new();
    for part in parts {
        total.add(&part.total);
    }
    let mut line = String::with_capacity(alloc, LAST_LINE)?;
    total.push_line(&mut line)?;
    Ok(line)
}
