//! The words of a line. Each function appends to the text that is written already.
ghost use Rattle.std.specs.Prelude.{◌≡◌, ◌++◌, codes, OnOk, string_bytes};
ghost use Rattle.wsyntax.specs.Texts.Words.{value_text};
ghost use Rattle.wsyntax.specs.Texts.Report.{trap_text, spaced_values, outcome_text, refusal_text, end_text};
ghost use Rattle.batch_text.specs.Ends.{end_of};
ghost use Rattle.wsyntax.specs.Outcomes.{outcome_of};
ghost use Rattle.wsyntax.specs.StartRefusals.{refusal_of};

use crate::line::Line;
use std::alloc::AllocError;
use wnum::NumTrap;
use wsyntax::{Outcome, StartRefusal, Trap, Value};

/// How a call ended.
pub(crate) fn push_end(text: &mut String, line: &Line) -> Result<(), AllocError>
    ensures { OnOk result (string_bytes text.new ≡ string_bytes text.old ++ end_text (end_of line.now)) }
{
    match line {
        Line::Ran { outcome, fuel } => {
            push_outcome(text, outcome)?;
            write!(text, " fuel {fuel}")
        }
        Line::NoExport => text.push_str("no-export"),
        Line::NotAFunction => text.push_str("not-a-function"),
        Line::BadArguments => text.push_str("bad-arguments"),
        Line::NotStarted(refusal) => {
            text.push_str("not-started ")?;
            push_refusal(text, *refusal)
        }
        Line::NoMemory => text.push_str("no-memory"),
    }
}

/// How a run ended.
fn push_outcome(text: &mut String, outcome: &Outcome) -> Result<(), AllocError>
    ensures { OnOk result (string_bytes text.new ≡ string_bytes text.old ++ outcome_text (outcome_of outcome.now)) }
{
    match outcome {
        Outcome::Values(values) => {
            text.push_str("values")?;
            push_values(text, values)
        }
        Outcome::Trapped(trap) => {
            text.push_str("trap ")?;
            text.push_str(trap_name(*trap))
        }
        Outcome::OutOfFuel => text.push_str("out-of-fuel"),
        Outcome::OutOfFrames => text.push_str("out-of-frames"),
    }
}

/// Values joined by commas, with a space in front of the first.
fn push_values(text: &mut String, values: &[Value]) -> Result<(), AllocError>
    ensures { OnOk result (string_bytes text.new ≡ string_bytes text.old ++ spaced_values values.now) }
{
    for (position, value) in values.iter().enumerate() {
        text.push_str(if position == 0 { " " } else { "," })?;
        push_value(text, *value)?;
    }
    Ok(())
}

/// A value.
fn push_value(text: &mut String, value: Value) -> Result<(), AllocError>
    ensures { OnOk result (string_bytes text.new ≡ string_bytes text.old ++ value_text value) }
{
    match value {
        Value::I32(word) => write!(text, "i32:{}", word.cast_signed()),
        Value::I64(word) => write!(text, "i64:{}", word.cast_signed()),
    }
}

/// The name of a trap.
fn trap_name(trap: Trap) -> &'static str
    ensures { result.now ≡ trap_text trap }
{
    match trap {
        Trap::Unreachable => "unreachable",
        Trap::OutOfBounds => "out-of-bounds",
        Trap::UndefinedElement => "undefined-element",
        Trap::UninitializedElement => "uninitialized-element",
        Trap::TypeMismatch => "type-mismatch",
        Trap::ByOperator(NumTrap::DivideByZero) => "divide-by-zero",
        Trap::ByOperator(NumTrap::IntegerOverflow) => "integer-overflow",
    }
}

/// Why no instance is made.
fn push_refusal(text: &mut String, refusal: StartRefusal) -> Result<(), AllocError>
    ensures { OnOk result (string_bytes text.new ≡ string_bytes text.old ++ refusal_text (refusal_of refusal)) }
{
    match refusal {
        StartRefusal::HasImports => text.push_str("imports"),
        StartRefusal::HasFloats => text.push_str("floats"),
        StartRefusal::TableLimit => text.push_str("table-limit"),
        StartRefusal::MemoryLimit => text.push_str("memory-limit"),
        StartRefusal::ElementOutside(segment) => write!(text, "element-outside {segment}"),
        StartRefusal::DataOutside(segment) => write!(text, "data-outside {segment}"),
    }
}
