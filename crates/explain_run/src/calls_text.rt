//! What is wrong with a text of calls, in words.
use crate::calls_misfit::{CallMisfit, Misfit};
use crate::meant::meant;
use accepted_module::Accepted;
use batch_text::{Call, CallsFault, LineFault, WordFault, line_fault};
use explain_text::{push_name, push_types};
use std::alloc::AllocError;
use wsyntax::{CALLS_LIMIT, ExportKind, LINE_LIMIT, ValType, Value};

/// Whether an argument follows a blank.
fn has_blank_for_tab(word: &[u8]) -> bool {
    for at in 0..word.len() {
        let rest = word.get(at..).unwrap_or(word);
        if rest.strip_prefix(b" i32:").is_some() || rest.strip_prefix(b" i64:").is_some() {
            return true;
        }
    }
    false
}

/// Whether a word begins as a float would.
fn is_float(word: &[u8]) -> bool {
    word.strip_prefix(b"f32:").is_some() || word.strip_prefix(b"f64:").is_some()
}

/// What is wrong with a word.
fn word_words(word: &[u8], fault: WordFault) -> &'static str {
    match fault {
        WordFault::Empty => " is empty: it stands between two tabs, or after the last one",
        WordFault::Blank if has_blank_for_tab(word) => " has blanks where tabs are wanted",
        WordFault::Blank => " has a blank: leave it out",
        WordFault::NoType if is_float(word) => " is a float, and no floats run",
        WordFault::NoType => " begins with neither i32: nor i64:",
        WordFault::NoDecimal => " is no decimal number",
        WordFault::ZeroInFront => " has a zero in front",
        WordFault::SignedZero => " has a sign before zero",
        WordFault::OutOfRange => " is outside the range of its type, which has a sign",
    }
}

/// What is wrong with an argument, and how it has to be written where that is clear.
fn push_word_fault(text: &mut String, word: &[u8], fault: WordFault) -> Result<(), AllocError> {
    push_name(text, word)?;
    text.push_str(word_words(word, fault))?;
    match meant(word) {
        None => Ok(()),
        Some(Value::I32(bits)) => write!(text, "; write i32:{}", bits.cast_signed()),
        Some(Value::I64(bits)) => write!(text, "; write i64:{}", bits.cast_signed()),
    }
}

/// What is wrong with a line.
fn push_line_fault(text: &mut String, fault: LineFault<'_>) -> Result<(), AllocError> {
    match fault {
        LineFault::TooMany => write!(text, " is one too many: {LINE_LIMIT} are the most"),
        LineFault::Unended => text.push_str(" has no newline at its end"),
        LineFault::Return => text.push_str(" ends with CR LF (0d 0a); lines end with LF alone"),
        LineFault::Word {
            number,
            word,
            fault,
        } => {
            write!(text, " argument {} ", number.saturating_sub(1))?;
            push_word_fault(text, word, fault)
        }
        LineFault::Bad => text.push_str(" says no call"),
    }
}

/// The line on a text of calls that is refused.
pub fn push_calls_fault(
    text: &mut String,
    calls: &[u8],
    fault: CallsFault,
) -> Result<(), AllocError> {
    text.push_str("calls     ")?;
    match fault {
        CallsFault::TooLarge => {
            let bytes = calls.len();
            write!(
                text,
                "the text has {bytes} bytes, and {CALLS_LIMIT} are the most"
            )?;
        }
        CallsFault::Line(number) => {
            write!(text, "line {number}")?;
            push_line_fault(text, line_fault(calls, number))?;
        }
        CallsFault::Memory => return Err(AllocError),
    }
    text.push_str("\n")
}

/// What an export is that is no function.
fn kind_words(kind: ExportKind) -> &'static str {
    match kind {
        ExportKind::Function => "a function",
        ExportKind::Table => "a table",
        ExportKind::Memory => "a memory",
        ExportKind::Global => "a global",
    }
}

/// The name of an export, and what is wrong with it.
fn push_wrong_name(text: &mut String, name: &[u8], wrong: &str) -> Result<(), AllocError> {
    text.push_str(" names export ")?;
    push_name(text, name)?;
    text.push_str(wrong)
}

/// That no export has a name, and why that may be.
fn missing_words(name: &[u8]) -> &'static str {
    if has_blank_for_tab(name) {
        return ", and there is none: it has blanks where tabs are wanted";
    }
    if name.strip_prefix(b"\xEF\xBB\xBF").is_some() {
        return ", and there is none: a byte order mark stands before it";
    }
    match name.last() {
        Some(b'\r') =>
            ", and there is none: the line ends with CR LF (0d 0a), and LF alone is wanted",
        _ => ", and there is none",
    }
}

/// The types that a call passes, and those that its function takes.
fn push_passed(
    text: &mut String,
    accepted: &Accepted<'_>,
    name: &[u8],
    func: u32,
    passes: &[ValType],
) -> Result<(), AllocError> {
    text.push_str(" passes ")?;
    push_types(text, passes)?;
    if let Some(found) = accepted.context().function(func) {
        text.push_str(", and ")?;
        push_name(text, name)?;
        text.push_str(" takes ")?;
        push_types(text, found.params)?;
    }
    Ok(())
}

/// The line on the first call that its module does not fit.
pub fn push_misfit(
    text: &mut String,
    accepted: &Accepted<'_>,
    calls: &[Call<'_>],
    misfit: &CallMisfit,
) -> Result<(), AllocError> {
    let Some(call) = calls.get(misfit.position) else {
        return Ok(());
    };
    let line = misfit.position.saturating_add(1);
    write!(text, "calls     line {line}")?;
    match &misfit.why {
        Misfit::NoExport => push_wrong_name(text, call.name, missing_words(call.name))?,
        Misfit::NoFunction(kind) => {
            push_wrong_name(text, call.name, ", which is ")?;
            text.push_str(kind_words(*kind))?;
        }
        Misfit::Arguments { func, passes } => push_passed(
            text, accepted, call.name, *func, passes,
        )?,
    }
    text.push_str("\n")
}
