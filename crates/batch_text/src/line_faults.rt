//! What is wrong with a bad line of a text of calls: which of its words says no argument, and why.
ghost use Rattle.std.specs.Prelude.{IfSome};
ghost use Rattle.batch_text.specs.LineFaults.{SaysNone, TellsLine};

use crate::split::split_before;
use crate::value::read_value;
use wsyntax::LINE_LIMIT;

/// What is wrong with a word that says no argument.
#[derive(Clone, Copy)]
pub enum WordFault {
    /// It has no bytes.
    Empty,
    /// It has a blank, where a tab may be meant.
    Blank,
    /// It begins with no type and colon.
    NoType,
    /// What stands after the colon is no decimal number.
    NoDecimal,
    /// Its number has a zero in front.
    ZeroInFront,
    /// Its number is zero with a sign.
    SignedZero,
    /// Its number is outside the range of its type.
    OutOfRange,
}

/// What is wrong with a line.
#[derive(Clone, Copy)]
pub enum LineFault<'a> {
    /// There are more lines than a text may have.
    TooMany,
    /// It has no newline at its end.
    Unended,
    /// It has arguments, and its last byte is 0d.
    Return,
    /// The word of that number, the name being 1, is the first that says no argument.
    Word {
        number: usize,
        word: &'a [u8],
        fault: WordFault,
    },
    /// It is bad, and no more is known.
    Bad,
}

/// What is wrong with what stands after the colon of a word that says no argument.
fn number_fault(number: &[u8]) -> WordFault {
    let digits = number.strip_prefix(b"-").unwrap_or(number);
    if digits.is_empty() || digits.iter().any(|digit| !digit.is_ascii_digit()) {
        return WordFault::NoDecimal;
    }
    match digits {
        [b'0'] => WordFault::SignedZero,
        [b'0', ..] => WordFault::ZeroInFront,
        _ => WordFault::OutOfRange,
    }
}

/// What is wrong with a word as an argument; `None` where it says one.
fn word_fault(word: &[u8]) -> Option<WordFault>
    ensures { IfSome result (λ fault. SaysNone word.now) }
{
    if read_value(word).is_some() {
        return None;
    }
    if word.is_empty() {
        return Some(WordFault::Empty);
    }
    if word.iter().any(|byte| *byte == b' ') {
        return Some(WordFault::Blank);
    }
    match word.strip_prefix(b"i32:").or(word.strip_prefix(b"i64:")) {
        Some(number) => Some(number_fault(number)),
        None => Some(WordFault::NoType),
    }
}

/// What is wrong with the words of a line without its newline.
fn words_fault(line: &[u8]) -> LineFault<'_>
    ensures { TellsLine result }
{
    let (_name, mut rest) = split_before(line, b'\t');
    for position in 0..line.len() {
        let Some(after) = rest.get(1..) else {
            return LineFault::Bad;
        };
        let (word, behind) = split_before(after, b'\t');
        if let Some(fault) = word_fault(word) {
            return LineFault::Word {
                number: position + 2,
                word,
                fault,
            };
        }
        rest = behind;
    }
    LineFault::Bad
}

/// The text from the line at that position on, the first being 0.
fn from_line(text: &[u8], position: usize) -> Option<&[u8]> {
    let mut rest = text;
    for _ in 0..position {
        let (_line, after) = split_before(rest, b'\n');
        rest = after.get(1..)?;
    }
    Some(rest)
}

/// What is wrong with the line of that number, the first being 1, which `read_calls` refused.
pub fn line_fault(text: &[u8], number: u32) -> LineFault<'_>
    ensures { TellsLine result }
{
    let position = (number as usize).saturating_sub(1);
    if position >= LINE_LIMIT {
        return LineFault::TooMany;
    }
    let Some(rest) = from_line(text, position) else {
        return LineFault::Bad;
    };
    let (line, after) = split_before(rest, b'\n');
    if after.is_empty() {
        return LineFault::Unended;
    }
    if line.last() == Some(&b'\r') {
        return LineFault::Return;
    }
    words_fault(line)
}
