//! The lines of a check of many files.
ghost use Rattle.std.specs.Prelude.{◌≡◌, ◌++◌, ◌<◌, List, ℕ, IfOk, OnOk, length, map};
ghost use Rattle.explain_text.specs.Texts.{hex_digit as digit_meant};
ghost use Rattle.program.specs.FileLines.{AreTakenLines, IsTakenEnd, IsTakenLine, is_shown as shown_meant, shown_byte, shown_name};

use crate::file_outcome::FileOutcome;
use crate::taking::Taken;
use batch::verdict_line;
use std::alloc::{AllocError, Global};
use std::fmt;
use std::fmt::{Display, Formatter};
use verdict::Refusal;

/// A digit of base 16.
fn hex_digit(digit: u8) -> u8
    requires { digit < 16 }
    ensures { result ≡ digit_meant digit }
{
    if digit < 10 {
        b'0' + digit
    } else {
        b'a' + (digit - 10)
    }
}

/// Whether a byte of a name stands for itself: no control character and no backslash.
fn is_shown(byte: u8) -> bool
    ensures { result ≡ shown_meant byte }
{
    byte >= 0x20 && byte != 0x7F && byte != b'\\'
}

/// A byte of a name.
fn push_byte(text: &mut Vec<u8>, byte: u8) -> Result<(), AllocError>
    ensures { OnOk result (text.new.items ≡ text.old.items ++ shown_byte byte) }
{
    if is_shown(byte) {
        text.push(byte)?;
        return Ok(());
    }
    text.push(b'\\')?;
    text.push(hex_digit(byte / 16))?;
    text.push(hex_digit(byte % 16))?;
    Ok(())
}

/// A name.
fn push_name(text: &mut Vec<u8>, name: &[u8]) -> Result<(), AllocError>
    ensures { OnOk result (text.new.items ≡ text.old.items ++ shown_name name.now) }
{
    for byte in name {
        push_byte(text, *byte)?;
    }
    Ok(())
}

/// A name in a message, written as in a line.
#[derive(Clone, Copy)]
pub struct ShownName<'a>(pub &'a str);

impl Display for ShownName<'_> {
    fn fmt<W: fmt::Write>(&self, f: &mut Formatter<W>) -> fmt::Result {
        for letter in self.0.chars() {
            match u8::try_from(letter) {
                Ok(byte) if !is_shown(byte) => write!(f, "\\{byte:02x}")?,
                _ => f.write_char(letter)?,
            }
        }
        Ok(())
    }
}

/// What stands after the tab: the line of the verdict, or the reason.
fn push_end(
    text: &mut Vec<u8>,
    alloc: Global,
    taken: &Taken,
    judged: Result<(), Refusal>,
) -> Result<FileOutcome, AllocError>
    ensures { IfOk result (λ file_outcome. (rest : List ℕ) × IsTakenEnd taken.now judged rest file_outcome
        × (text.new.items ≡ text.old.items ++ rest)) }
{
    match taken {
        Taken::Bytes(_) => {
            text.extend_from_slice(verdict_line(alloc, judged)?.as_bytes())?;
            Ok(FileOutcome::of(&judged))
        }
        Taken::Unread(reason) => {
            text.extend_from_slice(b"cannot read: ")?;
            text.extend_from_slice(reason.text().as_bytes())?;
            text.push(b'\n')?;
            Ok(FileOutcome::Unread)
        }
    }
}

/// The line of one file.
fn push_line(
    text: &mut Vec<u8>,
    alloc: Global,
    name: &str,
    taken: &Taken,
    judged: Result<(), Refusal>,
) -> Result<FileOutcome, AllocError>
    ensures { IfOk result (λ file_outcome. (line : List ℕ) × IsTakenLine name.now taken.now judged line file_outcome
        × (text.new.items ≡ text.old.items ++ line)) }
{
    push_name(text, name.as_bytes())?;
    text.push(b'\t')?;
    push_end(text, alloc, taken, judged)
}

/// The lines of a round, and what comes of its files.
#[derive(Drop)]
pub struct Lines {
    pub text: Vec<u8>,
    pub file_outcome: FileOutcome,
}

/// The lines of these files, of which this was read and so judged.
pub fn lines_of(
    alloc: Global,
    names: &[&str],
    taken: &[Taken],
    judged: &[Result<(), Refusal>],
) -> Result<Lines, AllocError>
    requires names { length names.now ≡ length taken.now }
    requires judged { length judged.now ≡ length taken.now }
    ensures { IfOk result (λ lines. AreTakenLines (map (λ n. n.now) names.now) taken.now judged.now lines.text.items lines.file_outcome) }
{
    let mut text = Vec::new(alloc);
    let mut file_outcome = FileOutcome::Accepted;
    for i in 0..taken.len() {
        let one = push_line(&mut text, alloc, names[i], &taken[i], judged[i])?;
        file_outcome = file_outcome.or(one);
    }
    Ok(Lines { text, file_outcome })
}
