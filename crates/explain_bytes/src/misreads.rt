//! What is wrong with the immediates of a token (5.4), or with the locals of a body (5.5.13), that cannot be read.
ghost use Rattle.std.specs.Prelude.{◌≡◌, ◌⊎◌, IfErr, IfSome, None};
ghost use Rattle.explanation.specs.declared.shell_location.Wanted.TheVariants.{MemoryByte, TableByte};
ghost use Rattle.explain_bytes.specs.Shells.{IsMisread, IsNoConstant, IsStuck, Stands};

use crate::shell::primitives::{Stuck, after_index, number_at, wrong_byte};
use crate::shell::type_items::after_val_type;
use explanation::{Wanted, Wrong};

/// What is wrong, and the offset of the first byte of it.
#[derive(Clone, Copy)]
pub struct Misread {
    pub offset: usize,
    pub wrong: Wrong,
}

/// What is wrong with bytes that begin with no constant of that type.
fn wrong_constant(bytes: &[u8], wanted: Wanted) -> Wrong
    requires { IsNoConstant wanted bytes.now }
    ensures { Stands result bytes.now }
{
    if bytes.is_empty() {
        return Wrong::Ends(wanted);
    }
    // the most bytes of a number s32, and of a number s64 (5.2.2)
    let most = match wanted {
        Wanted::I32 => 5,
        Wanted::I64 => 10,
        _ => return Wrong::CutConstant(wanted),
    };
    for byte in bytes.get(..most).unwrap_or(bytes) {
        if *byte < 0x80 {
            return Wrong::LargeConstant(wanted);
        }
    }
    if bytes.len() < most {
        Wrong::CutConstant(wanted)
    } else {
        Wrong::LongConstant(wanted)
    }
}

/// The bytes after the constant of that type at their front; `None` where there is none.
fn constant_passed(bytes: &[u8], wanted: Wanted) -> Option<&[u8]>
    ensures { result ≡ None → IsNoConstant wanted bytes.now }
{
    match wanted {
        Wanted::I32 => Some(wnum::front_s32(bytes)?.1),
        Wanted::I64 => Some(wnum::front_s64(bytes)?.1),
        Wanted::F32 => bytes.get(4..),
        Wanted::F64 => bytes.get(8..),
        _ => Some(bytes),
    }
}

/// The bytes after a constant of that type.
fn after_constant<'a>(bytes: &'a [u8], wanted: Wanted) -> Result<&'a [u8], Stuck<'a>>
    ensures { IfErr result IsStuck }
{
    match constant_passed(bytes, wanted) {
        Some(rest) => Ok(rest),
        None => Err(Stuck::Here {
            rest: bytes,
            wrong: wrong_constant(bytes, wanted),
        }),
    }
}

/// The bytes after the byte 00.
fn after_zero<'a>(bytes: &'a [u8], wanted: Wanted) -> Result<&'a [u8], Stuck<'a>>
    requires { (wanted ≡ TableByte) ⊎ (wanted ≡ MemoryByte) }
    ensures { IfErr result IsStuck }
{
    match bytes {
        [0x00, rest @ ..] => Ok(rest),
        _ => Err(wrong_byte(bytes, wanted)),
    }
}

/// The bytes after the type of a block: 40, a value type, or the index of a type, whose first byte begins no negative number.
fn after_block_type<'a>(bytes: &'a [u8]) -> Result<&'a [u8], Stuck<'a>>
    ensures { IfErr result IsStuck }
{
    match bytes {
        [0x7F | 0x7E | 0x7D | 0x7C | 0x00..=0x40, rest @ ..] => Ok(rest),
        [0x80..=0xFF, ..] => after_index(bytes),
        _ => Err(wrong_byte(bytes, Wanted::BlockType)),
    }
}

/// The bytes after the labels of a branch table and its default.
fn after_labels<'a>(bytes: &'a [u8]) -> Result<&'a [u8], Stuck<'a>>
    ensures { IfErr result IsStuck }
{
    let (count, mut rest) = number_at(bytes, Wanted::Count)?;
    for _ in 0..count {
        rest = after_index(rest)?;
    }
    after_index(rest)
}

/// The bytes after the type and the table of an indirect call.
fn after_indirect<'a>(bytes: &'a [u8]) -> Result<&'a [u8], Stuck<'a>>
    ensures { IfErr result IsStuck }
{
    let rest = after_index(bytes)?;
    after_zero(rest, Wanted::TableByte)
}

/// The bytes after the alignment and the offset of a load or a store.
fn after_access<'a>(bytes: &'a [u8]) -> Result<&'a [u8], Stuck<'a>>
    ensures { IfErr result IsStuck }
{
    let (_align, rest) = number_at(bytes, Wanted::Alignment)?;
    let (_offset, after) = number_at(rest, Wanted::Offset)?;
    Ok(after)
}

/// The bytes after the immediates of the instruction of that opcode.
pub(crate) fn after_immediates<'a>(opcode: u8, bytes: &'a [u8]) -> Result<&'a [u8], Stuck<'a>>
    ensures { IfErr result IsStuck }
{
    match opcode {
        0x02..=0x04 => after_block_type(bytes),
        0x0C | 0x0D | 0x10 | 0x20..=0x24 => after_index(bytes),
        0x0E => after_labels(bytes),
        0x11 => after_indirect(bytes),
        0x28..=0x3E => after_access(bytes),
        0x3F | 0x40 => after_zero(bytes, Wanted::MemoryByte),
        0x41 => after_constant(bytes, Wanted::I32),
        0x42 => after_constant(bytes, Wanted::I64),
        0x43 => after_constant(bytes, Wanted::F32),
        0x44 => after_constant(bytes, Wanted::F64),
        _ => Ok(bytes),
    }
}

/// The bytes after a run of locals: how many, and their type.
fn after_run<'a>(bytes: &'a [u8]) -> Result<&'a [u8], Stuck<'a>>
    ensures { IfErr result IsStuck }
{
    let (_count, rest) = number_at(bytes, Wanted::Count)?;
    after_val_type(rest)
}

/// The bytes after the runs of locals of a body.
fn after_runs<'a>(bytes: &'a [u8]) -> Result<&'a [u8], Stuck<'a>>
    ensures { IfErr result IsStuck }
{
    let (count, mut rest) = number_at(bytes, Wanted::Count)?;
    for _ in 0..count {
        rest = after_run(rest)?;
    }
    Ok(rest)
}

/// What is wrong among the bytes; `None` where reading stopped at bytes that are no suffix of them.
fn misread_of(bytes: &[u8], stuck: Stuck<'_>) -> Option<Misread>
    requires { IsStuck stuck }
    ensures { IfSome result (IsMisread bytes.now) }
{
    let Stuck::Here { rest, wrong } = stuck else {
        return None;
    };
    let end = bytes.len();
    let offset = end.saturating_sub(rest.len());
    let found = bytes.get(offset..end)?;
    if found != rest {
        return None;
    }
    Some(Misread { offset, wrong })
}

/// Why the immediates cannot be read of the token that the bytes begin with; `None` where they can.
pub(crate) fn immediates_stuck<'a>(bytes: &'a [u8]) -> Option<Stuck<'a>>
    ensures { IfSome result IsStuck }
{
    let [opcode, rest @ ..] = bytes else {
        return None;
    };
    match after_immediates(*opcode, rest) {
        Ok(_) => None,
        Err(stuck) => Some(stuck),
    }
}

/// What is wrong with the immediates of the token that the bytes begin with; `None` where they can be read.
pub fn misread_token(bytes: &[u8]) -> Option<Misread>
    ensures { IfSome result (IsMisread bytes.now) }
{
    misread_of(bytes, immediates_stuck(bytes)?)
}

/// What is wrong with the locals of a body; `None` where they can be read.
pub fn misread_locals(body: &[u8]) -> Option<Misread>
    ensures { IfSome result (IsMisread body.now) }
{
    match after_runs(body) {
        Ok(_) => None,
        Err(stuck) => misread_of(body, stuck),
    }
}
