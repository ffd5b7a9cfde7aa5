//! Sentences with holes, the words that fill them, and the one writer of both.

use crate::opcode_names::name_of_byte;
use crate::quoting::push_name;
use crate::shell_words::wanted_words;
use crate::type_text::{push_lists, push_types, type_name};
use explanation::{FunctionSignature, Wanted};
use std::alloc::AllocError;
use wsyntax::ValType;

/// What fills a hole of a sentence.
#[derive(Clone, Copy)]
pub(crate) enum Word<'a> {
    Empty,
    Text(&'static str),
    Number(usize),
    Index(u32),
    Signed(i64),
    /// In base 16, two digits at least.
    Hex(u32),
    /// An offset in base 16.
    Address(usize),
    Bits32(u32),
    Bits64(u64),
    /// 2 to that.
    Power(u32),
    /// Those of an opcode, each in base 16, with blanks between them.
    Bytes(&'a [u8]),
    Name(&'a [u8]),
    /// The instruction that begins with that byte.
    Opcode(u8),
    Type(ValType),
    Types(&'a [ValType]),
    Signature(&'a FunctionSignature),
    /// An operand of that type, or of any.
    Operand(Option<ValType>),
    /// Where an operand stands, from 0 on top.
    Place(usize),
    Wanted(Wanted),
    /// How many there are of what has that name.
    There(usize, &'static str),
}

/// The bytes of an opcode in base 16, with blanks between them.
fn push_pairs(text: &mut String, bytes: &[u8]) -> Result<(), AllocError> {
    for (position, byte) in bytes.iter().enumerate() {
        text.push_str(if position == 0 { "" } else { " " })?;
        write!(text, "0x{byte:02x}")?;
    }
    Ok(())
}

/// How many there are of what has that name.
fn push_count(text: &mut String, count: usize, name: &str) -> Result<(), AllocError> {
    match count {
        0 => text.push_str(", and there is none"),
        1 => write!(text, ", and there is 1 {name}"),
        _ if name == "memory" => write!(text, ", and there are {count} memories"),
        _ => write!(text, ", and there are {count} {name}s"),
    }
}

/// A word.
fn push_word(text: &mut String, word: Word<'_>) -> Result<(), AllocError> {
    match word {
        Word::Empty => Ok(()),
        Word::Text(words) => text.push_str(words),
        Word::Number(number) => write!(text, "{number}"),
        Word::Index(index) => write!(text, "{index}"),
        Word::Signed(number) => write!(text, "{number}"),
        Word::Hex(number) => write!(text, "{number:02x}"),
        Word::Address(at) => write!(text, "0x{at:x}"),
        Word::Bits32(bits) => write!(text, "0x{bits:08x}"),
        Word::Bits64(bits) => write!(text, "0x{bits:016x}"),
        Word::Power(exponent) if exponent < 32 => write!(text, "{}", 1u32 << exponent),
        Word::Power(exponent) => write!(text, "2^{exponent}"),
        Word::Bytes(bytes) => push_pairs(text, bytes),
        Word::Name(name) => push_name(text, name),
        Word::Opcode(byte) => text.push_str(name_of_byte(byte)),
        Word::Type(of_type) => text.push_str(type_name(of_type)),
        Word::Types(types) => push_types(text, types),
        Word::Signature(signature) => push_lists(text, &signature.params, &signature.results),
        Word::Operand(Some(of_type)) => write!(text, "an {}", type_name(of_type)),
        Word::Operand(None) => text.push_str("an operand"),
        Word::Place(0) => text.push_str(" on top"),
        Word::Place(1) => text.push_str(" below the top"),
        Word::Place(others) => write!(text, " below {others} others"),
        Word::Wanted(wanted) => text.push_str(wanted_words(wanted)),
        Word::There(count, name) => push_count(text, count, name),
    }
}

/// A sentence, with words in the place of each `{}`, in their order.
pub(crate) fn say(text: &mut String, sentence: &str, words: &[Word<'_>]) -> Result<(), AllocError> {
    let mut pieces = sentence.split("{}");
    text.push_str(pieces.next().unwrap_or(""))?;
    for (piece, word) in pieces.zip(words) {
        push_word(text, *word)?;
        text.push_str(piece)?;
    }
    Ok(())
}
