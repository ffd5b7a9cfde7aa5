//! A token as the text format has it (6.5).

use crate::sentence::Word::{Bits32, Bits64, Empty, Index, Opcode, Power, Signed, Type};
use crate::sentence::{Word, say};
use explanation::FoundToken;
use std::alloc::AllocError;
use wsyntax::{BlockType, Token};

/// How many labels of a branch table are shown.
const SHOWN: usize = 8;

/// The labels of a branch table.
fn push_labels(text: &mut String, labels: &[u32]) -> Result<(), AllocError> {
    for label in labels.get(..SHOWN).unwrap_or(labels) {
        write!(text, " {label}")?;
    }
    text.push_str(if labels.len() > SHOWN { " .." } else { "" })
}

/// The type of a block.
fn block_words(block: BlockType) -> (&'static str, [Word<'static>; 2]) {
    match block {
        BlockType::Empty => ("", [Empty; 2]),
        BlockType::Value(result) => (" (result {})", [Type(result), Empty]),
        BlockType::Index(index) => (" (type {})", [Index(index), Empty]),
    }
}

/// What stands after the name of an instruction, but for the labels of a branch table.
fn immediates(token: Token) -> (&'static str, [Word<'static>; 2]) {
    match token {
        Token::Block(block) | Token::Loop(block) | Token::If { block, .. } => block_words(block),
        Token::Br(label) | Token::BrIf(label) => (" {}", [Index(label.index), Empty]),
        Token::Call(index)
        | Token::LocalGet(index)
        | Token::LocalSet(index)
        | Token::LocalTee(index)
        | Token::GlobalGet(index)
        | Token::GlobalSet(index) => (" {}", [Index(index), Empty]),
        Token::CallIndirect(index) => (" (type {})", [Index(index), Empty]),
        Token::Load { align, offset, .. } | Token::Store { align, offset, .. } => {
            (" offset={} align={}", [Index(offset), Power(align)])
        }
        Token::I32Const(number) => (" {}", [Signed(number as i64), Empty]),
        Token::I64Const(number) => (" {}", [Signed(number), Empty]),
        Token::F32Const(bytes) => (" {}", [Bits32(u32::from_le_bytes(bytes)), Empty]),
        Token::F64Const(bytes) => (" {}", [Bits64(u64::from_le_bytes(bytes)), Empty]),
        _ => ("", [Empty; 2]),
    }
}

/// An instruction, by the first of its bytes, and what stands after its name.
pub fn push_instruction(
    text: &mut String,
    opcode: u8,
    token: Token,
    labels: &[u32],
) -> Result<(), AllocError> {
    let (sentence, words) = immediates(token);
    say(text, "{}", &[Opcode(opcode)])?;
    say(text, sentence, &words)?;
    push_labels(text, labels)
}

/// A token.
pub fn push_token(text: &mut String, found: &FoundToken) -> Result<(), AllocError> {
    push_instruction(text, found.opcode, found.token, &found.targets)
}
