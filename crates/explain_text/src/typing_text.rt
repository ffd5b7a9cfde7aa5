//! Operands and blocks in words.

use crate::refused_token::RefusedToken;
use crate::sentence::Word::{Address, Signature, Text};
use crate::sentence::say;
use crate::type_text::type_name;
use explanation::{BlockKind, Cause, OpenBlock, Opening, Space, Typing};
use std::alloc::AllocError;
use wsyntax::{Token, ValType};

/// How many operands of a list are shown, and how many tokens.
pub const SHOWN: usize = 32;

/// The last of a list, as many as are shown.
fn last_shown<T>(items: &[T]) -> &[T] {
    items
        .get(items.len().saturating_sub(SHOWN)..)
        .unwrap_or(items)
}

/// A list of operands, the topmost last, with a word for each whose type is not known.
pub(crate) fn push_operands(
    text: &mut String,
    operands: &[Option<ValType>],
    unknown: &'static str,
) -> Result<(), AllocError> {
    if operands.is_empty() {
        return text.push_str("nothing");
    }
    text.push_str(if operands.len() > SHOWN { ".. " } else { "" })?;
    for (position, operand) in last_shown(operands).iter().enumerate() {
        text.push_str(if position == 0 { "" } else { " " })?;
        text.push_str(operand.map_or(unknown, type_name))?;
    }
    Ok(())
}

/// The name of what opens a block.
pub fn block_name(kind: BlockKind) -> &'static str {
    match kind {
        BlockKind::Block => "block",
        BlockKind::Loop => "loop",
        BlockKind::If => "if",
        BlockKind::Else => "else",
    }
}

/// A block, and the byte where it begins.
pub(crate) fn push_opening(text: &mut String, opening: Opening) -> Result<(), AllocError> {
    let words = [Text(block_name(opening.kind)), Address(opening.at)];
    say(text, "{} at {}", &words)
}

/// The line on an open block.
fn push_within(text: &mut String, block: &OpenBlock) -> Result<(), AllocError> {
    let Some(opening) = block.opening else {
        return Ok(());
    };
    text.push_str("within    ")?;
    push_opening(text, opening)?;
    say(text, ", {}\n", &[Signature(&block.signature)])
}

/// How many labels matter to a token, that of the function counted: to a branch those up to its own, or all where that does not exist, to
/// another the innermost.
fn count_within(token: RefusedToken<'_>) -> usize {
    if let Some(
        Cause::NoIndex {
            space: Space::Labels,
            count,
            ..
        },
    ) = token.cause
    {
        return *count;
    }
    match token.found.token {
        Token::Br(label) | Token::BrIf(label) => (label.index as usize).saturating_add(1),
        Token::BrTable { .. } => match token.found.targets.iter().max() {
            Some(label) => (*label as usize).saturating_add(1),
            None => 1,
        },
        _ => 1,
    }
}

/// The lines on the blocks in which a token stands, with two dots where more matter to it than are told.
pub(crate) fn push_blocks(
    text: &mut String,
    token: RefusedToken<'_>,
    typing: &Typing,
) -> Result<(), AllocError> {
    let (blocks, count) = (typing.within.as_slice(), count_within(token));
    for block in blocks.get(..count).unwrap_or(blocks) {
        push_within(text, block)?;
    }
    if token.cause.is_some() && count.saturating_sub(1) > blocks.len() {
        text.push_str("within    ..\n")?;
    }
    Ok(())
}
