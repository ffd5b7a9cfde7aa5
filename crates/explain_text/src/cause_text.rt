//! Why a token is ill typed, in a sentence.

use crate::refused_token::RefusedToken;
use crate::sentence::Word::{
    Empty, Index, Name, Number, Opcode, Operand, Place, Power, Signature, Text, Type, Types,
};
use crate::sentence::{Word, say};
use crate::token_text::push_instruction;
use crate::typing_text::push_operands;
use explanation::{Cause, FoundToken, Space, Typing};
use std::alloc::AllocError;
use wsyntax::Token;

/// The name of what a space has.
fn space_name(space: Space) -> &'static str {
    match space {
        Space::Types => "type",
        Space::Functions => "function",
        Space::Globals => "global",
        Space::Locals => "local",
        Space::Labels => "label",
    }
}

/// A label of a branch table, and the first position at which it names it, from 0.
fn push_label(text: &mut String, found: &FoundToken, label: u32) -> Result<(), AllocError> {
    let place = found.targets.iter().position(|target| *target == label);
    let sentence = match place {
        None => "label {} of the branch table",
        Some(place) if place + 1 == found.targets.len() =>
            "label {} of the branch table, its default,",
        Some(_) => "label {} of the branch table, at place {},",
    };
    let words = [Index(label), Number(place.unwrap_or(0))];
    say(text, sentence, &words)
}

/// What the sentence begins with: the token where its operands are wrong, or what it names.
fn push_subject(
    text: &mut String,
    token: RefusedToken<'_>,
    cause: &Cause,
) -> Result<(), AllocError> {
    let found = token.found;
    match (cause, found.token) {
        (Cause::Operand { .. } | Cause::Missing { .. }, instruction) => {
            push_instruction(text, found.opcode, instruction, &[])?;
            match token.callee {
                Some(name) => say(text, " {}", &[Name(name)]),
                None => Ok(()),
            }
        }
        (Cause::NoIndex { index: label, .. }, Token::BrTable { .. })
        | (Cause::Labels { label, .. }, _) => push_label(text, found, *label),
        (Cause::NoIndex { space, index, .. }, _) => {
            say(text, "{} {}", &[Text(space_name(*space)), Index(*index)])
        }
        _ => Ok(()),
    }
}

/// The sentence, behind what it begins with.
fn cause_sentence(cause: &Cause) -> &'static str {
    match cause {
        Cause::Operand { .. } => " takes {}{}, and finds {}",
        Cause::Missing { position: 0, .. } => " takes {}, and {} stack is empty",
        Cause::Missing { position: 1, .. } => " takes {}{}, and {} stack has {} operand",
        Cause::Missing { .. } => " takes {}{}, and {} stack has {} operands",
        Cause::LeftOver { count: 1 } => "{} operand is left over at {}",
        Cause::LeftOver { .. } => "{} operands are left over at {}",
        Cause::NoElse(_) =>
            "the if has no else, and its type {} gives other types than it takes: add an else",
        Cause::NoIndex {
            space: Space::Labels,
            count: 1,
            ..
        } => " does not exist: there is label 0 alone",
        Cause::NoIndex {
            space: Space::Labels,
            ..
        } => " does not exist: there are labels 0 to {}",
        Cause::NoIndex { count: 1, .. } => " does not exist: there is {} {}",
        Cause::NoIndex { .. } => " does not exist: there are {} {}s",
        Cause::Immutable { .. } => "global {} is immutable",
        Cause::NoMemory => "memory 0 does not exist",
        Cause::NoTable => "table 0 does not exist",
        Cause::Alignment { largest: 0, .. } => "the alignment {} is larger than {} byte",
        Cause::Alignment { .. } => "the alignment {} is larger than {} bytes",
        Cause::Labels { .. } => " takes {}, and its default {}",
        Cause::Select { .. } => "select takes two operands of one type, and finds {} and {}",
    }
}

/// The words that it wants; of operands that are missing, with those that say whose stack it is.
fn cause_words<'a>(opcode: u8, cause: &'a Cause, owner: &'static str) -> [Word<'a>; 4] {
    match cause {
        Cause::Operand {
            position,
            wanted,
            found,
        } => [
            Operand(Some(*wanted)),
            Place(*position),
            Operand(Some(*found)),
            Empty,
        ],
        Cause::Missing {
            position: 0,
            wanted,
        } => [Operand(*wanted), Text(owner), Empty, Empty],
        Cause::Missing { position, wanted } => [
            Operand(*wanted),
            Place(*position),
            Text(owner),
            Number(*position),
        ],
        Cause::LeftOver { count } => [Number(*count), Opcode(opcode), Empty, Empty],
        Cause::NoElse(signature) => [Signature(signature), Empty, Empty, Empty],
        Cause::NoIndex {
            space: Space::Labels,
            count,
            ..
        } => [Number(count.saturating_sub(1)), Empty, Empty, Empty],
        Cause::NoIndex { space, count, .. } => [
            Number(*count),
            Text(space_name(*space)),
            Empty,
            Empty,
        ],
        Cause::Immutable { global } => [Index(*global), Empty, Empty, Empty],
        Cause::NoMemory | Cause::NoTable => [Empty; 4],
        Cause::Alignment { align, largest } => [Power(*align), Power(*largest), Empty, Empty],
        Cause::Labels { takes, others, .. } => [Types(takes), Types(others), Empty, Empty],
        Cause::Select { above, below } => [Type(*below), Type(*above), Empty, Empty],
    }
}

/// Whose stack the token takes its operands from.
fn owner_of(typing: Option<&Typing>) -> &'static str {
    match typing {
        Some(typing) if typing.within.is_empty() => "the function's",
        Some(_) => "the block's",
        None => "its",
    }
}

/// What a token takes, and what it finds.
fn push_both(text: &mut String, typing: &Typing) -> Result<(), AllocError> {
    text.push_str(" takes ")?;
    push_operands(text, &typing.takes, "any")?;
    text.push_str(", and finds ")?;
    push_operands(text, &typing.finds, "?")
}

/// The sentence on why a token is refused, which that is.
pub fn push_cause(
    text: &mut String,
    token: RefusedToken<'_>,
    cause: &Cause,
) -> Result<(), AllocError> {
    push_subject(text, token, cause)?;
    match token.typing {
        Some(typing) if token.is_told_by_lists() => push_both(text, typing),
        typing => say(
            text,
            cause_sentence(cause),
            &cause_words(token.found.opcode, cause, owner_of(typing)),
        ),
    }
}
