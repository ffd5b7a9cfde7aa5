//! What is told of the typing of a token, as members.

use crate::values::{Entry, Fact, Field, add, number_field, text_field};
use explain_text::{SHOWN, block_name, push_instruction, push_lists, type_name};
use explanation::{FunctionSignature, Giver, OpenBlock, OpenBlocks, Opening, Typing};
use std::alloc::{AllocError, Global};
use wsyntax::ValType;

/// The last of a list, as many as the text shows.
fn last_shown<T>(items: &[T]) -> &[T] {
    items
        .get(items.len().saturating_sub(SHOWN)..)
        .unwrap_or(items)
}

/// A function type, as a member.
pub fn type_field(alloc: Global, signature: &FunctionSignature) -> Result<Field, AllocError> {
    let mut text = String::new(alloc);
    push_lists(&mut text, &signature.params, &signature.results)?;
    Ok(text_field("type", text))
}

/// Operands as words, of which that one stands for a type that is not known.
fn operands(
    alloc: Global,
    types: &[Option<ValType>],
    unknown: &'static str,
) -> Result<Vec<String>, AllocError> {
    let mut words = Vec::new(alloc);
    for operand in last_shown(types) {
        let word = match operand {
            Some(of_type) => type_name(*of_type),
            None => unknown,
        };
        words.push(String::from_str(alloc, word)?)?;
    }
    Ok(words)
}

/// What opened a block: its kind, and its first byte.
fn opening_fields(
    alloc: Global,
    opening: Opening,
    kind: &'static str,
    at: &'static str,
) -> Result<Vec<Field>, AllocError> {
    let mut fields = Vec::new(alloc);
    let name = String::from_str(alloc, block_name(opening.kind))?;
    fields.push(text_field(kind, name))?;
    fields.push(number_field(at, opening.at))?;
    Ok(fields)
}

/// A token that gave an operand.
fn giver_fields(alloc: Global, giver: &Giver) -> Result<Vec<Field>, AllocError> {
    let mut text = String::new(alloc);
    push_instruction(&mut text, giver.opcode, giver.token, &[])?;
    let mut fields = Vec::new(alloc);
    fields.push(number_field("token", giver.position))?;
    fields.push(text_field("instruction", text))?;
    if let Some(opening) = giver.ends {
        let mut ended = opening_fields(alloc, opening, "block", "block_byte")?;
        fields.append(&mut ended)?;
    }
    Ok(fields)
}

/// The tokens that gave operands.
fn givers(alloc: Global, given_by: &[Giver]) -> Result<Vec<Vec<Field>>, AllocError> {
    let mut records = Vec::new(alloc);
    for giver in last_shown(given_by) {
        records.push(giver_fields(alloc, giver)?)?;
    }
    Ok(records)
}

/// The blocks that a token stands in.
fn blocks(alloc: Global, within: &[OpenBlock]) -> Result<Vec<Vec<Field>>, AllocError> {
    let mut records = Vec::new(alloc);
    for block in within {
        if let Some(opening) = block.opening {
            let mut fields = opening_fields(alloc, opening, "kind", "byte")?;
            fields.push(type_field(alloc, &block.signature)?)?;
            records.push(fields)?;
        }
    }
    Ok(records)
}

/// Adds an array of objects, where it has some.
fn push_records(
    entries: &mut Vec<Entry>,
    key: &'static str,
    records: Vec<Vec<Field>>,
) -> Result<(), AllocError> {
    if records.is_empty() {
        return Ok(());
    }
    add(entries, key, Fact::Records(records))
}

/// Adds the blocks that are open where a body ends.
pub fn push_unclosed(
    alloc: Global,
    entries: &mut Vec<Entry>,
    unclosed: &OpenBlocks,
) -> Result<(), AllocError> {
    let mut records = Vec::new(alloc);
    for opening in &unclosed.outermost {
        records.push(opening_fields(alloc, *opening, "kind", "byte")?)?;
    }
    push_records(entries, "unclosed", records)
}

/// Adds what is told of the typing of a token.
pub fn push_typing(
    alloc: Global,
    entries: &mut Vec<Entry>,
    typing: &Typing,
) -> Result<(), AllocError> {
    if !typing.takes.is_empty() || !typing.finds.is_empty() {
        add(
            entries,
            "takes",
            Fact::Texts(operands(alloc, &typing.takes, "any")?),
        )?;
        add(
            entries,
            "finds",
            Fact::Texts(operands(alloc, &typing.finds, "?")?),
        )?;
    }
    push_records(entries, "given_by", givers(alloc, &typing.given_by)?)?;
    push_records(entries, "blocks", blocks(alloc, &typing.within)?)
}
