//! Initial values of globals and offsets of segments (3.3.7.2): where one begins, and which instruction in it is no constant.

use crate::misreads::after_immediates;
use crate::sections::{DATA, ELEMENT, GLOBAL};
use crate::shell::items::after_indices;
use crate::shell::primitives::{after_index, sized_at};
use crate::shell::type_items::after_global_type;
use explanation::{FoundSection, InitialValue, Wanted};
use wnum::front_u32;

/// The opcode of `end`.
const END: u8 = 0x0B;

/// The expression that stands in an item of the section of that id, and what follows it.
fn expression_in(id: u8, item: &[u8]) -> Option<&[u8]> {
    match id {
        GLOBAL => after_global_type(item).ok(),
        ELEMENT | DATA => after_index(item).ok(),
        _ => None,
    }
}

/// What is left of an expression from its first instruction on that is no constant; nothing where a constant cannot be read.
fn after_constants(expression: &[u8]) -> &[u8] {
    let mut rest = expression;
    for _ in 0..expression.len() {
        let [opcode @ (0x23 | 0x41..=0x44), immediates @ ..] = rest else {
            return rest;
        };
        match after_immediates(*opcode, immediates) {
            Ok(after) => rest = after,
            Err(_) => return &[],
        }
    }
    rest
}

/// The initial value or the offset of an item with which these bytes end, and what is left of it after its constants; `None`
/// where the bytes end before it. An `end` with nothing before it is no constant.
fn value_in<'a>(bytes: &[u8], id: u8, item: &'a [u8]) -> Option<(InitialValue, &'a [u8])> {
    let expression = expression_in(id, item)?;
    if expression.is_empty() {
        return None;
    }
    let rest = after_constants(expression);
    let end = bytes.len();
    let other = match rest {
        [] => None,
        [END, ..] if rest.len() < expression.len() => None,
        [opcode, ..] => Some((end.saturating_sub(rest.len()), *opcode)),
    };
    let at = end.saturating_sub(expression.len());
    Some((InitialValue { at, other }, rest))
}

/// Whether an instruction of it is of extended constants (Core 3.0): `add`, `sub` or `mul` of i32 or i64.
pub fn is_extended(value: InitialValue) -> bool {
    matches!(
        value.other,
        Some((_, 0x6A..=0x6C | 0x7C..=0x7E))
    )
}

/// That of the item that begins at that offset.
pub fn value_at(bytes: &[u8], id: u8, at: usize) -> Option<InitialValue> {
    let (value, _rest) = value_in(bytes, id, bytes.get(at..)?)?;
    Some(value)
}

/// The first of a section that has no end among the bytes, or in which an instruction is no constant.
pub(crate) fn first_value(bytes: &[u8], section: FoundSection) -> Option<InitialValue> {
    let [_id, sized @ ..] = bytes.get(section.span.from..)? else {
        return None;
    };
    let (_size, contents) = front_u32(sized)?;
    let (count, mut item) = front_u32(contents)?;
    for _ in 0..count {
        let (value, rest) = value_in(bytes, section.id, item)?;
        let [END, after @ ..] = rest else {
            return Some(value);
        };
        item = match section.id {
            ELEMENT => after_indices(after).ok()?,
            DATA => sized_at(after, Wanted::DataSize).ok()?.1,
            _ => after,
        };
    }
    None
}
