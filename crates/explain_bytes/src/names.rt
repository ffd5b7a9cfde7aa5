//! The name of a function in the custom section `name`: a hint, which is no part of the module. What cannot be read is
//! given up quietly.

use crate::sections::{CUSTOM, HEADER};
use crate::shell::primitives::sized_at;
use explanation::Wanted;
use wnum::front_u32;

/// The id of the names of functions among the names.
const FUNCTIONS: u8 = 1;

/// The id and the contents of a section, or of a part of the names, and the bytes after it.
fn part_at(bytes: &[u8]) -> Option<(u8, &[u8], &[u8])> {
    let [id, sized @ ..] = bytes else {
        return None;
    };
    let (contents, after) = sized_at(sized, Wanted::SectionSize).ok()?;
    Some((*id, contents, after))
}

/// What stands after the name of a custom section, where that is `name`.
fn names_inside(contents: &[u8]) -> Option<&[u8]> {
    let (name, names) = sized_at(contents, Wanted::NameSize).ok()?;
    if name == b"name".as_slice() {
        Some(names)
    } else {
        None
    }
}

/// The last custom section named `name`.
fn last_names(bytes: &[u8]) -> Option<&[u8]> {
    let mut rest = bytes.get(HEADER..)?;
    let mut last = None;
    for _ in 0..bytes.len() {
        let Some((id, contents, after)) = part_at(rest) else {
            return last;
        };
        if id == CUSTOM {
            last = names_inside(contents).or(last);
        }
        rest = after;
    }
    last
}

/// The names of functions among the names.
fn function_names(names: &[u8]) -> Option<&[u8]> {
    let mut rest = names;
    for _ in 0..names.len() {
        let (id, contents, after) = part_at(rest)?;
        if id == FUNCTIONS {
            return Some(contents);
        }
        rest = after;
    }
    None
}

/// The name of the function of that index among names of functions.
fn name_among(names: &[u8], func: u32) -> Option<&[u8]> {
    let (count, mut rest) = front_u32(names)?;
    for _ in 0..count {
        let (index, named) = front_u32(rest)?;
        let (name, after) = sized_at(named, Wanted::NameSize).ok()?;
        if index == func {
            return Some(name);
        }
        rest = after;
    }
    None
}

/// The name of the function of that index, where the module tells one.
pub fn name_of(bytes: &[u8], func: u32) -> Option<&[u8]> {
    name_among(function_names(last_names(bytes)?)?, func)
}
