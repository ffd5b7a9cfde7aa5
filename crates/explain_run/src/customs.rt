//! The custom sections of a module (5.5.3): hints, which are no part of it. What cannot be read is given up quietly.

use std::alloc::{AllocError, Global};
use wnum::front_u32;

/// How many bytes the magic and the version are.
const HEADER: usize = 8;

/// The id of custom sections.
const CUSTOM: u8 = 0;

/// A custom section: its name, and how many bytes follow it.
#[derive(Clone, Copy)]
pub struct CustomSection<'a> {
    pub name: &'a [u8],
    pub bytes: usize,
}

/// The bytes that a size at the front counts, and those after them.
fn sized_front(bytes: &[u8]) -> Option<(&[u8], &[u8])> {
    let (size, rest) = front_u32(bytes)?;
    Some((rest.get(..size as usize)?, rest.get(size as usize..)?))
}

/// The id and the contents of the section at the front, and the bytes after it.
fn front_section(bytes: &[u8]) -> Option<(u8, &[u8], &[u8])> {
    let [id, sized @ ..] = bytes else {
        return None;
    };
    let (contents, after) = sized_front(sized)?;
    Some((*id, contents, after))
}

/// The custom section with these contents.
fn custom_in(contents: &[u8]) -> Option<CustomSection<'_>> {
    let (name, data) = sized_front(contents)?;
    Some(CustomSection {
        name,
        bytes: data.len(),
    })
}

/// The custom sections of a module, in their order. That they are, no contract says.
pub(crate) fn customs_of<'a>(
    alloc: Global,
    bytes: &'a [u8],
) -> Result<Vec<CustomSection<'a>>, AllocError> {
    let mut customs = Vec::new(alloc);
    let mut rest = bytes.get(HEADER..).unwrap_or(bytes);
    for _ in 0..bytes.len() {
        let Some((id, contents, after)) = front_section(rest) else {
            return Ok(customs);
        };
        if let (CUSTOM, Some(custom)) = (id, custom_in(contents)) {
            customs.push(custom)?;
        }
        rest = after;
    }
    Ok(customs)
}
