//! Where an item of a section stands in its module (5.5.2).
ghost use Rattle.std.specs.Prelude.{IfOk, IfSome};
ghost use Rattle.explain_bytes.specs.Shells.{HasSection, IsItemAt, IsItemIn};

use crate::sections::{HEADER, START};
use crate::shell::contents::{ContentsEnd, after_items, items_of};
use crate::shell::primitives::sized_at;
use explanation::Wanted;
use std::alloc::{AllocError, Global};
use wnum::front_u32;

/// What the first section of that id holds, and the bytes after it.
pub(crate) fn section_of(bytes: &[u8], id: u8) -> Option<(&[u8], &[u8])>
    ensures { IfSome result (λ x. HasSection bytes.now id x.0.now x.1.now) }
{
    let mut rest = bytes.get(HEADER..)?;
    for passed in 0..bytes.len() {
        let [found, sized @ ..] = rest else {
            return None;
        };
        let (contents, after) = sized_at(sized, Wanted::SectionSize).ok()?;
        if *found == id {
            return Some((contents, after));
        }
        rest = after;
    }
    None
}

/// What a section of that id with these contents has from the item at that position on.
fn from_item<'a>(
    alloc: Global,
    id: u8,
    contents: &'a [u8],
    position: usize,
) -> Result<Option<&'a [u8]>, AllocError>
    ensures { IfOk result (λ o. IfSome o (λ rest. IsItemIn id contents.now position rest.now)) }
{
    if id == START {
        return Ok(if position == 0 { Some(contents) } else { None });
    }
    let (Some(items), Some((count, first))) = (items_of(id), front_u32(contents)) else {
        return Ok(None);
    };
    if position >= count as usize {
        return Ok(None);
    }
    match after_items(alloc, items, position as u32, first)? {
        ContentsEnd::After { rest, .. } => Ok(Some(rest)),
        ContentsEnd::Stopped(_) | ContentsEnd::Unknown => Ok(None),
    }
}

/// The offset of the item at that position of the section of that id.
pub fn item_offset(
    alloc: Global,
    bytes: &[u8],
    id: u8,
    position: usize,
) -> Result<Option<usize>, AllocError>
    ensures { IfOk result (λ at. IfSome at (IsItemAt bytes.now id position)) }
{
    let Some((contents, others)) = section_of(bytes, id) else {
        return Ok(None);
    };
    let Some(rest) = from_item(alloc, id, contents, position)? else {
        return Ok(None);
    };
    let end = bytes.len().saturating_sub(others.len());
    let at = end.saturating_sub(rest.len());
    Ok(if at < bytes.len() { Some(at) } else { None })
}
