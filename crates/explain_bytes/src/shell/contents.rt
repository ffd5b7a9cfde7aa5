//! What a section holds (5.5.3 to 5.5.14), read past item by item.
ghost use Rattle.std.specs.Prelude.{◌≡◌, ℕ, List, Option, IfOk, IfSome};
ghost use Rattle.explain_bytes.specs.Shells.{Comes, ContentsCome, ItemsCome, Passes, VectorComes, id_of};

use crate::sections::{CUSTOM, START};
use crate::shell::items::{Items, after_item};
use crate::shell::primitives::{Stuck, after_index, after_name, number_at};
use explanation::{SectionPart, Wanted, Wrong};
use std::alloc::{AllocError, Global};

/// A segment that begins with another number than 0, and the bytes from its first on.
#[derive(Clone, Copy)]
pub(crate) struct LaterSegment<'a> {
    pub(crate) position: u32,
    pub(crate) first: u32,
    pub(crate) rest: &'a [u8],
}

/// Where the contents of a section cannot be read on.
#[derive(Clone, Copy)]
pub(crate) struct Lapse<'a> {
    pub(crate) part: SectionPart,
    pub(crate) rest: &'a [u8],
    pub(crate) wrong: Wrong,
    pub(crate) segment: Option<LaterSegment<'a>>,
}

/// What comes of reading contents.
#[derive(Clone, Copy)]
pub(crate) enum ContentsEnd<'a> {
    /// The bytes after them, and the first segment of a later standard.
    After {
        rest: &'a [u8],
        segment: Option<LaterSegment<'a>>,
    },
    Stopped(Lapse<'a>),
    /// No section has that id.
    Unknown,
}

/// What the items of the section of that id are.
pub(crate) fn items_of(id: u8) -> Option<Items>
    ensures { IfSome result (λ items. id_of items ≡ id) }
{
    match id {
        1 => Some(Items::Types),
        2 => Some(Items::Imports),
        3 => Some(Items::Functions),
        4 => Some(Items::Tables),
        5 => Some(Items::Memories),
        6 => Some(Items::Globals),
        7 => Some(Items::Exports),
        9 => Some(Items::Elements),
        10 => Some(Items::Bodies),
        11 => Some(Items::Segments),
        _ => None,
    }
}

/// What comes of reading a part of contents, with the segment that is told beside.
fn part_read<'a>(
    part: SectionPart,
    read: Result<&'a [u8], Stuck<'a>>,
    segment: Option<LaterSegment<'a>>,
) -> Result<ContentsEnd<'a>, AllocError>
    ensures { IfOk result (λ o. (left : Option (List ℕ)) → Passes left read.entry → Comes part left o) }
{
    match read {
        Ok(rest) => Ok(ContentsEnd::After { rest, segment }),
        Err(Stuck::Memory) => Err(AllocError),
        Err(Stuck::Here { rest, wrong }) => Ok(ContentsEnd::Stopped(Lapse {
            part,
            rest,
            wrong,
            segment,
        })),
    }
}

/// The segment at that position, where it begins with another number than 0.
fn later_segment<'a>(items: Items, position: u32, bytes: &'a [u8]) -> Option<LaterSegment<'a>> {
    if items != Items::Elements && items != Items::Segments {
        return None;
    }
    let (first, _rest) = wnum::front_u32(bytes)?;
    if first == 0 {
        return None;
    }
    Some(LaterSegment {
        position,
        first,
        rest: bytes,
    })
}

/// Reads past as many items.
pub(crate) fn after_items<'a>(
    alloc: Global,
    items: Items,
    count: u32,
    bytes: &'a [u8],
) -> Result<ContentsEnd<'a>, AllocError>
    ensures { IfOk result (ItemsCome items count bytes.now) }
{
    let mut rest = bytes;
    let mut segment = None;
    for position in 0..count {
        segment = segment.or(later_segment(items, position, rest));
        let read = after_item(alloc, items, rest);
        match part_read(SectionPart::Item(position), read, segment)? {
            ContentsEnd::After { rest: after, .. } => rest = after,
            ContentsEnd::Stopped(lapse) => return Ok(ContentsEnd::Stopped(lapse)),
            ContentsEnd::Unknown => return Ok(ContentsEnd::Unknown),
        }
    }
    Ok(ContentsEnd::After { rest, segment })
}

/// Reads past a vector of items (5.1.3).
fn after_vector<'a>(
    alloc: Global,
    items: Items,
    bytes: &'a [u8],
) -> Result<ContentsEnd<'a>, AllocError>
    ensures { IfOk result (VectorComes items bytes.now) }
{
    match number_at(bytes, Wanted::Count) {
        Ok((count, first)) => after_items(alloc, items, count, first),
        Err(Stuck::Memory) => Err(AllocError),
        Err(Stuck::Here { rest, wrong }) => Ok(ContentsEnd::Stopped(Lapse {
            part: SectionPart::Count,
            rest,
            wrong,
            segment: None,
        })),
    }
}

/// Reads past what the section of that id holds.
pub(crate) fn after_contents<'a>(
    alloc: Global,
    id: u8,
    bytes: &'a [u8],
) -> Result<ContentsEnd<'a>, AllocError>
    ensures { IfOk result (ContentsCome id bytes.now) }
{
    if let Some(items) = items_of(id) {
        return after_vector(alloc, items, bytes);
    }
    match id {
        CUSTOM => part_read(SectionPart::Name, after_name(bytes), None),
        START => part_read(SectionPart::Start, after_index(bytes), None),
        _ => Ok(ContentsEnd::Unknown),
    }
}
