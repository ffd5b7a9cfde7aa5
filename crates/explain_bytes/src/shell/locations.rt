//! Where reading a module stops, section by section (5.5.2, 5.5.15).
ghost use Rattle.std.specs.Prelude.{◌≡◌, ℕ, List, ◌∷◌, Some, IfOk, IfSome, drop, slice_get};
ghost use Rattle.explanation.specs.declared.shell_location.SectionPart.TheVariants.{Count, Id};
ghost use Rattle.explain_bytes.specs.Shells.{place_of as place_meant};
ghost use Rattle.explain_bytes.specs.Shells.{AreUnlike, Holds, IsOfId, IsWrong, Stands, TellsLocation, TellsPart, TellsStep};

use crate::sections::{CODE, CUSTOM, DATA, DATA_COUNT, FUNCTION, GLOBAL, HEADER, TAG};
use crate::shell::contents::{ContentsEnd, Lapse, LaterSegment, after_contents};
use crate::shell::primitives::{Stuck, sized_at};
use crate::values::first_value;
use explanation::{FoundSection, Location, OtherSegment, SectionPart, Span, Wanted, Wrong};
use std::alloc::{AllocError, Global};

/// What the sections up to some offset say.
#[derive(Clone, Copy)]
pub(crate) struct Walk {
    pub(crate) at: usize,
    /// The id of the last section, custom ones aside.
    pub(crate) last: u8,
    pub(crate) functions: u32,
    pub(crate) bodies: u32,
}

/// One section further.
#[derive(Clone, Copy)]
pub(crate) enum Step {
    After(Walk),
    /// Reading stopped; `None` where the location is not known.
    Stopped(Option<Location>),
}

/// The segment of a later standard that reading came to, in a section that ends at offset `to`.
fn segment_in(to: usize, lapse: Lapse<'_>) -> Option<OtherSegment> {
    let LaterSegment {
        position,
        first,
        rest,
    } = lapse.segment?;
    let at = to.saturating_sub(rest.len());
    Some(OtherSegment {
        position,
        first,
        at,
    })
}

/// The location where reading stopped in that section, whose end the bytes left there come before.
fn told(bytes: &[u8], section: FoundSection, lapse: Lapse<'_>) -> Option<Location>
    requires id { slice_get bytes.now section.span.from ≡ Some section.id }
    requires part { TellsPart bytes.now section lapse.wrong lapse.part }
    requires wrong { IsWrong section.id lapse.rest.now lapse.wrong }
    ensures { IfSome result (TellsLocation bytes.now) }
{
    let to = section.span.to;
    let at = to.saturating_sub(lapse.rest.len());
    let found = bytes.get(at..to)?;
    if found != lapse.rest {
        return None;
    }
    Some(Location {
        section: Some(section),
        part: lapse.part,
        at,
        wrong: lapse.wrong,
        segment: segment_in(to, lapse),
        value: first_value(bytes.get(..at)?, section),
    })
}

/// The least id of the sections before which one of that id stands, in later standards too.
fn place_of(id: u8) -> u8
    ensures { result ≡ place_meant id }
{
    match id {
        DATA_COUNT => CODE,
        TAG => GLOBAL,
        _ => id,
    }
}

/// What is wrong with the id of a section after others.
fn wrong_id(id: u8, last: u8) -> Option<Wrong>
    ensures { IfSome result (λ w. IsOfId w × ((bytes : List ℕ) → IsWrong id bytes w)) }
{
    if id != CUSTOM && place_of(id) <= last {
        return Some(Wrong::Order { last });
    }
    if id > DATA {
        return Some(Wrong::Id);
    }
    None
}

/// The count that contents begin with.
fn first_count(contents: &[u8]) -> u32 {
    match wnum::front_u32(contents) {
        Some((count, _rest)) => count,
        None => 0,
    }
}

/// Whether more bytes could mend what is wrong.
fn is_short(wrong: Wrong) -> bool {
    matches!(
        wrong,
        Wrong::Ends(_) | Wrong::Cut(_) | Wrong::CutConstant(_) | Wrong::Beyond { .. }
    )
}

/// How many bytes contents take that begin at offset `from`, where they need not end with their section.
fn taken_from(
    alloc: Global,
    bytes: &[u8],
    id: u8,
    from: usize,
) -> Result<Option<usize>, AllocError> {
    let Some(rest) = bytes.get(from..) else {
        return Ok(None);
    };
    match after_contents(alloc, id, rest)? {
        ContentsEnd::After { rest: after, .. } => Ok(Some(rest.len().saturating_sub(after.len()))),
        ContentsEnd::Stopped(_) | ContentsEnd::Unknown => Ok(None),
    }
}

/// What is wrong with the contents of a section that cannot be read on: its size, where they are read beyond its end.
fn mended(
    alloc: Global,
    bytes: &[u8],
    section: FoundSection,
    contents: &[u8],
    lapse: Lapse<'_>,
) -> Result<Wrong, AllocError>
    requires { Stands lapse.wrong lapse.rest.now }
    ensures { IfOk result (IsWrong section.id lapse.entry.rest.now) }
{
    if !is_short(lapse.wrong) {
        return Ok(lapse.wrong);
    }
    let says = contents.len();
    let from = section.span.to.saturating_sub(says);
    match taken_from(alloc, bytes, section.id, from)? {
        Some(takes) => Ok(Wrong::Size { says, takes }),
        None => Ok(lapse.wrong),
    }
}

/// The sections after one more, which holds these contents.
fn walk_after(walk: Walk, section: FoundSection, contents: &[u8]) -> Walk {
    let Walk {
        last,
        functions,
        bodies,
        at: _,
    } = walk;
    let id = section.id;
    Walk {
        at: section.span.to,
        last: if id == CUSTOM { last } else { id },
        functions: if id == FUNCTION {
            first_count(contents)
        } else {
            functions
        },
        bodies: if id == CODE {
            first_count(contents)
        } else {
            bodies
        },
    }
}

/// What is wrong with the number of bodies, where that section has the bodies.
fn wrong_count<'a>(walk: Walk, id: u8, contents: &'a [u8]) -> Option<Lapse<'a>>
    ensures { IfSome result (λ l. (l.part ≡ Count) × AreUnlike l.wrong × IsWrong id l.rest.now l.wrong) }
{
    let functions = walk.functions;
    let (bodies, _rest) = wnum::front_u32(contents)?;
    if id != CODE || bodies == functions {
        return None;
    }
    Some(Lapse {
        part: SectionPart::Count,
        rest: contents,
        wrong: Wrong::Counts { functions, bodies },
        segment: None,
    })
}

/// Reads past a section with these contents.
fn step_in(
    alloc: Global,
    bytes: &[u8],
    walk: Walk,
    section: FoundSection,
    contents: &[u8],
) -> Result<Step, AllocError>
    requires id { slice_get bytes.now section.span.from ≡ Some section.id }
    requires contents { Holds bytes.now section contents.now }
    ensures { IfOk result (TellsStep bytes.now) }
{
    if let Some(lapse) = wrong_count(walk, section.id, contents) {
        return Ok(Step::Stopped(told(bytes, section, lapse)));
    }
    match after_contents(alloc, section.id, contents)? {
        ContentsEnd::Unknown => Ok(Step::Stopped(None)),
        ContentsEnd::Stopped(lapse) => {
            let wrong = mended(alloc, bytes, section, contents, lapse)?;
            let lapse = Lapse { wrong, ..lapse };
            Ok(Step::Stopped(told(bytes, section, lapse)))
        }
        ContentsEnd::After { rest, segment } => {
            if rest.is_empty() || section.id == CUSTOM {
                return Ok(Step::After(walk_after(walk, section, contents)));
            }
            let says = contents.len();
            let takes = says.saturating_sub(rest.len());
            let lapse = Lapse {
                part: SectionPart::End,
                rest,
                wrong: Wrong::Size { says, takes },
                segment,
            };
            Ok(Step::Stopped(told(bytes, section, lapse)))
        }
    }
}

/// Reads past a section whose id stands at offset `walk.at`, and its size and contents after it.
fn step_at(
    alloc: Global,
    bytes: &[u8],
    walk: Walk,
    id: u8,
    sized: &[u8],
) -> Result<Step, AllocError>
    requires id { slice_get bytes.now walk.at ≡ Some id }
    requires sized { drop walk.at bytes.now ≡ id ∷ sized.now }
    ensures { IfOk result (TellsStep bytes.now) }
{
    let from = walk.at;
    let end = bytes.len();
    match sized_at(sized, Wanted::SectionSize) {
        Ok((contents, after)) => {
            let to = end.saturating_sub(after.len());
            let span = Span { from, to };
            let section = FoundSection { id, span };
            step_in(alloc, bytes, walk, section, contents)
        }
        Err(Stuck::Here { rest, wrong }) => {
            let span = Span { from, to: end };
            let section = FoundSection { id, span };
            let lapse = Lapse {
                part: SectionPart::Size,
                rest,
                wrong,
                segment: None,
            };
            Ok(Step::Stopped(told(bytes, section, lapse)))
        }
        Err(Stuck::Memory) => Err(AllocError),
    }
}

/// The location at the end of a module that has other numbers of functions and of bodies.
fn end_location(bytes: &[u8], walk: Walk) -> Option<Location>
    ensures { IfSome result (TellsLocation bytes.now) }
{
    let functions = walk.functions;
    let bodies = walk.bodies;
    if functions == bodies {
        return None;
    }
    Some(Location {
        section: None,
        part: SectionPart::End,
        at: bytes.len(),
        wrong: Wrong::Counts { functions, bodies },
        segment: None,
        value: None,
    })
}

/// One section further, or the end.
fn go_on(alloc: Global, bytes: &[u8], walk: Walk) -> Result<Step, AllocError>
    ensures { IfOk result (TellsStep bytes.now) }
{
    let Some(id) = bytes.get(walk.at).copied() else {
        return Ok(Step::Stopped(end_location(bytes, walk)));
    };
    let Some([_id, sized @ ..]) = bytes.get(walk.at..) else {
        return Ok(Step::Stopped(None));
    };
    if let Some(wrong) = wrong_id(id, walk.last) {
        let span = Span {
            from: walk.at,
            to: bytes.len(),
        };
        let section = FoundSection { id, span };
        let lapse = Lapse {
            part: SectionPart::Id,
            rest: bytes.get(walk.at..).unwrap_or(bytes),
            wrong,
            segment: None,
        };
        return Ok(Step::Stopped(told(bytes, section, lapse)));
    }
    step_at(alloc, bytes, walk, id, sized)
}

/// Where reading the sections of a module stops that is malformed outside its bodies.
pub fn location_of(alloc: Global, bytes: &[u8]) -> Result<Option<Location>, AllocError>
    ensures { IfOk result (λ p. IfSome p (TellsLocation bytes.now)) }
{
    let mut walk = Walk {
        at: HEADER,
        last: 0,
        functions: 0,
        bodies: 0,
    };
    for _ in 0..bytes.len() {
        match go_on(alloc, bytes, walk)? {
            Step::After(next) => walk = next,
            Step::Stopped(location) => return Ok(location),
        }
    }
    Ok(None)
}
