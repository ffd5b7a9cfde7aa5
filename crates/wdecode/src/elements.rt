//! Element segments (5.5.12).
ghost use Rattle.std.specs.Prelude.{◌≡◌, ℕ, List, Option, map};
ghost use Rattle.wdecode.specs.Gives.{Gives};
ghost use Rattle.wdecode.specs.Segments.{GivesFunctions, GivesElement};
ghost use Rattle.wsyntax.specs.Modules.{element_shape};
ghost use Rattle.wsyntax.specs.Binary.Production.{times_at as times_of, whole_at};
ghost use Rattle.wsyntax.specs.Binary.Values.{u32 as u32_production, vector_at as vector_of};
ghost use Rattle.wsyntax.specs.Binary.Sections.{element};

use crate::fault::Fault;
use crate::initial::offset_at;
use crate::values::u32_at;
use std::alloc::Global;
use wsyntax::Elements;

/// Reads `count` functions into the last segment, after those that it has.
fn functions_at<'a>(
    elements: &mut Elements<'_>,
    count: u32,
    bytes: &'a [u8],
) -> Result<&'a [u8], Fault>
    ensures { GivesFunctions (λ x. x.now) elements.old elements.new result (times_of u32_production.read count bytes.now) }
{
    let mut rest = bytes;
    for _ in 0..count {
        let (function, after) = u32_at(rest)?;
        elements.push_function(function)?;
        rest = after;
    }
    Ok(rest)
}

/// An element segment (5.5.12), which is put after the others.
fn element_at<'a>(
    alloc: Global,
    elements: &mut Elements<'a>,
    bytes: &'a [u8],
) -> Result<&'a [u8], Fault>
    ensures { GivesElement (λ x. x.now) elements.old elements.new result (element.read bytes.now) }
{
    let (table, rest) = u32_at(bytes)?;
    let (offset, rest) = offset_at(alloc, rest)?;
    elements.push(table, offset)?;
    let (count, rest) = u32_at(rest)?;
    functions_at(elements, count, rest)
}

/// The fewest bytes of an element segment.
const LEAST_ELEMENT: usize = 3;

/// Element segments, `count` of them in a row. Room is made for as many as the bytes can hold, and for no more.
fn elements_at(alloc: Global, count: u32, bytes: &[u8]) -> Result<(Elements<'_>, &[u8]), Fault>
    ensures { Gives (λ x. (map element_shape x.0, x.1.now)) result (times_of element.read count bytes.now) }
{
    let most = bytes.len() / LEAST_ELEMENT;
    let mut elements = Elements::with_capacity(alloc, most.min(count as usize))?;
    let mut rest = bytes;
    for _ in 0..count {
        rest = element_at(alloc, &mut elements, rest)?;
    }
    Ok((elements, rest))
}

/// The element segments that fill bytes (5.5.12).
pub fn filled_elements(alloc: Global, bytes: &[u8]) -> Result<Elements<'_>, Fault>
    ensures { Gives (map element_shape) result (whole_at (vector_of element.read) bytes.now) }
{
    let (count, rest) = u32_at(bytes)?;
    let (elements, rest) = elements_at(alloc, count, rest)?;
    if rest.is_empty() {
        Ok(elements)
    } else {
        Err(Fault::Malformed)
    }
}
