//! What a refused file is that has the header of a module, or what became of it on its way: a hint, which no clause speaks of.

use crate::sections::{CUSTOM, HEADER};
use crate::shell::primitives::{is_text, sized_at};
use explanation::{Places, Sign, Wanted};

/// Whether that is the name of a custom section that only object files have.
fn is_object_name(name: &[u8]) -> bool {
    matches!(
        name,
        [b'l', b'i', b'n', b'k', b'i', b'n', b'g'] | [b'r', b'e', b'l', b'o', b'c', b'.', ..]
    )
}

/// Whether a custom section with these contents has such a name.
fn names_object(contents: &[u8]) -> bool {
    match sized_at(contents, Wanted::NameSize) {
        Ok((name, _rest)) => is_object_name(name),
        Err(_) => false,
    }
}

/// Whether a custom section has such a name.
fn is_object(bytes: &[u8]) -> bool {
    let Some(mut rest) = bytes.get(HEADER..) else {
        return false;
    };
    for _ in 0..bytes.len() {
        let [id, sized @ ..] = rest else {
            return false;
        };
        let Ok((contents, after)) = sized_at(sized, Wanted::SectionSize) else {
            return false;
        };
        if *id == CUSTOM && names_object(contents) {
            return true;
        }
        rest = after;
    }
    false
}

/// One place more, at that offset.
fn place_more(places: Option<Places>, at: usize) -> Places {
    match places {
        None => Places { at, count: 1 },
        Some(places) => Places {
            at: places.at,
            count: places.count.saturating_add(1),
        },
    }
}

/// Where `ef bf bd` stands.
fn replaced(bytes: &[u8]) -> Option<Places> {
    let mut places = None;
    for at in 0..bytes.len() {
        if let [0xEF, 0xBF, 0xBD, ..] = bytes.get(at..)? {
            places = Some(place_more(places, at));
        }
    }
    places
}

/// Where `0d 0a` stands, of bytes that have `0a` nowhere else.
fn line_ends(bytes: &[u8]) -> Option<Places> {
    let mut places = None;
    for at in 0..bytes.len() {
        match bytes.get(at..)? {
            [b'\r', b'\n', ..] => places = Some(place_more(places, at)),
            [_, b'\n', ..] => return None,
            _ => {}
        }
    }
    places
}

/// What the bytes of a file tell that has the header of a module and is refused.
pub fn sign_of(bytes: &[u8]) -> Option<Sign> {
    if is_object(bytes) {
        return Some(Sign::Object);
    }
    if is_text(bytes)
        && let Some(places) = replaced(bytes)
    {
        return Some(Sign::Replaced(places));
    }
    Some(Sign::LineEnds(line_ends(bytes)?))
}
