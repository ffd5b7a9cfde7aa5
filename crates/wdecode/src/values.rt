//! Bytes, vectors and names (5.1.3, 5.2).
ghost use Rattle.std.specs.Prelude.{◌≡◌, ℕ, List, [], Option, map};
ghost use Rattle.std.specs.Str.{is_utf8};
ghost use Rattle.wdecode.specs.Gives.{Gives};
ghost use Rattle.wsyntax.specs.Binary.Production.{times_at as times_of};
ghost use Rattle.wsyntax.specs.Binary.Values.{u32 as u32_production, vector_at as vector_of, blob, name};

use crate::fault::Fault;
use std::alloc::Global;

/// A number u32 (5.2.2).
#[inline(always)]
pub fn u32_at(bytes: &[u8]) -> Result<(u32, &[u8]), Fault>
    ensures { Gives (λ x. (x.0, x.1.now)) result (u32_production.read bytes.now) }
{
    match wnum::front_u32(bytes) {
        None => Err(Fault::Malformed),
        Some((value, rest)) => Ok((value, rest)),
    }
}

/// A vector of bytes, as it lies in the input (5.1.3).
#[inline(always)]
pub fn blob_at(bytes: &[u8]) -> Result<(&[u8], &[u8]), Fault>
    ensures { Gives (λ x. (x.0.now, x.1.now)) result (blob.read bytes.now) }
{
    let (len, rest) = u32_at(bytes)?;
    let len = len as usize;
    if rest.len() < len {
        return Err(Fault::Malformed);
    }
    let (front, rest) = rest.split_at(len);
    Ok((front, rest))
}

/// Whether bytes are UTF-8.
fn is_text(bytes: &[u8]) -> bool
    ensures { result ≡ is_utf8 bytes.now }
{
    if bytes.is_ascii() {
        return true;
    }
    match simdutf8::basic::from_utf8(bytes) {
        Err(_) => false,
        Ok(_) => true,
    }
}

/// A name (5.2.4).
#[tactic(auto, unfolding(wsyntax::specs::Binary::Values::name))]
pub fn name_at(bytes: &[u8]) -> Result<(&[u8], &[u8]), Fault>
    ensures { Gives (λ x. (x.0.now, x.1.now)) result (name.read bytes.now) }
{
    let (front, rest) = blob_at(bytes)?;
    if is_text(front) {
        Ok((front, rest))
    } else {
        Err(Fault::Malformed)
    }
}

/// What a vector holds.
pub trait Item<'a>: Sized + Drop {
    /// What a value is, without where it lies in memory.
    ghost Shape: { Type 0 };

    ghost shape: { Self → Shape };

    /// What the front of bytes spells, and the bytes after it.
    ghost at: { List ℕ → Option (Shape × List ℕ) };

    /// The fewest bytes of a value.
    const LEAST: usize;

    fn read(alloc: Global, bytes: &'a [u8]) -> Result<(Self, &'a [u8]), Fault>
        ensures { Gives (λ x. (shape x.0, x.1.now)) result (at bytes.now) };
}

/// Reads `count` values into an empty list. Room is made for as many as the bytes can hold, and for no more.
#[inline(never)]
fn times_into<'a, T: Item<'a>>(
    alloc: Global,
    items: &mut Vec<T>,
    count: u32,
    bytes: &'a [u8],
) -> Result<&'a [u8], Fault>
    requires { items.old.items ≡ [] }
    ensures { Gives (λ rest. (map T.shape items.new.items, rest.now)) result (times_of T.at count bytes.now) }
{
    let most = bytes.len() / T::LEAST.max(1);
    items.reserve_exact(most.min(count as usize))?;
    let mut rest = bytes;
    for _ in 0..count {
        let (item, after) = T::read(alloc, rest)?;
        items.push(item)?;
        rest = after;
    }
    Ok(rest)
}

/// A vector (5.1.3), in place of what the list held, and the bytes after it. One of no values is read in place.
#[inline(always)]
pub fn vector_into<'a, T: Item<'a>>(
    alloc: Global,
    items: &mut Vec<T>,
    bytes: &'a [u8],
) -> Result<&'a [u8], Fault>
    ensures { Gives (λ rest. (map T.shape items.new.items, rest.now)) result (vector_of T.at bytes.now) }
{
    items.clear();
    let (count, rest) = u32_at(bytes)?;
    if count == 0 {
        return Ok(rest);
    }
    times_into(alloc, items, count, rest)
}

/// A vector (5.1.3).
#[inline(always)]
pub fn vector_at<'a, T: Item<'a>>(
    alloc: Global,
    bytes: &'a [u8],
) -> Result<(Vec<T>, &'a [u8]), Fault>
    ensures { Gives (λ x. (map T.shape x.0.items, x.1.now)) result (vector_of T.at bytes.now) }
{
    let mut items = Vec::new(alloc);
    let rest = vector_into(alloc, &mut items, bytes)?;
    Ok((items, rest))
}

impl<'a> Item<'a> for u32 {
    ghost Shape = { ℕ };

    ghost shape = { λ n. n };

    ghost at = { u32_production.read };

    const LEAST: usize = 1;

    fn read(_alloc: Global, bytes: &'a [u8]) -> Result<(u32, &'a [u8]), Fault> {
        u32_at(bytes)
    }
}

impl<'a> Item<'a> for &'a [u8] {
    ghost Shape = { List ℕ };

    ghost shape = { λ s. s.now };

    ghost at = { blob.read };

    const LEAST: usize = 1;

    fn read(_alloc: Global, bytes: &'a [u8]) -> Result<(&'a [u8], &'a [u8]), Fault> {
        blob_at(bytes)
    }
}
