//! Numbers, names and the bytes after their size (5.1.3, 5.2), read past.
ghost use Rattle.std.specs.Prelude.{◌≡◌, ℕ, List, ◌∷◌, None};
ghost use Rattle.std.specs.Str.{is_utf8};
ghost use Rattle.wsyntax.specs.Binary.Values.{u32 as u32_production, blob, name};
ghost use Rattle.wdecode.specs.Gives.{rest_of};
ghost use Rattle.explain_bytes.specs.Shells.{Finds, FindsBytes, IsNone, Passes, Stands, StuckAt};

use explanation::{Wanted, Wrong};

/// Why what is wanted is not read.
#[derive(Clone, Copy)]
pub(crate) enum Stuck<'a> {
    /// These bytes, which are left, do not begin so.
    Here { rest: &'a [u8], wrong: Wrong },
    Memory,
}

/// The most bytes of a number u32 (5.2.2).
const MOST: usize = 5;

/// What is wrong with bytes that begin with no number u32.
fn wrong_number(bytes: &[u8], wanted: Wanted) -> Wrong
    requires { u32_production.read bytes.now ≡ None }
    ensures { Stands result bytes.now }
{
    if bytes.is_empty() {
        return Wrong::Ends(wanted);
    }
    for byte in bytes.get(..MOST).unwrap_or(bytes) {
        if *byte < 0x80 {
            return Wrong::LargeNumber(wanted);
        }
    }
    if bytes.len() < MOST {
        Wrong::Cut(wanted)
    } else {
        Wrong::LongNumber(wanted)
    }
}

/// A number u32 (5.2.2), and the bytes after it.
pub(crate) fn number_at<'a>(bytes: &'a [u8], wanted: Wanted) -> Result<(u32, &'a [u8]), Stuck<'a>>
    ensures { Finds (u32_production.read bytes.now) result }
{
    match wnum::front_u32(bytes) {
        Some((number, rest)) => Ok((number, rest)),
        None => Err(Stuck::Here {
            rest: bytes,
            wrong: wrong_number(bytes, wanted),
        }),
    }
}

/// What is wrong with bytes that do not begin with a byte that is wanted.
pub(crate) fn wrong_byte<'a>(bytes: &'a [u8], wanted: Wanted) -> Stuck<'a>
    requires { (b : ℕ) (tail : List ℕ) → bytes.now ≡ b ∷ tail → IsNone wanted b }
    ensures { StuckAt bytes.now result }
{
    let wrong = match bytes {
        [] => Wrong::Ends(wanted),
        [found, ..] => Wrong::Byte {
            wanted,
            found: *found,
        },
    };
    Stuck::Here { rest: bytes, wrong }
}

/// Bytes with their size in front (5.1.3), and the bytes after them.
pub(crate) fn sized_at<'a>(
    bytes: &'a [u8],
    wanted: Wanted,
) -> Result<(&'a [u8], &'a [u8]), Stuck<'a>>
    ensures { FindsBytes (blob.read bytes.now) result }
{
    let (size, rest) = number_at(bytes, wanted)?;
    let len = size as usize;
    if rest.len() < len {
        let left = rest.len();
        return Err(Stuck::Here {
            rest: bytes,
            wrong: Wrong::Beyond { wanted, size, left },
        });
    }
    let (front, after) = rest.split_at(len);
    Ok((front, after))
}

/// Whether bytes are UTF-8.
pub(crate) fn is_text(bytes: &[u8]) -> bool
    ensures { result ≡ is_utf8 bytes.now }
{
    match simdutf8::basic::from_utf8(bytes) {
        Err(_) => false,
        Ok(_) => true,
    }
}

/// The bytes after a name (5.2.4).
#[tactic(auto, unfolding(wsyntax::specs::Binary::Values::name))]
pub(crate) fn after_name<'a>(bytes: &'a [u8]) -> Result<&'a [u8], Stuck<'a>>
    ensures { Passes (rest_of (name.read bytes.now)) result }
{
    let (name, rest) = sized_at(bytes, Wanted::NameSize)?;
    if is_text(name) {
        return Ok(rest);
    }
    let size = name.len();
    Err(Stuck::Here {
        rest: bytes,
        wrong: Wrong::NoText { size },
    })
}

/// The bytes after an index.
pub(crate) fn after_index<'a>(bytes: &'a [u8]) -> Result<&'a [u8], Stuck<'a>>
    ensures { Passes (rest_of (u32_production.read bytes.now)) result }
{
    let (_index, rest) = number_at(bytes, Wanted::Index)?;
    Ok(rest)
}
