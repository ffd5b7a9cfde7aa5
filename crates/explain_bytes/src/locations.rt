//! Where a token of a body stands among its bytes.
ghost use Rattle.std.specs.Prelude.{◌≡◌, ◌+◌, ◌-◌, IfOk, IfSome, Some, length};
ghost use Rattle.explain_bytes.specs.Locations.{IsFirstOf, IsLeft, IsTokenAt, left_after};

use explanation::{FoundToken, Span};
use std::alloc::Global;
use wdecode::{Fault, locals_at, token_at};

/// What is left of the bytes after `count` tokens.
fn bytes_after<'a>(alloc: Global, bytes: &'a [u8], count: usize) -> Result<&'a [u8], Fault>
    ensures { IfOk result (λ rest. left_after count bytes.now ≡ Some rest.now) }
{
    let mut targets = Vec::new(alloc);
    let mut rest = bytes;
    for at in 0..count {
        targets.clear();
        let (_token, after) = token_at(&mut targets, rest)?;
        rest = after;
    }
    Ok(rest)
}

/// What is left of a body after its locals and `position` tokens.
fn left_of<'a>(alloc: Global, body: &'a [u8], position: usize) -> Result<&'a [u8], Fault>
    ensures { IfOk result (λ rest. IsLeft body.now position rest.now) }
{
    let (_runs, code) = locals_at(alloc, body)?;
    bytes_after(alloc, code, position)
}

/// The offset of the bytes that are left of a body, which begins at offset `start`.
pub fn offset_of(start: usize, body: &[u8], left: &[u8]) -> Option<usize>
    ensures { IfSome result (λ at. at ≡ start + (length body.now - length left.now)) }
{
    start.checked_add(body.len().saturating_sub(left.len()))
}

/// The token that the bytes begin with which are left of a body; the body begins at offset `start`. Malformed where there is none.
pub fn first_token(
    alloc: Global,
    body: &[u8],
    start: usize,
    left: &[u8],
) -> Result<FoundToken, Fault>
    ensures { IfOk result (IsFirstOf body.now start left.now) }
{
    let [opcode, ..] = left else {
        return Err(Fault::Malformed);
    };
    let mut targets = Vec::new(alloc);
    let (token, after) = token_at(&mut targets, left)?;
    match (offset_of(start, body, left), offset_of(start, body, after)) {
        (Some(from), Some(to)) => Ok(FoundToken {
            span: Span { from, to },
            opcode: *opcode,
            token,
            targets,
        }),
        _ => Err(Fault::Malformed),
    }
}

/// The token at that position of a body that begins at offset `start`; Malformed where there is none.
pub fn find_token(
    alloc: Global,
    body: &[u8],
    start: usize,
    position: usize,
) -> Result<FoundToken, Fault>
    ensures { IfOk result (IsTokenAt body.now start position) }
{
    let left = left_of(alloc, body, position)?;
    Ok(first_token(alloc, body, start, left)?)
}
