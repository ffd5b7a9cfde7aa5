//! Where reading a malformed body stops, and why.
ghost use Rattle.std.specs.Prelude.{◌≡◌, ◌≢◌, ◌+◌, ◌-◌, [], IfOk, IfSome, length, reverse};
ghost use Rattle.explanation.specs.declared.explanation.Stopped.TheVariants.{Left};
ghost use Rattle.explain_bytes.specs.Locations.{GoesFurther, IsHaltIn, IsStopOf};

use crate::locations::offset_of;
use explanation::{StopLocation, Stopped};
use smallvec::SmallVec;
use std::alloc::{AllocError, Global};
use wdecode::{FEW_BLOCKS, Fault, enter, locals_at, token_at};

/// Where reading stops, without its offset.
#[derive(Clone, Copy)]
pub(crate) struct Halt<'a> {
    pub(crate) why: Stopped,
    pub(crate) tokens: usize,
    pub(crate) rest: &'a [u8],
}

/// What one token further is.
#[derive(Clone, Copy)]
pub(crate) enum Further<'a> {
    /// The bytes after a token.
    After(&'a [u8]),
    /// The bytes after the last `end`.
    Closed(&'a [u8]),
    /// There is no further token.
    Never(Stopped),
}

/// Reads one token more.
fn go_further<'a>(
    opened: &mut SmallVec<bool, FEW_BLOCKS>,
    targets: &mut Vec<u32>,
    rest: &'a [u8],
) -> Result<Further<'a>, AllocError>
    ensures { IfOk result (GoesFurther rest.now (reverse opened.old.items) (reverse opened.new.items)) }
{
    if rest.is_empty() {
        return Ok(Further::Never(Stopped::Short));
    }
    targets.clear();
    let (token, after) = match token_at(targets, rest) {
        Ok(found) => found,
        Err(Fault::Malformed) => return Ok(Further::Never(Stopped::Token)),
        Err(Fault::Memory) => return Err(AllocError),
    };
    match enter(opened, token) {
        Ok(false) => Ok(Further::After(after)),
        Ok(true) => Ok(Further::Closed(after)),
        Err(Fault::Malformed) => Ok(Further::Never(Stopped::Else)),
        Err(Fault::Memory) => Err(AllocError),
    }
}

/// A stop after the last `end`, where bytes are left.
fn left_over<'a>(tokens: usize, rest: &'a [u8]) -> Option<Halt<'a>>
    ensures { IfSome result (λ h. (h.tokens ≡ tokens) × (h.rest.now ≡ rest.now) × (h.why ≡ Left) × (rest.now ≢ [])) }
{
    if rest.is_empty() {
        return None;
    }
    Some(Halt {
        why: Stopped::Left,
        tokens,
        rest,
    })
}

/// Where reading stops in the bytes after the locals of a body; `None` where they are tokens up to the last `end`.
pub(crate) fn halt_in<'a>(alloc: Global, code: &'a [u8]) -> Result<Option<Halt<'a>>, AllocError>
    ensures { IfOk result (λ h. IfSome h (IsHaltIn code.now)) }
{
    let mut opened = SmallVec::new(alloc);
    let mut targets = Vec::new(alloc);
    let mut rest = code;
    for tokens in 0..code.len() {
        match go_further(&mut opened, &mut targets, rest)? {
            Further::After(after) => rest = after,
            Further::Closed(after) => return Ok(left_over(tokens + 1, after)),
            Further::Never(why) => return Ok(Some(Halt { why, tokens, rest })),
        }
    }
    if rest.is_empty() {
        let tokens = code.len();
        let why = Stopped::Short;
        return Ok(Some(Halt { why, tokens, rest }));
    }
    Ok(None)
}

/// Where reading a body stops, with the offset in the module: the body begins at offset `start`.
fn stop_location<'a>(body: &[u8], start: usize, halt: Halt<'a>) -> Option<StopLocation<'a>>
    ensures { IfSome result (λ s. (s.why ≡ halt.entry.why) × (s.tokens ≡ halt.entry.tokens) × (s.rest.now ≡ halt.entry.rest.now)
        × (s.at ≡ start + (length body.now - length halt.entry.rest.now))) }
{
    let at = offset_of(start, body, halt.rest)?;
    Some(StopLocation {
        why: halt.why,
        tokens: halt.tokens,
        at,
        rest: halt.rest,
    })
}

/// Where reading a body stops that begins at offset `start`; `None` where it does not.
pub fn stop_of<'a>(
    alloc: Global,
    body: &'a [u8],
    start: usize,
) -> Result<Option<StopLocation<'a>>, AllocError>
    ensures { IfOk result (λ s. IfSome s (IsStopOf body.now start)) }
{
    match locals_at(alloc, body) {
        Ok((_runs, code)) => match halt_in(alloc, code)? {
            Some(halt) => Ok(stop_location(body, start, halt)),
            None => Ok(None),
        },
        Err(Fault::Malformed) => {
            let halt = Halt {
                why: Stopped::Locals,
                tokens: 0,
                rest: body,
            };
            Ok(stop_location(body, start, halt))
        }
        Err(Fault::Memory) => Err(AllocError),
    }
}
