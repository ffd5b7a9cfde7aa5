ghost use Rattle.std.specs.Prelude.{◌≡◌, ◌+◌, ◌<◌, None, IfOk, MatchResult, length};
ghost use Rattle.wsyntax.specs.Modules.{decoded_as};
ghost use Rattle.verdict.specs.Judged.{body_refusal_of, IsBodyRefusal};
ghost use Rattle.refusal.specs.Refusals.{AllowsRefusal};
ghost use Rattle.verdict.specs.WholeBodies.{AtEnd, GivesRefusal, GoesOn, Judges};

use crate::passing::{Passing, Scratch};
use refusal::{BodyRefusal, Refusal};
use smallvec::SmallVec;
use std::alloc::{AllocError, Global};
use wcheck::Checker;
use wdecode::{Fault, enter, has_too_many_locals, locals_at, token_at};
use wsyntax::Token;

/// What is known of a body while its tokens are read to their end.
#[derive(Clone, Copy)]
pub(crate) enum Known {
    /// No token so far is refused: the checker looked at each.
    Nothing,
    /// The first token that is refused, if one is, is that at which this many bytes are left.
    Stop(usize),
    /// What it is refused for, if its bytes spell a body.
    Refusal(BodyRefusal),
}

/// Looks at the token at position `at`, where `left` bytes are left: what is known after it.
fn look(
    checker: &mut Checker<'_>,
    targets: &[u32],
    known: Known,
    token: Token,
    at: usize,
    left: usize,
) -> Result<Known, AllocError>
    ensures outside { checker.new.outside ≡ checker.old.outside }
    ensures goes_on { IfOk result (λ now. GoesOn checker.old known at left (decoded_as targets.now token) checker.new now) }
{
    let refused = Known::Refusal(BodyRefusal::IllTyped { at });
    match known {
        Known::Nothing => {
            if checker.step(token, targets)? {
                Ok(known)
            } else {
                Ok(refused)
            }
        }
        Known::Stop(stop) if left == stop => Ok(refused),
        Known::Stop(_) => Ok(known),
        Known::Refusal(_) => Ok(known),
    }
}

/// What a body of `count` tokens is refused for, after its last token.
fn at_end(checker: &Checker<'_>, known: Known, count: usize) -> Option<BodyRefusal>
    ensures { AtEnd checker.now known count result }
{
    match known {
        Known::Refusal(refusal) => Some(refusal),
        Known::Nothing if checker.is_finished() => None,
        _ => Some(BodyRefusal::IllTyped { at: count }),
    }
}

/// What a body is refused for that has these bytes after its locals, of which that is known: the bytes are read to their
/// end all the same. Each token is let go as soon as it was looked at, so that no more is kept than the open blocks, and
/// the labels of one branch table.
fn tokens_fault(
    alloc: Global,
    checker: &mut Checker<'_>,
    targets: &mut Vec<u32>,
    known: Known,
    bytes: &[u8],
) -> Result<Option<BodyRefusal>, Fault>
    ensures outside { checker.new.outside ≡ checker.old.outside }
    ensures verdict { Judges checker.old known bytes.now result }
{
    let mut opened = SmallVec::new(alloc);
    let mut so_far = known;
    let mut rest = bytes;
    for at in 0..bytes.len() {
        targets.clear();
        let (token, after) = token_at(targets, rest)?;
        so_far = look(checker, targets, so_far, token, at, rest.len())?;
        let closes = enter(&mut opened, token)?;
        if closes {
            if after.is_empty() {
                return Ok(at_end(checker, so_far, at + 1));
            }
            return Err(Fault::Malformed);
        }
        rest = after;
    }
    Err(Fault::Malformed)
}

/// What a body is refused for, if it is; Malformed says that the bytes spell none. The checker looks at each token.
fn whole_fault(
    alloc: Global,
    checker: &mut Checker<'_>,
    targets: &mut Vec<u32>,
    func: u32,
    bytes: &[u8],
) -> Result<Option<BodyRefusal>, Fault>
    requires { func < length checker.old.outside.functions }
    ensures outside { checker.new.outside ≡ checker.old.outside }
    ensures verdict { GivesRefusal result (body_refusal_of checker.old.outside func bytes.now) }
{
    let (runs, rest) = locals_at(alloc, bytes)?;
    if has_too_many_locals(&runs) {
        let known = Known::Refusal(BodyRefusal::TooManyLocals);
        return tokens_fault(alloc, checker, targets, known, rest);
    }
    checker.begin(func, &runs)?;
    tokens_fault(alloc, checker, targets, Known::Nothing, rest)
}

/// Judges the bytes of the body of the function of that index, imported ones counted. Where one loop stopped at a token, the
/// others are read to the end, and none is looked at twice.
pub(crate) fn judge_body(
    alloc: Global,
    scratch: &mut Scratch<'_, '_>,
    func: u32,
    bytes: &[u8],
) -> Result<(), Refusal>
    requires { func < length scratch.old.checker.outside.functions }
    ensures outside { scratch.new.checker.outside ≡ scratch.old.checker.outside }
    ensures verdict { MatchResult result
        (λ _. body_refusal_of scratch.old.checker.outside func bytes.now ≡ None)
        (AllowsRefusal (IsBodyRefusal func (body_refusal_of scratch.old.checker.outside func bytes.now))) }
{
    let passing = scratch.pass(alloc, func, bytes);
    let Scratch {
        checker,
        targets,
        ..
    } = scratch;
    let found = match passing {
        Passing::Passed => return Ok(()),
        Passing::Stopped { tokens, left } => {
            tokens_fault(alloc, checker, targets, Known::Stop(left), tokens)
        }
        Passing::Unknown => whole_fault(alloc, checker, targets, func, bytes),
    };
    let refusal = match found {
        Ok(None) => return Ok(()),
        Ok(Some(refusal)) => refusal,
        Err(Fault::Malformed) => BodyRefusal::Malformed,
        Err(Fault::Memory) => return Err(Refusal::Memory),
    };
    Err(Refusal::Body { func, refusal })
}
