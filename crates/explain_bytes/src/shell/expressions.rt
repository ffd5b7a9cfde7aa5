//! The expressions of first values and offsets (5.4.6), read past.
ghost use Rattle.std.specs.Prelude.{◌≡◌, None};
ghost use Rattle.wsyntax.specs.Binary.Nesting.{expression, token_at as token_read};
ghost use Rattle.wdecode.specs.Gives.{rest_of};
ghost use Rattle.explain_bytes.specs.Shells.{IsStuck, Passes, Stands};

use crate::misreads::immediates_stuck;
use crate::shell::primitives::Stuck;
use crate::stops::halt_in;
use explanation::{Stopped, Wanted, Wrong};
use std::alloc::{AllocError, Global};
use wdecode::{Fault, expression_at};

/// What is wrong with bytes that no token begins with.
fn wrong_opcode(bytes: &[u8]) -> Wrong
    requires { token_read bytes.now ≡ None }
    ensures { Stands result bytes.now }
{
    match bytes {
        [] => Wrong::Ends(Wanted::Instruction),
        [first, rest @ ..] => Wrong::Opcode {
            first: *first,
            number: wnum::front_u32(rest).map(|found| found.0),
        },
    }
}

/// Why bytes begin with no token: what follows its opcode, or that opcode.
fn stuck_at<'a>(bytes: &'a [u8]) -> Stuck<'a>
    requires { token_read bytes.now ≡ None }
    ensures { IsStuck result }
{
    match immediates_stuck(bytes) {
        Some(stuck) => stuck,
        None => Stuck::Here {
            rest: bytes,
            wrong: wrong_opcode(bytes),
        },
    }
}

/// Why bytes begin with no expression.
fn stuck_in<'a>(alloc: Global, bytes: &'a [u8]) -> Stuck<'a>
    requires { expression.read bytes.now ≡ None }
    ensures { IsStuck result }
{
    let (rest, wrong) = match halt_in(alloc, bytes) {
        Err(AllocError) => return Stuck::Memory,
        Ok(None) => (bytes, Wrong::Expression),
        Ok(Some(halt)) => match halt.why {
            Stopped::Token => return stuck_at(halt.rest),
            Stopped::Short => (halt.rest, Wrong::Ends(Wanted::Instruction)),
            Stopped::Else => (halt.rest, Wrong::Else),
            _ => (bytes, Wrong::Expression),
        },
    };
    Stuck::Here { rest, wrong }
}

/// The bytes after an expression.
pub(crate) fn after_expression<'a>(alloc: Global, bytes: &'a [u8]) -> Result<&'a [u8], Stuck<'a>>
    ensures { Passes (rest_of (expression.read bytes.now)) result }
{
    match expression_at(alloc, bytes) {
        Ok((_tokens, rest)) => Ok(rest),
        Err(Fault::Malformed) => Err(stuck_in(alloc, bytes)),
        Err(Fault::Memory) => Err(Stuck::Memory),
    }
}
