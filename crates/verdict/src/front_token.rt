//! The instructions that bodies are mostly made of, read and checked for the loop that keeps them.
//!
//! `passing` has the same for the loop that keeps none, and says why each opcode has an arm.
// PERF: what two loops call is inlined into neither, and a token that is handed on slows the loop of `gate check`. So each loop
// has readers of its own.
ghost use Rattle.std.specs.Prelude.{◌≡◌, [], ◌∷◌};
ghost use Rattle.verdict.specs.FrontTokens.{PassesFront, front_token};

use std::alloc::AllocError;
use wcheck::Checker;
use wdecode::{
    block_start, br, br_if, call_at, i32_const, i64_const, load_at, numeric_at, op, store_at,
    variable_at,
};
use wsyntax::{Opcode, Token};

/// What became of the instruction at the front.
pub(crate) enum FrontToken<'a> {
    /// It is this token, it was taken, and these are the bytes after it.
    Taken(Token, &'a [u8]),
    /// None is there, or it was not taken.
    Refused,
    /// Memory was refused.
    Memory,
    /// It was not looked at.
    Other,
}

/// What a look of the checker made of a token, with these bytes after it.
#[inline(always)]
fn as_front_token<'a>(
    looked: Result<bool, AllocError>,
    token: Token,
    after: &'a [u8],
) -> FrontToken<'a>
    ensures { result ≡ front_token looked token after.entry }
{
    match looked {
        Ok(true) => FrontToken::Taken(token, after),
        Ok(false) => FrontToken::Refused,
        Err(AllocError) => FrontToken::Memory,
    }
}

/// Lets the checker look at a token that is its opcode alone.
macro_rules! step_bare {
    ($checker:expr, $token:expr, $after:expr) => {
        as_front_token($checker.step($token, &[]), $token, $after)
    };
}

/// Lets the checker look at a token that was read with its immediates.
macro_rules! step_read {
    ($checker:expr, $read:expr) => {
        match $read {
            None => FrontToken::Other,
            Some((token, after)) => step_bare!($checker, token, after),
        }
    };
}

/// The same in less time, where the operands that it takes are known to be there; where they are not, nothing is done.
macro_rules! step_known_read {
    ($checker:expr, $read:expr) => {
        match $read {
            None => FrontToken::Other,
            Some((token, after)) => {
                if $checker.try_fast_step(token) {
                    FrontToken::Taken(token, after)
                } else {
                    FrontToken::Other
                }
            }
        }
    };
}

/// Reads and checks an instruction after its opcode that is numeric, or a load or a store. Each opcode is told apart
/// from all others at once, so that the compiler makes one table of all arms.
#[inline(always)]
fn numeric_front<'a>(checker: &mut Checker<'_>, byte: u8, rest: &'a [u8]) -> FrontToken<'a>
    requires { checker.old.frames ≡ [] → ⊥ }
    ensures outside { checker.new.outside ≡ checker.old.outside }
    ensures passes { PassesFront (byte ∷ rest.now) checker.old checker.new result }
{
    match Opcode::from_byte(byte) {
        Some(Opcode::Numeric(_)) => step_known_read!(checker, numeric_at(byte, rest)),
        Some(Opcode::Load(_)) => step_known_read!(checker, load_at(byte, rest)),
        Some(Opcode::Store(_)) => step_known_read!(checker, store_at(byte, rest)),
        _ => FrontToken::Other,
    }
}

/// Reads and checks an instruction after its opcode that reads a global, a frequent load or store, or one of the
/// others of `numeric_front`.
#[inline(always)]
fn access_front<'a>(checker: &mut Checker<'_>, byte: u8, rest: &'a [u8]) -> FrontToken<'a>
    requires { checker.old.frames ≡ [] → ⊥ }
    ensures outside { checker.new.outside ≡ checker.old.outside }
    ensures passes { PassesFront (byte ∷ rest.now) checker.old checker.new result }
{
    match byte {
        op::I32_LOAD => step_known_read!(checker, load_at(byte, rest)),
        op::I64_LOAD => step_known_read!(checker, load_at(byte, rest)),
        op::I32_LOAD8_S => step_known_read!(checker, load_at(byte, rest)),
        op::I32_LOAD8_U => step_known_read!(checker, load_at(byte, rest)),
        op::I32_LOAD16_S => step_known_read!(checker, load_at(byte, rest)),
        op::I32_LOAD16_U => step_known_read!(checker, load_at(byte, rest)),
        op::I32_STORE => step_known_read!(checker, store_at(byte, rest)),
        op::I64_STORE => step_known_read!(checker, store_at(byte, rest)),
        op::I32_STORE8 => step_known_read!(checker, store_at(byte, rest)),
        op::I32_STORE16 => step_known_read!(checker, store_at(byte, rest)),
        op::GLOBAL_GET => step_known_read!(checker, variable_at(byte, rest)),
        op::GLOBAL_SET => step_known_read!(checker, variable_at(byte, rest)),
        _ => numeric_front(checker, byte, rest),
    }
}

/// Reads and checks the instruction at the front, where it is one of those that bodies are mostly made of. Each way
/// checks by itself, so that what it read need not be told apart again.
#[inline(always)]
pub(crate) fn frequent_front<'a>(checker: &mut Checker<'_>, bytes: &'a [u8]) -> FrontToken<'a>
    requires { checker.old.frames ≡ [] → ⊥ }
    ensures outside { checker.new.outside ≡ checker.old.outside }
    ensures passes { PassesFront bytes.now checker.old checker.new result }
{
    let [byte, rest @ ..] = bytes else {
        return FrontToken::Other;
    };
    match *byte {
        op::END => step_bare!(checker, Token::End, rest),
        op::BR_IF => step_read!(checker, br_if(rest)),
        op::CALL => step_read!(checker, call_at(rest)),
        op::DROP => step_bare!(checker, Token::Drop, rest),
        op::SELECT => step_bare!(checker, Token::Select, rest),
        op::ELSE => step_bare!(checker, Token::Else { target: 0 }, rest),
        op::RETURN => step_bare!(checker, Token::Return, rest),
        op::UNREACHABLE => step_bare!(checker, Token::Unreachable, rest),
        op::NOP => step_bare!(checker, Token::Nop, rest),
        op::LOCAL_GET => step_known_read!(checker, variable_at(op::LOCAL_GET, rest)),
        op::LOCAL_SET => step_known_read!(checker, variable_at(op::LOCAL_SET, rest)),
        op::LOCAL_TEE => step_known_read!(checker, variable_at(op::LOCAL_TEE, rest)),
        op::I32_CONST => step_known_read!(checker, i32_const(rest)),
        op::I64_CONST => step_known_read!(checker, i64_const(rest)),
        op::BLOCK => step_read!(checker, block_start(op::BLOCK, rest)),
        op::LOOP => step_read!(checker, block_start(op::LOOP, rest)),
        op::IF => step_read!(checker, block_start(op::IF, rest)),
        op::BR => step_read!(checker, br(rest)),
        _ => access_front(checker, *byte, rest),
    }
}
