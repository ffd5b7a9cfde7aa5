//! Bodies that pass, read and checked in one loop.
//!
//! The source tells a token apart five times, each time by what the step before gave:
//!
//! ```text
//! opcode byte    frequent_passes, access_passes, numeric_passes   which reader, and whether the operands may be known
//! opcode byte    wdecode::frequent: load_at, variable_at, ..      the Token, with its immediates
//! Token          wcheck::rule: rule_of_token                      the OperandRule; frames, branches and calls have their own
//! OperandRule    wcheck::apply: apply_known, apply_rule            which methods of the operands
//! Entry          wcheck::operand_stack, operand_rules              whether the types on top are those that are taken
//! ```
//!
//! All of them are inlined, and each arm below gives the opcode as a constant. So the compiler folds the five into one jump
//! by the opcode. Two opcodes that shared an arm would be told apart again after it.
ghost use Rattle.std.specs.Prelude.{◌≡◌, ◌<◌, [], ◌∷◌, IfOk, length};
ghost use Rattle.verdict.specs.OnePass.{first_token, Passes, TokensPass};
ghost use Rattle.verdict.specs.WholeBodies.{BodyPasses};
ghost use Rattle.verdict.specs.declared.passing.Passing.TheVariants.{Stopped};

use crate::tuning::{EXPORTS, LABELS, LOCAL_RUNS};
use std::alloc::{AllocError, Global};
use wcheck::Checker;
use wcontext::{Context, NameRoom};
use wdecode::{
    Fault, block_start, br, br_if, call_at, has_too_many_locals, i32_const, i64_const, load_at,
    locals_into, numeric_at, op, store_at, token_at, variable_at,
};
use wsyntax::{LocalRun, Opcode, Token};

/// What one loop says of a body.
pub(crate) enum Passing<'a> {
    /// It is accepted.
    Passed,
    /// It is not. The bytes of its tokens do not pass where this many of them are left.
    Stopped { tokens: &'a [u8], left: usize },
    /// Nothing: its locals are none or too many, or memory was refused.
    Unknown,
}

/// What one worker keeps from body to body.
#[derive(Drop)]
pub(crate) struct Scratch<'a, 'b> {
    pub(crate) checker: Checker<'a>,
    /// The runs of locals of the body at hand.
    runs: Vec<LocalRun>,
    /// The labels of the branch table at hand.
    pub(crate) targets: Vec<u32>,
    /// Room for the names of exports.
    pub(crate) names: NameRoom<'b>,
}

impl<'a, 'b> Scratch<'a, 'b> {
    /// One with room for ordinary bodies and for `exports` exports, so that they ask for no memory.
    pub(crate) fn new(
        alloc: Global,
        context: &'a Context,
        exports: usize,
    ) -> Result<Self, AllocError>
        ensures { IfOk result (λ s. s.checker.outside ≡ context.now.context) }
    {
        let mut checker = Checker::new(alloc, context);
        checker.reserve()?;
        Ok(Scratch {
            checker,
            runs: Vec::with_capacity(alloc, LOCAL_RUNS)?,
            targets: Vec::with_capacity(alloc, LABELS)?,
            names: NameRoom::with_capacity(alloc, exports.min(EXPORTS))?,
        })
    }

    /// Reads and checks the bytes of the body of the function of that index in one loop, which keeps no token.
    pub(crate) fn pass<'c>(&mut self, alloc: Global, func: u32, bytes: &'c [u8]) -> Passing<'c>
        requires { func < length self.old.checker.outside.functions }
        ensures outside { self.new.checker.outside ≡ self.old.checker.outside }
        ensures sound { BodyPasses self.old.checker.outside func bytes.now result }
    {
        let Ok(rest) = locals_into(alloc, &mut self.runs, bytes) else {
            return Passing::Unknown;
        };
        if has_too_many_locals(&self.runs) {
            return Passing::Unknown;
        }
        let Ok(()) = self.checker.begin(func, &self.runs) else {
            return Passing::Unknown;
        };
        tokens_pass(&mut self.checker, &mut self.targets, rest)
    }
}

/// What became of the instruction at the front.
pub(crate) enum FirstToken<'a> {
    /// It was taken, and these are the bytes after it.
    Taken(&'a [u8]),
    /// None is there, or it was not taken.
    Refused,
    /// Memory was refused.
    Memory,
    /// It was not looked at.
    Other,
}

/// What a look of the checker made of a token, with these bytes after it.
#[inline(always)]
fn as_first_token<'a>(looked: Result<bool, AllocError>, after: &'a [u8]) -> FirstToken<'a>
    ensures { result ≡ first_token looked after.entry }
{
    match looked {
        Ok(true) => FirstToken::Taken(after),
        Ok(false) => FirstToken::Refused,
        Err(AllocError) => FirstToken::Memory,
    }
}

/// Lets the checker look at a token that is its opcode alone.
macro_rules! step_bare {
    ($checker:expr, $token:expr, $after:expr) => {
        as_first_token($checker.step($token, &[]), $after)
    };
}

/// Lets the checker look at a token that was read with its immediates.
macro_rules! step_read {
    ($checker:expr, $read:expr) => {
        match $read {
            None => FirstToken::Other,
            Some((token, after)) => step_bare!($checker, token, after),
        }
    };
}

/// The same in less time, where the operands that it takes are known to be there; where they are not, nothing is done.
macro_rules! step_known_read {
    ($checker:expr, $read:expr) => {
        match $read {
            None => FirstToken::Other,
            Some((token, after)) => {
                if $checker.try_fast_step(token) {
                    FirstToken::Taken(after)
                } else {
                    FirstToken::Other
                }
            }
        }
    };
}

/// Reads and checks an instruction after its opcode that is numeric, or a load or a store. Each opcode is told apart
/// from all others at once, so that the compiler makes one table of all arms.
#[inline(always)]
fn numeric_passes<'a>(checker: &mut Checker<'_>, byte: u8, rest: &'a [u8]) -> FirstToken<'a>
    requires { checker.old.frames ≡ [] → ⊥ }
    ensures outside { checker.new.outside ≡ checker.old.outside }
    ensures passes { Passes (byte ∷ rest.now) checker.old checker.new result }
{
    match Opcode::from_byte(byte) {
        Some(Opcode::Numeric(_)) => step_known_read!(checker, numeric_at(byte, rest)),
        Some(Opcode::Load(_)) => step_known_read!(checker, load_at(byte, rest)),
        Some(Opcode::Store(_)) => step_known_read!(checker, store_at(byte, rest)),
        _ => FirstToken::Other,
    }
}

/// Reads and checks an instruction after its opcode that reads a global, a frequent load or store, or one of the
/// others of `numeric_passes`.
#[inline(always)]
fn access_passes<'a>(checker: &mut Checker<'_>, byte: u8, rest: &'a [u8]) -> FirstToken<'a>
    requires { checker.old.frames ≡ [] → ⊥ }
    ensures outside { checker.new.outside ≡ checker.old.outside }
    ensures passes { Passes (byte ∷ rest.now) checker.old checker.new result }
{
    match byte {
        op::I32_LOAD => step_known_read!(checker, load_at(byte, rest)),
        op::I64_LOAD => step_known_read!(checker, load_at(byte, rest)),
        op::I32_LOAD8_S => step_known_read!(checker, load_at(byte, rest)),
        op::I32_LOAD8_U => step_known_read!(checker, load_at(byte, rest)),
        op::I32_LOAD16_S => step_known_read!(checker, load_at(byte, rest)),
        op::I32_LOAD16_U => step_known_read!(checker, load_at(byte, rest)),
        op::I32_STORE => step_known_read!(checker, store_at(byte, rest)),
        op::I64_STORE => step_known_read!(checker, store_at(byte, rest)),
        op::I32_STORE8 => step_known_read!(checker, store_at(byte, rest)),
        op::I32_STORE16 => step_known_read!(checker, store_at(byte, rest)),
        op::GLOBAL_GET => step_known_read!(checker, variable_at(byte, rest)),
        op::GLOBAL_SET => step_known_read!(checker, variable_at(byte, rest)),
        _ => numeric_passes(checker, byte, rest),
    }
}

/// Reads and checks the instruction at the front, where it is one of those that bodies are mostly made of. Each way
/// checks by itself, so that what it read need not be told apart again.
#[inline(always)]
fn frequent_passes<'a>(checker: &mut Checker<'_>, bytes: &'a [u8]) -> FirstToken<'a>
    requires { checker.old.frames ≡ [] → ⊥ }
    ensures outside { checker.new.outside ≡ checker.old.outside }
    ensures passes { Passes bytes.now checker.old checker.new result }
{
    let [byte, rest @ ..] = bytes else {
        return FirstToken::Other;
    };
    match *byte {
        op::END => step_bare!(checker, Token::End, rest),
        op::BR_IF => step_read!(checker, br_if(rest)),
        op::CALL => step_read!(checker, call_at(rest)),
        op::DROP => step_bare!(checker, Token::Drop, rest),
        op::SELECT => step_bare!(checker, Token::Select, rest),
        op::ELSE => step_bare!(checker, Token::Else { target: 0 }, rest),
        op::RETURN => step_bare!(checker, Token::Return, rest),
        op::UNREACHABLE => step_bare!(checker, Token::Unreachable, rest),
        op::NOP => step_bare!(checker, Token::Nop, rest),
        op::LOCAL_GET => step_known_read!(checker, variable_at(op::LOCAL_GET, rest)),
        op::LOCAL_SET => step_known_read!(checker, variable_at(op::LOCAL_SET, rest)),
        op::LOCAL_TEE => step_known_read!(checker, variable_at(op::LOCAL_TEE, rest)),
        op::I32_CONST => step_known_read!(checker, i32_const(rest)),
        op::I64_CONST => step_known_read!(checker, i64_const(rest)),
        op::BLOCK => step_read!(checker, block_start(op::BLOCK, rest)),
        op::LOOP => step_read!(checker, block_start(op::LOOP, rest)),
        op::IF => step_read!(checker, block_start(op::IF, rest)),
        op::BR => step_read!(checker, br(rest)),
        _ => access_passes(checker, *byte, rest),
    }
}

/// Reads and checks the instruction at the front, whichever it is.
#[inline(always)]
fn any_passes<'a>(
    checker: &mut Checker<'_>,
    targets: &mut Vec<u32>,
    bytes: &'a [u8],
) -> FirstToken<'a>
    ensures outside { checker.new.outside ≡ checker.old.outside }
    ensures passes { Passes bytes.now checker.old checker.new result }
{
    targets.clear();
    match token_at(targets, bytes) {
        Ok((token, after)) => as_first_token(checker.step(token, targets), after),
        Err(Fault::Malformed) => FirstToken::Refused,
        Err(Fault::Memory) => FirstToken::Memory,
    }
}

/// Where one loop stopped: these bytes are left of the tokens.
fn stopped<'a>(tokens: &'a [u8], rest: &[u8]) -> Passing<'a>
    ensures { result ≡ Stopped tokens.entry (length rest.now) }
{
    Passing::Stopped {
        tokens,
        left: rest.len(),
    }
}

/// Whether the bytes are the tokens of an expression, all of them, and each is taken.
fn tokens_pass<'a>(
    checker: &mut Checker<'_>,
    targets: &mut Vec<u32>,
    tokens: &'a [u8],
) -> Passing<'a>
    ensures outside { checker.new.outside ≡ checker.old.outside }
    ensures sound { TokensPass checker.old.inside checker.old.frames tokens.now result }
{
    let mut rest = tokens;
    'each: while !checker.is_finished() {
        match frequent_passes(checker, rest) {
            FirstToken::Taken(after) => {
                rest = after;
                continue 'each;
            }
            FirstToken::Refused => return stopped(tokens, rest),
            FirstToken::Memory => return Passing::Unknown,
            FirstToken::Other => (),
        }
        match any_passes(checker, targets, rest) {
            FirstToken::Taken(after) => rest = after,
            FirstToken::Refused => return stopped(tokens, rest),
            FirstToken::Memory | FirstToken::Other => return Passing::Unknown,
        }
    }
    if rest.is_empty() {
        Passing::Passed
    } else {
        stopped(tokens, rest)
    }
}
