//! Instructions and expressions (5.4), read as flat tokens.
ghost use Rattle.std.specs.Prelude.{◌≡◌, ◌≢◌, ◌<◌, ℕ, Bool, List, ◌++◌, Option, Some, None, reverse, length};
ghost use Rattle.std.specs.Prelude.{IfOk, IfErr, IsTrue, if◌then◌else◌};
ghost use Rattle.wsyntax.specs.Brackets.{lies_within};
ghost use Rattle.wsyntax.specs.BranchTables.{Follows, FollowAll};
ghost use Rattle.wdecode.specs.BranchTables.{targets_of};
ghost use Rattle.wdecode.specs.Gives.{Gives, GivesImmediates, GivesToken, Fails};
ghost use Rattle.wsyntax.specs.Instructions.{Do};
ghost use Rattle.wsyntax.specs.Modules.{decoded_as, tokens_of};
ghost use Rattle.wsyntax.specs.Binary.Production.{exactly, raw, times_at as times_of};
ghost use Rattle.wsyntax.specs.Binary.Values.{u32 as u32_production};
ghost use Rattle.wsyntax.specs.Binary.Instructions.{immediates, plain_instruction};
ghost use Rattle.wsyntax.specs.Binary.Nesting.{seen_as, nest, token_at as token_of, expression};

use crate::fault::Fault;
use crate::frequent::frequent_at;
use crate::op;
use crate::tuning::{FEW_BLOCKS, FEW_TOKENS};
use crate::types::block_type_at;
use crate::values::u32_at;
use smallvec::SmallVec;
use std::alloc::Global;
use wsyntax::{Expression, Label, Load, Opcode, Store, Token};

/// The byte 00.
#[inline(always)]
fn zero_at(bytes: &[u8]) -> Result<&[u8], Fault>
    ensures { Gives (λ x. (0, x.now)) result ((exactly 0).read bytes.now) }
{
    match bytes {
        [0, rest @ ..] => Ok(rest),
        _ => Err(Fault::Malformed),
    }
}

/// Four bytes (5.2.3).
fn four_at(bytes: &[u8]) -> Result<([u8; 4], &[u8]), Fault>
    ensures { Gives (λ x. (x.0, x.1.now)) result ((raw 4).read bytes.now) }
{
    match bytes {
        [a, b, c, d, rest @ ..] => Ok(([*a, *b, *c, *d], rest)),
        _ => Err(Fault::Malformed),
    }
}

/// Eight bytes (5.2.3).
fn eight_at(bytes: &[u8]) -> Result<([u8; 8], &[u8]), Fault>
    ensures { Gives (λ x. (x.0, x.1.now)) result ((raw 8).read bytes.now) }
{
    match bytes {
        [a, b, c, d, e, f, g, h, rest @ ..] => Ok(([*a, *b, *c, *d, *e, *f, *g, *h], rest)),
        _ => Err(Fault::Malformed),
    }
}

/// A load after its opcode (5.4.4): its alignment and its offset.
#[inline(always)]
fn load_immediates(load: Load, bytes: &[u8]) -> Result<(Token, &[u8]), Fault>
    ensures value { GivesImmediates result (Opcode.Load load) bytes.now }
    ensures within { IfOk result (λ x. (targets : ℕ) → IsTrue (lies_within targets x.0)) }
{
    let (align, rest) = u32_at(bytes)?;
    let (offset, rest) = u32_at(rest)?;
    let token = Token::Load {
        load,
        align,
        offset,
    };
    Ok((token, rest))
}

/// A store after its opcode (5.4.4): its alignment and its offset.
#[inline(always)]
fn store_immediates(store: Store, bytes: &[u8]) -> Result<(Token, &[u8]), Fault>
    ensures value { GivesImmediates result (Opcode.Store store) bytes.now }
    ensures within { IfOk result (λ x. (targets : ℕ) → IsTrue (lies_within targets x.0)) }
{
    let (align, rest) = u32_at(bytes)?;
    let (offset, rest) = u32_at(rest)?;
    let token = Token::Store {
        store,
        align,
        offset,
    };
    Ok((token, rest))
}

/// An indirect call after its opcode (5.4.1): the index of a type, and the byte of the table.
#[inline(always)]
fn indirect_call_immediates(bytes: &[u8]) -> Result<(Token, &[u8]), Fault>
    ensures value { GivesImmediates result Opcode.CallIndirect bytes.now }
    ensures within { IfOk result (λ x. (targets : ℕ) → IsTrue (lies_within targets x.0)) }
{
    let (index, rest) = u32_at(bytes)?;
    let rest = zero_at(rest)?;
    Ok((Token::CallIndirect(index), rest))
}

/// A constant i32 after its opcode (5.4.5).
#[inline(always)]
fn i32_immediates(bytes: &[u8]) -> Result<(Token, &[u8]), Fault>
    ensures value { GivesImmediates result Opcode.I32Const bytes.now }
    ensures within { IfOk result (λ x. (targets : ℕ) → IsTrue (lies_within targets x.0)) }
{
    match wnum::front_s32(bytes) {
        None => Err(Fault::Malformed),
        Some((value, rest)) => Ok((Token::I32Const(value), rest)),
    }
}

/// A constant i64 after its opcode (5.4.5).
#[inline(always)]
fn i64_immediates(bytes: &[u8]) -> Result<(Token, &[u8]), Fault>
    ensures value { GivesImmediates result Opcode.I64Const bytes.now }
    ensures within { IfOk result (λ x. (targets : ℕ) → IsTrue (lies_within targets x.0)) }
{
    match wnum::front_s64(bytes) {
        None => Err(Fault::Malformed),
        Some((value, rest)) => Ok((Token::I64Const(value), rest)),
    }
}

/// A constant f32 after its opcode (5.4.5).
#[inline(always)]
fn f32_immediates(bytes: &[u8]) -> Result<(Token, &[u8]), Fault>
    ensures value { GivesImmediates result Opcode.F32Const bytes.now }
    ensures within { IfOk result (λ x. (targets : ℕ) → IsTrue (lies_within targets x.0)) }
{
    let (value, rest) = four_at(bytes)?;
    Ok((Token::F32Const(value), rest))
}

/// A constant f64 after its opcode (5.4.5).
#[inline(always)]
fn f64_immediates(bytes: &[u8]) -> Result<(Token, &[u8]), Fault>
    ensures value { GivesImmediates result Opcode.F64Const bytes.now }
    ensures within { IfOk result (λ x. (targets : ℕ) → IsTrue (lies_within targets x.0)) }
{
    let (value, rest) = eight_at(bytes)?;
    Ok((Token::F64Const(value), rest))
}

/// An instruction that has one label.
macro_rules! with_label {
    ($made:path, $bytes:expr) => {
        match u32_at($bytes) {
            Err(fault) => Err(fault),
            Ok((index, rest)) => Ok(($made(Label::unresolved(index)), rest)),
        }
    };
}

/// An instruction that has one index.
macro_rules! with_index {
    ($made:path, $bytes:expr) => {
        match u32_at($bytes) {
            Err(fault) => Err(fault),
            Ok((index, rest)) => Ok(($made(index), rest)),
        }
    };
}

/// An instruction that has the byte of the memory.
macro_rules! with_zero {
    ($token:expr, $bytes:expr) => {
        match zero_at($bytes) {
            Err(fault) => Err(fault),
            Ok(rest) => Ok(($token, rest)),
        }
    };
}

/// An instruction without a body after its opcode (5.4), but for `br_table`.
#[inline(always)]
fn immediates_at(opcode: Opcode, bytes: &[u8]) -> Result<(Token, &[u8]), Fault>
    requires { opcode ≢ Opcode.BrTable }
    ensures value { GivesImmediates result opcode bytes.now }
    ensures within { IfOk result (λ x. (targets : ℕ) → IsTrue (lies_within targets x.0)) }
{
    match opcode {
        Opcode::Unreachable => Ok((Token::Unreachable, bytes)),
        Opcode::Nop => Ok((Token::Nop, bytes)),
        Opcode::Block | Opcode::Loop | Opcode::If => Err(Fault::Malformed),
        Opcode::Br => with_label!(Token::Br, bytes),
        Opcode::BrIf => with_label!(Token::BrIf, bytes),
        Opcode::BrTable => unreachable!(),
        Opcode::Return => Ok((Token::Return, bytes)),
        Opcode::Call => with_index!(Token::Call, bytes),
        Opcode::CallIndirect => indirect_call_immediates(bytes),
        Opcode::Drop => Ok((Token::Drop, bytes)),
        Opcode::Select => Ok((Token::Select, bytes)),
        Opcode::LocalGet => with_index!(Token::LocalGet, bytes),
        Opcode::LocalSet => with_index!(Token::LocalSet, bytes),
        Opcode::LocalTee => with_index!(Token::LocalTee, bytes),
        Opcode::GlobalGet => with_index!(Token::GlobalGet, bytes),
        Opcode::GlobalSet => with_index!(Token::GlobalSet, bytes),
        Opcode::Load(load) => load_immediates(load, bytes),
        Opcode::Store(store) => store_immediates(store, bytes),
        Opcode::MemorySize => with_zero!(Token::MemorySize, bytes),
        Opcode::MemoryGrow => with_zero!(Token::MemoryGrow, bytes),
        Opcode::I32Const => i32_immediates(bytes),
        Opcode::I64Const => i64_immediates(bytes),
        Opcode::F32Const => f32_immediates(bytes),
        Opcode::F64Const => f64_immediates(bytes),
        Opcode::Numeric(operator) => Ok((Token::Numeric(operator), bytes)),
    }
}

/// Reads `count` labels into the targets, after those that are there; the answer is the bytes after the labels.
fn labels_at<'a>(targets: &mut Vec<u32>, count: u32, bytes: &'a [u8]) -> Result<&'a [u8], Fault>
    ensures ok { IfOk result (λ rest. (added : List ℕ) × (targets.new.items ≡ targets.old.items ++ added)
        × (times_of u32_production.read count bytes.now ≡ Some (added, rest.now))) }
    ensures err { IfErr result (λ e. Fails e (times_of u32_production.read count bytes.now)) }
{
    let mut rest = bytes;
    for _ in 0..count {
        let (label, after) = u32_at(rest)?;
        targets.push(label)?;
        rest = after;
    }
    Ok(rest)
}

/// The labels and the default of `br_table`, after its opcode; they go to the end of the targets.
fn table_at<'a>(targets: &mut Vec<u32>, bytes: &'a [u8]) -> Result<(Token, &'a [u8]), Fault>
    ensures ok { IfOk result (λ x. GivesToken decoded_as targets.old.items targets.new.items (x.0, x.1.now)
        (seen_as Do ((immediates Opcode.BrTable).read bytes.now))) }
    ensures within { IfOk result (λ x. IsTrue (lies_within (length targets.new.items) x.0)) }
    ensures follows { IfOk result (λ x. Follows (length targets.old.items) x.0 (length targets.new.items)) }
    ensures err { IfErr result (λ e. Fails e (seen_as Do ((immediates Opcode.BrTable).read bytes.now))) }
{
    let first = targets.len();
    let (count, rest) = u32_at(bytes)?;
    let rest = labels_at(targets, count, rest)?;
    let (default, rest) = u32_at(rest)?;
    targets.push(default)?;
    Ok((Token::BrTable { count, first }, rest))
}

/// An instruction without a body (5.4).
#[inline(always)]
#[tactic(auto, unfolding(wsyntax::specs::Binary::Instructions::plain_instruction))]
fn plain_at<'a>(targets: &mut Vec<u32>, bytes: &'a [u8]) -> Result<(Token, &'a [u8]), Fault>
    ensures ok { IfOk result (λ x. GivesToken decoded_as targets.old.items targets.new.items (x.0, x.1.now)
        (seen_as Do (plain_instruction.read bytes.now))) }
    ensures within { IfOk result (λ x. IsTrue (lies_within (length targets.new.items) x.0)) }
    ensures follows { IfOk result (λ x. Follows (length targets.old.items) x.0 (length targets.new.items)) }
    ensures err { IfErr result (λ e. Fails e (seen_as Do (plain_instruction.read bytes.now))) }
{
    let [byte, rest @ ..] = bytes else {
        return Err(Fault::Malformed);
    };
    match Opcode::from_byte(*byte) {
        None => Err(Fault::Malformed),
        Some(Opcode::BrTable) => table_at(targets, rest),
        Some(opcode) => match immediates_at(opcode, rest) {
            Err(fault) => Err(fault),
            Ok((token, rest)) => Ok((token, rest)),
        },
    }
}

/// The token at the front (5.4), and the bytes after it; its labels go to the end of the targets.
#[inline(always)]
#[tactic(auto, unfolding(wsyntax::specs::Binary::Nesting::token_at))]
fn front_token<'a>(targets: &mut Vec<u32>, bytes: &'a [u8]) -> Result<(Token, &'a [u8]), Fault>
    ensures ok { IfOk result (λ x. GivesToken decoded_as targets.old.items targets.new.items (x.0, x.1.now) (token_of bytes.now)) }
    ensures within { IfOk result (λ x. IsTrue (lies_within (length targets.new.items) x.0)) }
    ensures follows { IfOk result (λ x. Follows (length targets.old.items) x.0 (length targets.new.items)) }
    ensures err { IfErr result (λ e. Fails e (token_of bytes.now)) }
{
    let [byte, rest @ ..] = bytes else {
        return Err(Fault::Malformed);
    };
    match *byte {
        op::BLOCK => {
            let (block_type, rest) = block_type_at(rest)?;
            Ok((Token::Block(block_type), rest))
        }
        op::LOOP => {
            let (block_type, rest) = block_type_at(rest)?;
            Ok((Token::Loop(block_type), rest))
        }
        op::IF => {
            let (block_type, rest) = block_type_at(rest)?;
            let token = Token::If {
                block: block_type,
                target: 0,
            };
            Ok((token, rest))
        }
        op::ELSE => Ok((Token::Else { target: 0 }, rest)),
        op::END => Ok((Token::End, rest)),
        _ => plain_at(targets, bytes),
    }
}

/// The token at the front (5.4), and the bytes after it; its labels go to the end of the targets.
///
/// A caller that decodes and checks in one loop calls this, and `enter` with what is open.
#[inline(always)]
pub fn token_at<'a>(targets: &mut Vec<u32>, bytes: &'a [u8]) -> Result<(Token, &'a [u8]), Fault>
    ensures ok { IfOk result (λ x. GivesToken decoded_as targets.old.items targets.new.items (x.0, x.1.now) (token_of bytes.now)) }
    ensures within { IfOk result (λ x. IsTrue (lies_within (length targets.new.items) x.0)) }
    ensures follows { IfOk result (λ x. Follows (length targets.old.items) x.0 (length targets.new.items)) }
    ensures shorter { IfOk result (λ x. length x.1.now < length bytes.now) }
    ensures err { IfErr result (λ e. Fails e (token_of bytes.now)) }
{
    match front_token(targets, bytes) {
        Err(fault) => Err(fault),
        Ok((token, rest)) => Ok((token, rest)),
    }
}

/// Moves what is open by a token, the innermost block last: of each, whether an else may still come.
/// The answer is whether the token closes the expression; Malformed says that it cannot stand there.
#[inline(always)]
pub fn enter(opened: &mut SmallVec<bool, FEW_BLOCKS>, token: Token) -> Result<bool, Fault>
    ensures ok { IfOk result (λ closed. (targets : List ℕ) → nest (reverse opened.old.items) (decoded_as targets token)
        ≡ Some (if closed then None else Some (reverse opened.new.items))) }
    ensures err { IfErr result (λ e. (targets : List ℕ) → Fails e (nest (reverse opened.old.items) (decoded_as targets token))) }
{
    match token {
        Token::Block(_) | Token::Loop(_) => {
            opened.push(false)?;
            Ok(false)
        }
        Token::If { .. } => {
            opened.push(true)?;
            Ok(false)
        }
        Token::Else { .. } => match opened.pop() {
            Some(true) => {
                opened.push(false)?;
                Ok(false)
            }
            _ => Err(Fault::Malformed),
        },
        Token::End => Ok(opened.pop().is_none()),
        _ => Ok(false),
    }
}

/// An expression (5.4.6) at the front, up to and with the end that closes it, and the bytes after it. It keeps room for no
/// more tokens and targets than it has.
#[tactic(auto, unfolding(wsyntax::specs::Binary::Nesting::expression))]
pub fn expression_at(alloc: Global, bytes: &[u8]) -> Result<(Expression, &[u8]), Fault>
    ensures value { Gives (λ x. (tokens_of x.0, x.1.now)) result (expression.read bytes.now) }
    ensures follow { IfOk result (λ x. FollowAll 0 x.0.tokens.items (length x.0.targets.items)) }
    ensures targets { IfOk result (λ x. x.0.targets.items ≡ targets_of (tokens_of x.0)) }
{
    let mut tokens = Vec::with_capacity(alloc, bytes.len().min(FEW_TOKENS))?;
    let mut targets = Vec::new(alloc);
    let mut opened = SmallVec::new(alloc);
    let mut rest = bytes;
    'each: loop {
        if let Some((token, after)) = frequent_at(rest) {
            tokens.push(token)?;
            rest = after;
            continue 'each;
        }
        let (token, after) = token_at(&mut targets, rest)?;
        rest = after;
        tokens.push(token)?;
        let closes = enter(&mut opened, token)?;
        if closes {
            tokens.shrink_to_fit();
            targets.shrink_to_fit();
            return Ok((Expression { tokens, targets }, rest));
        }
    }
}
