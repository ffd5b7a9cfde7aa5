//! The expressions of first values and offsets.
ghost use Rattle.std.specs.Prelude.{◌≡◌, ◌≢◌, ℕ, List, [], ◌∷◌, Some, IfSome, MatchOption, is_some};
ghost use Rattle.wdecode.specs.Gives.{Begins, Gives, rest_of};
ghost use Rattle.wsyntax.specs.Instructions.{End};
ghost use Rattle.wsyntax.specs.Initials.{is_const_or_get, has_constant_form, tokens_read};
ghost use Rattle.wsyntax.specs.Modules.{decoded_as, initial_tokens};
ghost use Rattle.wsyntax.specs.Binary.Nesting.{expression};

use crate::fault::Fault;
use crate::frequent::i32_const;
use crate::instructions::{enter, token_at};
use crate::op;
use smallvec::SmallVec;
use std::alloc::Global;
use wsyntax::{ConstExpr, OtherExpression, Token};

/// The expression of that instruction and its end, where it is a constant or a `global.get`.
fn alone<'a>(token: Token) -> Option<ConstExpr<'a>>
    ensures form { (targets : List ℕ) → is_some result ≡ is_const_or_get (decoded_as targets token) }
    ensures tokens { IfSome result (λ x. (targets : List ℕ) → initial_tokens x ≡ decoded_as targets token ∷ End ∷ []) }
{
    match token {
        Token::I32Const(number) => Some(ConstExpr::I32Const(number)),
        Token::I64Const(number) => Some(ConstExpr::I64Const(number)),
        Token::F32Const(bytes) => Some(ConstExpr::F32Const(bytes)),
        Token::F64Const(bytes) => Some(ConstExpr::F64Const(bytes)),
        Token::GlobalGet(index) => Some(ConstExpr::GlobalGet(index)),
        _ => None,
    }
}

/// The bytes after `byte`, where it stands at the front.
#[inline(always)]
fn after_byte(byte: u8, bytes: &[u8]) -> Option<&[u8]>
    ensures { MatchOption result ((rest : List ℕ) → bytes.now ≢ byte ∷ rest) (λ rest. bytes.now ≡ byte ∷ rest.now) }
{
    match bytes {
        [first, rest @ ..] if *first == byte => Some(rest),
        _ => None,
    }
}

/// A constant i32 and its end at the front, as nearly each offset is, and the bytes after them; `None` says nothing.
#[inline(always)]
pub fn number_at(bytes: &[u8]) -> Option<(i32, &[u8])>
    ensures { IfSome result (λ x. expression.read bytes.now ≡ Some (initial_tokens (ConstExpr.I32Const x.0), x.1.now)) }
{
    let rest = after_byte(op::I32_CONST, bytes)?;
    let (token, rest) = i32_const(rest)?;
    let rest = after_byte(op::END, rest)?;
    match token {
        Token::I32Const(number) => Some((number, rest)),
        _ => None,
    }
}

/// The expression of that token and the end that stands at the front of `bytes`, and the bytes after it; `None` where no end
/// stands there, or the token is neither a constant nor a `global.get`.
#[inline(always)]
fn single_at(token: Token, bytes: &[u8]) -> Option<(ConstExpr<'_>, &[u8])>
    ensures form { (whole targets : List ℕ) → Begins whole (decoded_as targets token) bytes.now
        → is_some result ≡ has_constant_form (tokens_read whole) }
    ensures single { (whole targets : List ℕ) → Begins whole (decoded_as targets token) bytes.now
        → IfSome result (λ x. expression.read whole ≡ Some (initial_tokens x.0, x.1.now)) }
{
    let after = after_byte(op::END, bytes)?;
    let initial = alone(token)?;
    Some((initial, after))
}

/// The bytes after the expression whose first token is `first`, with its labels in `targets`, and whose others stand in
/// `bytes`. Of these no more is kept than the open blocks, and the labels of one branch table.
// PERF: a call would take the first token through memory, also where it stands alone.
#[inline(always)]
fn end_of<'a>(
    alloc: Global,
    targets: &mut Vec<u32>,
    first: Token,
    bytes: &'a [u8],
) -> Result<&'a [u8], Fault>
    ensures { (whole : List ℕ) → Begins whole (decoded_as targets.old.items first) bytes.now
        → Gives (λ x. x.now) result (rest_of (expression.read whole)) }
{
    let mut opened = SmallVec::new(alloc);
    let mut token = first;
    let mut rest = bytes;
    'each: loop {
        let closes = enter(&mut opened, token)?;
        if closes {
            return Ok(rest);
        }
        targets.clear();
        let (next, after) = token_at(targets, rest)?;
        token = next;
        rest = after;
    }
}

/// An expression (5.4.6) at the front, up to and with the end that closes it, and the bytes after it. No expression keeps
/// memory, and one constant or one `global.get` takes none.
pub fn initial_at(alloc: Global, bytes: &[u8]) -> Result<(ConstExpr<'_>, &[u8]), Fault>
    ensures { Gives (λ x. (initial_tokens x.0, x.1.now)) result (expression.read bytes.now) }
{
    let mut targets = Vec::new(alloc);
    let (first, rest) = token_at(&mut targets, bytes)?;
    match single_at(first, rest) {
        Some((initial, after)) => Ok((initial, after)),
        None => {
            let after = end_of(alloc, &mut targets, first, rest)?;
            Ok((ConstExpr::Other(OtherExpression { bytes }), after))
        }
    }
}

/// The expression of an offset at the front, which nearly always is a constant i32, and the bytes after it.
#[inline(always)]
pub fn offset_at(alloc: Global, bytes: &[u8]) -> Result<(ConstExpr<'_>, &[u8]), Fault>
    ensures { Gives (λ x. (initial_tokens x.0, x.1.now)) result (expression.read bytes.now) }
{
    match number_at(bytes) {
        Some((number, rest)) => Ok((ConstExpr::I32Const(number), rest)),
        None => initial_at(alloc, bytes),
    }
}
