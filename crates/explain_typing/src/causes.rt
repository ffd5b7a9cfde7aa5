//! Why a token is ill typed.
ghost use Rattle.std.specs.Prelude.{◌≡◌, ◌≢◌, ◌≤◌, ◌<◌, ◌+◌, ◌∷◌, [], ℕ, List, cond, Some, None, true, false};
ghost use Rattle.std.specs.Prelude.{IfOk, IfSome, MatchOption, length, map, reverse, slice_get};
ghost use Rattle.wsyntax.specs.Instructions.{Token as AnyToken, Do, BrTable, Select, Else, End};
ghost use Rattle.wsyntax.specs.Modules.{decoded_as};
ghost use Rattle.wsyntax.specs.Validation.Context.{Context as AnyContext};
ghost use Rattle.wsyntax.specs.Validation.Algorithm.{Frame};
ghost use Rattle.wcheck.specs.Inspected.{IsInnermost, SharesSpaces};
ghost use Rattle.explain_typing.specs.Typed.{frame_type, known_in, pops, told_of, topmost};
ghost use Rattle.explain_typing.specs.Causes.{IsAlignedTo, IsCause, IsMisfit, Names, UsesMemory, size_of};

use crate::operands::{Operands, count_told, finds_of};
use explanation::{Cause, FunctionSignature, Space};
use std::alloc::{AllocError, Global};
use wcheck::{Checker, OpenFrame, table_default, table_labels};
use wcontext::Context;
use wsyntax::{BlockType, Token, ValType};

/// The first operand that is missing or of another type than is taken. The lowest comes first in both lists.
fn misfit(takes: &[Option<ValType>], finds: &[Option<ValType>]) -> Option<Cause>
    ensures { IfSome result (IsMisfit (reverse takes.now) (reverse finds.now)) }
{
    for position in 0..takes.len() {
        let wanted = takes[takes.len() - 1 - position];
        if position >= finds.len() {
            return Some(Cause::Missing { position, wanted });
        }
        if let (Some(wanted), Some(found)) = (wanted, finds[finds.len() - 1 - position]) {
            if found != wanted {
                return Some(Cause::Operand {
                    position,
                    wanted,
                    found,
                });
            }
        }
    }
    None
}

/// The type of the operand at a position from the top, where it is known. The lowest comes first.
fn type_at(finds: &[Option<ValType>], position: usize) -> Option<ValType>
    ensures { IfSome result (λ t. slice_get (reverse finds.now) position ≡ Some (Some t)) }
{
    if position >= finds.len() {
        return None;
    }
    finds[finds.len() - 1 - position]
}

/// The two operands of a select, if they are of different types.
fn unlike(finds: &[Option<ValType>]) -> Option<Cause>
    ensures { IfSome result (λ c. (C : AnyContext) (fs : List Frame) (n : ℕ) → reverse finds.now ≡ topmost n fs
        → IsCause C (Do Select) fs c) }
{
    let Some(above) = type_at(finds, 1) else {
        return None;
    };
    let Some(below) = type_at(finds, 2) else {
        return None;
    };
    if above == below {
        return None;
    }
    Some(Cause::Select { above, below })
}

/// Whether two lists of types differ.
fn differ(one: &[ValType], other: &[ValType]) -> bool
    ensures { result ≡ true → one.now ≢ other.now }
{
    if one.len() != other.len() {
        return true;
    }
    for position in 0..one.len() {
        if one[position] != other[position] {
            return true;
        }
    }
    false
}

/// Why an else or an end is refused that finds the operands which its frame gives.
fn end_cause(alloc: Global, frame: OpenFrame<'_>, is_end: bool) -> Result<Option<Cause>, AllocError>
    ensures { IfOk result (λ r. IfSome r (λ c. (C : AnyContext) (fs : List Frame) → IsInnermost fs frame.entry
        → IsCause C (cond is_end End Else) fs c)) }
{
    let count = frame.height.saturating_sub(frame.gives.len());
    if count > 0 {
        return Ok(Some(Cause::LeftOver { count }));
    }
    if is_end && frame.is_then && differ(frame.starts, frame.gives) {
        return Ok(Some(Cause::NoElse(FunctionSignature {
            params: Vec::from_slice(alloc, frame.starts)?,
            results: Vec::from_slice(alloc, frame.gives)?,
        })));
    }
    Ok(None)
}

/// Why a token is refused that takes these operands and finds those, or more of them, each the lowest first.
fn refusal_by(
    alloc: Global,
    frame: Option<OpenFrame<'_>>,
    token: Token,
    takes: &[Option<ValType>],
    finds: &[Option<ValType>],
) -> Result<Option<Cause>, AllocError>
    ensures { (C : AnyContext) (fs : List Frame) (targets : List ℕ) (n : ℕ) → MatchOption frame.entry (fs ≡ []) (IsInnermost fs)
        → Some (reverse takes.now) ≡ pops C (decoded_as targets token) fs → reverse finds.now ≡ topmost n fs → length takes.now ≤ n
        → IfOk result (λ r. IfSome r (IsCause C (decoded_as targets token) fs)) }
{
    let cause = misfit(takes, finds);
    if cause.is_some() {
        return Ok(cause);
    }
    match (token, frame) {
        (Token::Select, _) => Ok(unlike(finds)),
        (Token::Else { .. }, Some(frame)) => end_cause(alloc, frame, false),
        (Token::End, Some(frame)) => end_cause(alloc, frame, true),
        _ => Ok(None),
    }
}

/// What a token finds that takes these operands, each the lowest first, and why it is refused. They are taken from the checker.
pub(crate) fn operand_cause(
    alloc: Global,
    checker: &mut Checker<'_>,
    token: Token,
    takes: &[Option<ValType>],
) -> Result<(Operands, Option<Cause>), AllocError>
    ensures found { (targets : List ℕ) → IfOk result (λ r. reverse r.0.items
        ≡ topmost (told_of (decoded_as targets token) (length takes.now) (known_in checker.old.frames)) checker.old.frames) }
    ensures types { map frame_type checker.new.frames ≡ map frame_type checker.old.frames }
    ensures cause { (targets : List ℕ) → Some (reverse takes.now) ≡ pops checker.old.inside (decoded_as targets token) checker.old.frames
        → IfOk result (λ r. IfSome r.1 (IsCause checker.old.inside (decoded_as targets token) checker.old.frames)) }
{
    let frame = checker.innermost();
    let known = match frame {
        Some(frame) => frame.height,
        None => 0,
    };
    let finds = finds_of(alloc, checker, count_told(token, takes.len(), known))?;
    let cause = refusal_by(alloc, frame, token, takes, &finds)?;
    Ok((finds, cause))
}

/// Whether there is that index of a space.
fn is_there(checker: &Checker<'_>, space: Space, index: u32) -> bool
    ensures there { result ≡ true → index < size_of space checker.now.inside checker.now.frames }
    ensures none { result ≡ false → size_of space checker.now.inside checker.now.frames ≤ index }
{
    let context = checker.context();
    match space {
        Space::Types => context.lists(index).is_some(),
        Space::Functions => context.function_lists(index).is_some(),
        Space::Globals => context.global(index).is_some(),
        Space::Locals => checker.local(index).is_some(),
        Space::Labels => checker.label(index).is_some(),
    }
}

/// How many indices of a space there are, at most `most`. Halves what is left until one is.
fn count_of(checker: &Checker<'_>, space: Space, most: u32) -> u32
    requires { size_of space checker.now.inside checker.now.frames ≤ most }
    ensures { result ≡ size_of space checker.now.inside checker.now.frames }
{
    let mut low = 0;
    let mut high = most;
    while low < high {
        let middle = low + (high - low) / 2;
        if is_there(checker, space, middle) {
            low = middle + 1;
        } else {
            high = middle;
        }
    }
    low
}

/// That there is no such index of a space.
fn no_index(checker: &Checker<'_>, space: Space, index: u32) -> Option<Cause>
    ensures { IfSome result (λ c. (t : AnyToken) → Names t space index → IsCause checker.now.inside t checker.now.frames c) }
{
    if is_there(checker, space, index) {
        return None;
    }
    let count = count_of(checker, space, index) as usize;
    Some(Cause::NoIndex {
        space,
        index,
        count,
    })
}

/// Why a label of a branch table is refused, or its default.
fn table_cause(
    alloc: Global,
    checker: &Checker<'_>,
    labels: &[u32],
    default: u32,
) -> Result<Option<Cause>, AllocError>
    ensures { IfOk result (λ r. IfSome r (IsCause checker.now.inside (Do (BrTable labels.now default)) checker.now.frames)) }
{
    let Some(others) = checker.label(default) else {
        return Ok(no_index(checker, Space::Labels, default));
    };
    for label in labels {
        let Some(takes) = checker.label(*label) else {
            return Ok(no_index(checker, Space::Labels, *label));
        };
        if differ(takes, others) {
            return Ok(Some(Cause::Labels {
                label: *label,
                takes: Vec::from_slice(alloc, takes)?,
                others: Vec::from_slice(alloc, others)?,
            }));
        }
    }
    Ok(None)
}

/// The index that a token names, where that is one.
fn named(token: Token) -> Option<(Space, u32)>
    ensures { IfSome result (λ n. (targets : List ℕ) → Names (decoded_as targets token) n.0 n.1) }
{
    match token {
        Token::Block(BlockType::Index(index))
        | Token::Loop(BlockType::Index(index))
        | Token::If {
            block: BlockType::Index(index),
            ..
        }
        | Token::CallIndirect(index) => Some((Space::Types, index)),
        Token::Call(index) => Some((Space::Functions, index)),
        Token::GlobalGet(index) | Token::GlobalSet(index) => Some((Space::Globals, index)),
        Token::LocalGet(index) | Token::LocalSet(index) | Token::LocalTee(index) => Some((
            Space::Locals,
            index,
        )),
        Token::Br(label) | Token::BrIf(label) => Some((Space::Labels, label.index)),
        _ => None,
    }
}

/// Whether a token uses the memory.
fn uses_memory(token: Token) -> bool
    ensures { result ≡ true → (targets : List ℕ) → UsesMemory (decoded_as targets token) }
{
    match token {
        Token::Load { .. } => true,
        Token::Store { .. } => true,
        Token::MemorySize => true,
        Token::MemoryGrow => true,
        _ => false,
    }
}

/// The alignment of a load or a store, and the largest that it may have, as exponents of 2.
fn alignment_of(token: Token) -> Option<(u32, u32)>
    ensures { IfSome result (λ a. (targets : List ℕ) → IsAlignedTo (decoded_as targets token) a.0 a.1) }
{
    match token {
        Token::Load {
            load,
            align,
            offset: _,
        } => Some((align, load.row().natural)),
        Token::Store {
            store,
            align,
            offset: _,
        } => Some((align, store.row().natural)),
        _ => None,
    }
}

/// That a load or a store is aligned to more than its width.
fn misaligned(token: Token) -> Option<Cause>
    ensures { IfSome result (λ c. (targets : List ℕ) (C : AnyContext) (fs : List Frame) → IsCause C (decoded_as targets token) fs c) }
{
    let Some((align, largest)) = alignment_of(token) else {
        return None;
    };
    if align <= largest {
        return None;
    }
    Some(Cause::Alignment { align, largest })
}

/// What a token needs of the module, and does not have.
fn lack(context: &Context, token: Token) -> Option<Cause>
    ensures { IfSome result (λ c. (targets : List ℕ) (C : AnyContext) (fs : List Frame) → SharesSpaces context.now.context C
        → IsCause C (decoded_as targets token) fs c) }
{
    if uses_memory(token) && !context.has_memory() {
        return Some(Cause::NoMemory);
    }
    match token {
        Token::GlobalSet(index) => match context.global(index) {
            Some(global) if !global.mutable => Some(Cause::Immutable { global: index }),
            _ => None,
        },
        Token::CallIndirect(_) if !context.has_table() => Some(Cause::NoTable),
        _ => None,
    }
}

/// Why a token is refused that names what is not there.
pub(crate) fn name_cause(
    alloc: Global,
    checker: &Checker<'_>,
    token: Token,
    targets: &[u32],
) -> Result<Option<Cause>, AllocError>
    ensures { IfOk result (λ r. IfSome r (IsCause checker.now.inside (decoded_as targets.now token) checker.now.frames)) }
{
    if let Token::BrTable { count, first } = token {
        let default = table_default(targets, first, count);
        return table_cause(alloc, checker, table_labels(targets, first, count), default);
    }
    if let Some((space, index)) = named(token) {
        let cause = no_index(checker, space, index);
        if cause.is_some() {
            return Ok(cause);
        }
    }
    let cause = lack(checker.context(), token);
    if cause.is_some() {
        return Ok(cause);
    }
    Ok(misaligned(token))
}
