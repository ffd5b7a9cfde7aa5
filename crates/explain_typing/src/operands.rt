//! What a token takes from the operands, and what it finds there (7.3).
ghost use Rattle.std.specs.Prelude.{◌≡◌, ℕ, List, Some, IfOk, map, reverse, option_map};
ghost use Rattle.wsyntax.specs.Modules.{decoded_as};
ghost use Rattle.wsyntax.specs.Validation.Context.{block_sig, enter};
ghost use Rattle.wcheck.specs.OperandRules.{indexed, rule_of};
ghost use Rattle.explain_typing.specs.Typed.{asked, frame_type, pops, told_of, topmost};

use std::alloc::{AllocError, Global};
use wcheck::{Checker, OperandRule};
use wcontext::Context;
use wsyntax::{BlockType, Token, ValType};

/// How many operands are told that are left over at the end of a block.
const LEFT_OVER: usize = 64;

/// How many operands are told that a token before the ill-typed one puts.
const PUT: usize = 64;

/// A list of operands, the lowest first.
pub(crate) type Operands = Vec<Option<ValType>>;

/// The operands of a list of types, and an i32 on top, where there is an index.
fn listed(alloc: Global, types: &[ValType], has_index: bool) -> Result<Operands, AllocError>
    ensures { IfOk result (λ o. reverse o.items ≡ map Some (indexed has_index (reverse types.now))) }
{
    let mut operands = Vec::new(alloc);
    for of_type in types {
        operands.push(Some(*of_type))?;
    }
    if has_index {
        operands.push(Some(ValType::I32))?;
    }
    Ok(operands)
}

/// What a rule takes.
fn asked_by(alloc: Global, context: &Context, rule: OperandRule) -> Result<Operands, AllocError>
    ensures { IfOk result (λ o. reverse o.items ≡ asked (rule_of context.now.context.types rule)) }
{
    match rule {
        OperandRule::Nothing | OperandRule::Push(_) => Ok(Vec::new(alloc)),
        OperandRule::Pop(one) | OperandRule::Unary(one, _) => listed(alloc, &[one], false),
        OperandRule::Binary(both, _) => listed(alloc, &[both, both], false),
        OperandRule::Stores(value) => listed(alloc, &[ValType::I32, value], false),
        OperandRule::Signature {
            has_index,
            takes,
            gives: _,
        }
        | OperandRule::Terminates { has_index, takes } => listed(
            alloc,
            context.list(takes),
            has_index,
        ),
        OperandRule::Drop => Vec::from_slice(alloc, &[None]),
        OperandRule::Select => Vec::from_slice(alloc, &[None, None, Some(ValType::I32)]),
    }
}

/// What a block takes that is opened, and an i32 on top, where it is an if.
fn entered(
    alloc: Global,
    checker: &Checker<'_>,
    block: BlockType,
    is_if: bool,
) -> Result<Option<Operands>, AllocError>
    ensures { IfOk result (λ o. option_map (λ x. reverse x.items) o
        ≡ option_map (λ s. map Some (indexed is_if (enter s))) (block_sig checker.now.inside.types block)) }
{
    let context = checker.context();
    match checker.block_lists(block) {
        None => Ok(None),
        Some(pair) => {
            let operands = listed(alloc, context.list(pair.params), is_if)?;
            Ok(Some(operands))
        }
    }
}

/// What a token takes, where what it names is there.
pub(crate) fn takes_of(
    alloc: Global,
    checker: &Checker<'_>,
    token: Token,
    targets: &[u32],
) -> Result<Option<Operands>, AllocError>
    ensures { IfOk result (λ o. option_map (λ x. reverse x.items) o
        ≡ pops checker.now.inside (decoded_as targets.now token) checker.now.frames) }
{
    let Some(frame) = checker.innermost() else {
        return Ok(None);
    };
    match token {
        Token::Block(block) => entered(alloc, checker, block, false),
        Token::Loop(block) => entered(alloc, checker, block, false),
        Token::If { block, target: _ } => entered(alloc, checker, block, true),
        Token::Else { .. } | Token::End => {
            let operands = listed(alloc, frame.gives, false)?;
            Ok(Some(operands))
        }
        _ => match checker.rule(token, targets) {
            None => Ok(None),
            Some(rule) => {
                let operands = asked_by(alloc, checker.context(), rule)?;
                Ok(Some(operands))
            }
        },
    }
}

/// The last of these types, no more than are told.
fn last_of(alloc: Global, types: &[ValType]) -> Result<Operands, AllocError> {
    let least = types.len().saturating_sub(PUT);
    listed(alloc, types.get(least..).unwrap_or(types), false)
}

/// What a rule puts, the topmost last.
fn put_by(alloc: Global, context: &Context, rule: OperandRule) -> Result<Operands, AllocError> {
    match rule {
        OperandRule::Push(one) | OperandRule::Unary(_, one) | OperandRule::Binary(_, one) => {
            listed(alloc, &[one], false)
        }
        OperandRule::Signature { gives, .. } => last_of(alloc, context.list(gives)),
        OperandRule::Select => Vec::from_slice(alloc, &[None]),
        _ => Ok(Vec::new(alloc)),
    }
}

/// What a token puts, the topmost last, and what a block begins with that it opens. Those that a `br_if` takes and puts again stay
/// those of others.
pub(crate) fn leaves_of(
    alloc: Global,
    checker: &Checker<'_>,
    token: Token,
    targets: &[u32],
) -> Result<Operands, AllocError> {
    let Some(frame) = checker.innermost() else {
        return Ok(Vec::new(alloc));
    };
    let context = checker.context();
    match token {
        Token::Block(block) | Token::Loop(block) | Token::If { block, target: _ } => {
            match checker.block_lists(block) {
                Some(pair) => last_of(alloc, context.list(pair.params)),
                None => Ok(Vec::new(alloc)),
            }
        }
        Token::Else { .. } => last_of(alloc, frame.starts),
        Token::End => last_of(alloc, frame.gives),
        Token::BrIf(_) => Ok(Vec::new(alloc)),
        _ => match checker.rule(token, targets) {
            Some(rule) => put_by(alloc, context, rule),
            None => Ok(Vec::new(alloc)),
        },
    }
}

/// How many operands are told, of a token that takes `takes`.
pub(crate) fn count_told(token: Token, takes: usize, known: usize) -> usize
    ensures { (targets : List ℕ) → result ≡ told_of (decoded_as targets token) takes known }
{
    match token {
        Token::Else { .. } | Token::End => takes.max(known.min(takes.saturating_add(LEFT_OVER))),
        _ => takes,
    }
}

/// The topmost `count` operands of the innermost frame, or all where it has fewer, the topmost first.
fn taken(alloc: Global, checker: &mut Checker<'_>, count: usize) -> Result<Operands, AllocError>
    ensures taken { IfOk result (λ o. o.items ≡ topmost count checker.old.frames) }
    ensures types { map frame_type checker.new.frames ≡ map frame_type checker.old.frames }
{
    let mut operands = Vec::new(alloc);
    for at in 0..count {
        let Some(operand) = checker.pop_operand() else {
            return Ok(operands);
        };
        operands.push(operand)?;
    }
    Ok(operands)
}

/// These operands in the reverse order.
fn turned(alloc: Global, operands: Operands) -> Result<Operands, AllocError>
    ensures { IfOk result (λ o. reverse o.items ≡ operands.items) }
{
    let mut others = operands;
    let mut turned = Vec::new(alloc);
    while let Some(operand) = others.pop() {
        turned.push(operand)?;
    }
    Ok(turned)
}

/// The topmost `count` operands of the innermost frame, or all where it has fewer. They are taken from it.
pub(crate) fn finds_of(
    alloc: Global,
    checker: &mut Checker<'_>,
    count: usize,
) -> Result<Operands, AllocError>
    ensures found { IfOk result (λ o. reverse o.items ≡ topmost count checker.old.frames) }
    ensures types { map frame_type checker.new.frames ≡ map frame_type checker.old.frames }
{
    let operands = taken(alloc, checker, count)?;
    turned(alloc, operands)
}
