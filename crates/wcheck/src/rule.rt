ghost use Rattle.std.specs.Prelude.{◌≡◌, ◌+◌, ◌<◌, ◌^◌, ℕ, List, length, nat_le, reverse};
ghost use Rattle.std.specs.Prelude.{slice_range, slice_index_or, option_map};
ghost use Rattle.wsyntax.specs.Types.{FuncType};
ghost use Rattle.wsyntax.specs.Table.{num_op, load_access, store_access};
ghost use Rattle.wsyntax.specs.Instructions.{MemoryLoad, MemoryStore};
ghost use Rattle.wsyntax.specs.Modules.{decoded_as};
ghost use Rattle.wsyntax.specs.Validation.Typing.{operands, results};
ghost use Rattle.wsyntax.specs.Validation.Algorithm.{rule, Takes};
ghost use Rattle.wcheck.specs.Views.{context_at, token_rule};
ghost use Rattle.wcheck.specs.OperandRules.{rule_of};

use crate::frames::{ControlFrame, OuterFrame, all_labels_take, label_at};
use crate::scope::Scope;
use wcontext::{Context, ListPair, TypeList};
use wsyntax::{AccessRow, Arity, Load, Operator, OperatorRow, Store, Token, ValType};

/// What an instruction without a body takes from the operands and leaves there (3.3). An index is an i32 on top.
#[derive(Clone, Copy)]
pub enum OperandRule {
    /// Takes nothing, and puts nothing.
    Nothing,
    Push(ValType),
    Pop(ValType),
    /// Takes one operand of the first type, and puts one of the second.
    Unary(ValType, ValType),
    /// Takes two operands of the first type, and puts one of the second.
    Binary(ValType, ValType),
    /// Takes a value of this type, and an address below it.
    Stores(ValType),
    /// Takes the first list, and puts the second.
    Signature {
        has_index: bool,
        takes: TypeList,
        gives: TypeList,
    },
    /// Takes these, and what follows is not reached.
    Terminates {
        has_index: bool,
        takes: TypeList,
    },
    /// Takes one operand of any type.
    Drop,
    /// Takes an i32 and two operands of one type, and puts one of that type.
    Select,
}

/// The rule of a numeric operator (3.3.1).
#[inline(always)]
pub(crate) fn numeric_rule(op: Operator) -> OperandRule
    ensures { (types : List FuncType) → rule_of types result ≡ Takes (reverse (operands (num_op op))) (reverse (results (num_op op))) }
{
    let OperatorRow {
        arity,
        operand,
        result: leaves,
    } = op.row();
    match arity {
        Arity::One => OperandRule::Unary(operand, leaves),
        Arity::Two => OperandRule::Binary(operand, leaves),
    }
}

/// Whether an alignment is at most the width, both as exponents of 2.
#[inline(always)]
fn is_aligned(align: u32, natural: u32) -> bool
    ensures { result ≡ nat_le (2 ^ align) (2 ^ natural) }
{
    align <= natural
}

/// A load whose alignment is at most its width, where there is a memory.
#[inline(always)]
fn load_rule(context: &Context, load: Load, align: u32) -> Option<OperandRule>
    ensures { (offset : ℕ) → option_map (rule_of context.now.context.types) result
        ≡ rule context.now.context (MemoryLoad (load_access load align offset)) }
{
    let AccessRow { of_type, natural } = load.row();
    if !context.has_memory() {
        return None;
    }
    if !is_aligned(align, natural) {
        return None;
    }
    Some(OperandRule::Unary(ValType::I32, of_type))
}

/// A store whose alignment is at most its width, where there is a memory.
#[inline(always)]
fn store_rule(context: &Context, store: Store, align: u32) -> Option<OperandRule>
    ensures { (offset : ℕ) → option_map (rule_of context.now.context.types) result
        ≡ rule context.now.context (MemoryStore (store_access store align offset)) }
{
    let AccessRow { of_type, natural } = store.row();
    if !context.has_memory() {
        return None;
    }
    if !is_aligned(align, natural) {
        return None;
    }
    Some(OperandRule::Stores(of_type))
}

/// The labels of a branch table, the default apart.
#[inline]
pub fn table_labels(targets: &[u32], first: usize, count: u32) -> &[u32]
    ensures labels { result.now ≡ slice_range targets.now first (first + count) }
    ensures few { length result.now < 2 ^ 32 }
{
    let rest = if first <= targets.len() {
        &targets[first..]
    } else {
        &targets[targets.len()..]
    };
    let count = count as usize;
    if count <= rest.len() {
        &rest[..count]
    } else {
        rest
    }
}

/// The default of a branch table.
#[inline]
pub fn table_default(targets: &[u32], first: usize, count: u32) -> u32
    ensures { result ≡ slice_index_or targets.now (first + count) 0 }
{
    match first.checked_add(count as usize) {
        Some(position) => targets.get(position).copied().unwrap_or(0),
        None => 0,
    }
}

/// What an instruction without a body asks for, if what it names is there; `None` at the other tokens.
#[inline(always)]
pub(crate) fn rule_of_token(
    scope: &Scope,
    frame: ControlFrame,
    outer: &[OuterFrame],
    targets: &[u32],
    token: Token,
) -> Option<OperandRule>
    ensures { option_map (rule_of scope.now.context.now.context.types) result
        ≡ token_rule (context_at scope.now frame outer.now) (decoded_as targets.now token) }
{
    let context = scope.context;
    match token {
        Token::Unreachable => Some(OperandRule::Terminates {
            has_index: false,
            takes: TypeList::Nothing,
        }),
        Token::Nop => Some(OperandRule::Nothing),
        Token::Br(label) => {
            let takes = label_at(frame, outer, label.index)?;
            Some(OperandRule::Terminates {
                has_index: false,
                takes,
            })
        }
        Token::BrIf(label) => {
            let takes = label_at(frame, outer, label.index)?;
            Some(OperandRule::Signature {
                has_index: true,
                takes,
                gives: takes,
            })
        }
        Token::BrTable { count, first } => {
            let takes = label_at(frame, outer, table_default(targets, first, count))?;
            if !all_labels_take(
                context,
                frame,
                outer,
                takes,
                table_labels(targets, first, count),
            ) {
                return None;
            }
            Some(OperandRule::Terminates {
                has_index: true,
                takes,
            })
        }
        Token::Return => Some(OperandRule::Terminates {
            has_index: false,
            takes: scope.results,
        }),
        Token::Call(x) => {
            let ListPair { params, results } = context.function_lists(x)?;
            Some(OperandRule::Signature {
                has_index: false,
                takes: params,
                gives: results,
            })
        }
        Token::CallIndirect(y) => {
            if !context.has_table() {
                return None;
            }
            let ListPair { params, results } = context.lists(y)?;
            Some(OperandRule::Signature {
                has_index: true,
                takes: params,
                gives: results,
            })
        }
        Token::Drop => Some(OperandRule::Drop),
        Token::Select => Some(OperandRule::Select),
        Token::LocalGet(x) => {
            let val_type = scope.locals.get(x)?;
            Some(OperandRule::Push(val_type))
        }
        Token::LocalSet(x) => {
            let val_type = scope.locals.get(x)?;
            Some(OperandRule::Pop(val_type))
        }
        Token::LocalTee(x) => {
            let val_type = scope.locals.get(x)?;
            Some(OperandRule::Unary(val_type, val_type))
        }
        Token::GlobalGet(x) => {
            let global = context.global(x)?;
            Some(OperandRule::Push(global.val_type))
        }
        Token::GlobalSet(x) => {
            let global = context.global(x)?;
            if global.mutable {
                Some(OperandRule::Pop(global.val_type))
            } else {
                None
            }
        }
        Token::Load {
            load,
            align,
            offset: _,
        } => load_rule(context, load, align),
        Token::Store {
            store,
            align,
            offset: _,
        } => store_rule(context, store, align),
        Token::MemorySize => {
            if context.has_memory() {
                Some(OperandRule::Push(ValType::I32))
            } else {
                None
            }
        }
        Token::MemoryGrow => {
            if context.has_memory() {
                Some(OperandRule::Unary(ValType::I32, ValType::I32))
            } else {
                None
            }
        }
        Token::I32Const(_) => Some(OperandRule::Push(ValType::I32)),
        Token::I64Const(_) => Some(OperandRule::Push(ValType::I64)),
        Token::F32Const(_) => Some(OperandRule::Push(ValType::F32)),
        Token::F64Const(_) => Some(OperandRule::Push(ValType::F64)),
        Token::Numeric(op) => Some(numeric_rule(op)),
        Token::Block(_) | Token::Loop(_) | Token::If { .. } | Token::Else { .. } | Token::End =>
            None,
    }
}
