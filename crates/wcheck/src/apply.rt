ghost use Rattle.std.specs.Prelude.{◌≡◌, [], ◌∷◌, true, false, Option, Some, IfOk, reverse};
ghost use Rattle.wsyntax.specs.Validation.Algorithm.{when, apply, join};
ghost use Rattle.wcheck.specs.OperandRules.{rule_of};

use crate::operand_stack::OperandStack;
use crate::rule::OperandRule;
use crate::types::is_same;
use std::alloc::AllocError;
use wcontext::TypeList;
use wsyntax::ValType;

/// The type of both, if they may be of one type.
#[inline]
fn joined(x: Option<ValType>, y: Option<ValType>) -> Option<Option<ValType>>
    ensures { result ≡ join x y }
{
    match (x, y) {
        (None, _) => Some(y),
        (Some(_), None) => Some(x),
        (Some(t), Some(u)) => { if is_same(t, u) { Some(x) } else { None } }
    }
}

/// Takes an i32 and two operands that may be of one type, and puts one of that type.
#[inline]
fn selects(operands: &mut OperandStack) -> Result<bool, AllocError>
    ensures above { IfOk result (λ yes. apply (rule_of operands.old.types OperandRule.Select) operands.old.above
        ≡ when yes (Some operands.new.above)) }
    ensures below { operands.new.below ≡ operands.old.below }
    ensures types { operands.new.types ≡ operands.old.types }
{
    if !operands.pop_one(ValType::I32) {
        return Ok(false);
    }
    let Some(x) = operands.pop_any() else {
        return Ok(false);
    };
    let Some(y) = operands.pop_any() else {
        return Ok(false);
    };
    let Some(z) = joined(x, y) else {
        return Ok(false);
    };
    operands.push(z)?;
    Ok(true)
}

/// Takes some types, and puts others.
#[inline]
fn apply_signature(
    operands: &mut OperandStack,
    has_index: bool,
    takes: TypeList,
    gives: TypeList,
) -> Result<bool, AllocError>
    ensures above { IfOk result (λ yes. apply (rule_of operands.old.types (OperandRule.Signature has_index takes gives)) operands.old.above
        ≡ when yes (Some operands.new.above)) }
    ensures below { operands.new.below ≡ operands.old.below }
    ensures types { operands.new.types ≡ operands.old.types }
{
    if has_index && !operands.pop_one(ValType::I32) {
        return Ok(false);
    }
    if !operands.pop_all(takes) {
        return Ok(false);
    }
    operands.push_list(gives)?;
    Ok(true)
}

/// Takes some types, and what follows is not reached.
#[inline]
fn ends(operands: &mut OperandStack, has_index: bool, takes: TypeList) -> bool
    ensures above { apply (rule_of operands.old.types (OperandRule.Terminates has_index takes)) operands.old.above
        ≡ when result (Some operands.new.above) }
    ensures below { operands.new.below ≡ operands.old.below }
    ensures types { operands.new.types ≡ operands.old.types }
{
    if has_index && !operands.pop_one(ValType::I32) {
        return false;
    }
    if !operands.pop_all(takes) {
        return false;
    }
    operands.make_unreachable();
    true
}

/// Does to the operands what the instruction does. After a refusal or an error nothing is said of them.
#[inline(always)]
pub(crate) fn apply_rule(operands: &mut OperandStack, rule: OperandRule) -> Result<bool, AllocError>
    ensures above { IfOk result (λ yes.
        apply (rule_of operands.old.types rule) operands.old.above ≡ when yes (Some operands.new.above)) }
    ensures below { operands.new.below ≡ operands.old.below }
    ensures types { operands.new.types ≡ operands.old.types }
{
    match rule {
        OperandRule::Nothing => Ok(true),
        OperandRule::Push(t) => {
            operands.push(Some(t))?;
            Ok(true)
        }
        OperandRule::Pop(t) => Ok(operands.pop_one(t)),
        OperandRule::Unary(t, u) => operands.apply_unary(t, u),
        OperandRule::Binary(t, u) => operands.apply_binary(t, u),
        OperandRule::Stores(t) => Ok(operands.pop_two(t, ValType::I32)),
        OperandRule::Signature {
            has_index: true,
            takes: TypeList::Nothing,
            gives: TypeList::Nothing,
        } => Ok(operands.pop_known(ValType::I32) || operands.pop_one(ValType::I32)),
        OperandRule::Signature {
            has_index,
            takes,
            gives,
        } => apply_signature(operands, has_index, takes, gives),
        OperandRule::Terminates { has_index, takes } => Ok(ends(operands, has_index, takes)),
        OperandRule::Drop => Ok(operands.drop_known() || operands.pop_any().is_some()),
        OperandRule::Select => selects(operands),
    }
}

/// Does to the operands what the instruction does, where those that it takes are known to be there. `false`: nothing was
/// done, which says nothing of the instruction.
#[inline(always)]
pub(crate) fn apply_known(operands: &mut OperandStack, rule: OperandRule) -> bool
    ensures above { result ≡ true → apply (rule_of operands.old.types rule) operands.old.above ≡ Some operands.new.above }
    ensures others { result ≡ false → operands.new.above ≡ operands.old.above }
    ensures below { operands.new.below ≡ operands.old.below }
    ensures types { operands.new.types ≡ operands.old.types }
{
    match rule {
        OperandRule::Push(t) => operands.push_known(t),
        OperandRule::Pop(t) => operands.pop_known(t),
        OperandRule::Unary(t, u) => operands.apply_unary_known(t, u),
        OperandRule::Binary(t, u) => operands.apply_binary_known(t, u),
        OperandRule::Stores(t) => operands.pop_two_known(t, ValType::I32),
        OperandRule::Drop => operands.drop_known(),
        OperandRule::Nothing
        | OperandRule::Signature { .. }
        | OperandRule::Terminates { .. }
        | OperandRule::Select => false,
    }
}
