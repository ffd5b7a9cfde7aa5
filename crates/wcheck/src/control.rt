ghost use Rattle.std.specs.Prelude.{◌≡◌, [], ◌∷◌, ◌++◌, true, false, Some, IfOk, IfErr, reverse};
ghost use Rattle.wsyntax.specs.Instructions.{Op, Do};
ghost use Rattle.wsyntax.specs.Modules.{decoded_as};
ghost use Rattle.wsyntax.specs.Validation.Algorithm.{when, step};
ghost use Rattle.wcheck.specs.Views.{scope_context, under_all};
ghost use Rattle.wcheck.specs.Frames.{innermost_of, outside_of, inner_of, frames_of, IsTight};
ghost use Rattle.wcheck.specs.Frames.{outer_frame_of, gone_back, opened, entered, switched, closed};

use crate::apply::{apply_known, apply_rule};
use crate::frames::{ControlFrame, OuterFrame};
use crate::operand_stack::OperandStack;
use crate::rule::rule_of_token;
use crate::scope::{Scope, block_signature};
use side_table::Opener;
use std::alloc::AllocError;
use wcontext::{Context, ListPair, TypeList};
use wsyntax::{BlockType, Token, ValType};

/// The open frames: the innermost one apart, and the others, the outermost first.
#[derive(Drop)]
pub(crate) struct Control<'a> {
    pub(crate) operands: OperandStack<'a>,
    pub(crate) top: ControlFrame,
    pub(crate) outer: Vec<OuterFrame>,
    /// False once the function is closed.
    pub(crate) is_open: bool,
}

/// The same as `push_outer`, where there may be no room.
#[inline(never)]
fn push_beyond(
    outer: &mut Vec<OuterFrame>,
    top: &ControlFrame,
    operands: &OperandStack,
) -> Result<(), AllocError>
    ensures pushed { IfOk result (λ _. outer.new.items ≡ outer.old.items ++ outer_frame_of top.now operands.now ∷ []) }
    ensures refused { IfErr result (λ _. outer.new.items ≡ outer.old.items) }
{
    outer.push(OuterFrame {
        frame: *top,
        unreachable: operands.is_unreachable(),
        height: operands.base(),
    })?;
    Ok(())
}

/// Pushes the innermost frame on the others. After an error these are as before.
// PERF: where room is asked for on the way, the frame is written twice, and waited for.
#[inline(never)]
fn push_outer(
    outer: &mut Vec<OuterFrame>,
    top: &ControlFrame,
    operands: &OperandStack,
) -> Result<(), AllocError>
    ensures pushed { IfOk result (λ _. outer.new.items ≡ outer.old.items ++ outer_frame_of top.now operands.now ∷ []) }
    ensures refused { IfErr result (λ _. outer.new.items ≡ outer.old.items) }
{
    if outer.len() == outer.capacity() {
        return push_beyond(outer, top, operands);
    }
    outer.push(OuterFrame {
        frame: *top,
        unreachable: operands.is_unreachable(),
        height: operands.base(),
    })?;
    Ok(())
}

/// Opens a frame, whose start types are taken from the frame outside it.
#[inline(always)]
#[tactic(auto, using(crate::proofs::Cuts::opened_frames, crate::proofs::Cuts::opened_under))]
fn open_frame(
    control: &mut Control,
    opener: Opener,
    params: TypeList,
    results: TypeList,
) -> Result<bool, AllocError>
    ensures frames { IfOk result (λ yes. opened opener params results control.old ≡ when yes (Some (inner_of control.new))) }
    ensures open { IfOk result (λ yes. control.new.is_open ≡ control.old.is_open) }
    ensures tight { IsTight control.old → IsTight control.new }
    ensures types { control.new.operands.types ≡ control.old.operands.types }
{
    if !control.operands.pop_all(params) {
        return Ok(false);
    }
    push_outer(&mut control.outer, &control.top, &control.operands)?;
    control.operands.open();
    control.operands.push_list(params)?;
    control.top = ControlFrame {
        is_if: opener.is_if(),
        is_loop: opener.is_loop(),
        start_types: params,
        end_types: results,
    };
    Ok(true)
}

/// Opens the frame of a block, a loop or an if, where the block type names a function type. An if takes its condition first.
// PERF: the opener is a constant of each caller, so that the compiler tells it apart.
#[inline(always)]
fn open_block(
    context: &Context,
    control: &mut Control,
    opener: Opener,
    block: BlockType,
) -> Result<bool, AllocError>
    requires { control.old.operands.types ≡ context.now.context.types }
    ensures frames { IfOk result (λ yes. entered opener block control.old ≡ when yes (Some (inner_of control.new))) }
    ensures open { IfOk result (λ yes. control.new.is_open ≡ control.old.is_open) }
    ensures tight { IsTight control.old → IsTight control.new }
    ensures types { control.new.operands.types ≡ control.old.operands.types }
{
    let Some(ListPair { params, results }) = block_signature(context, block) else {
        return Ok(false);
    };
    if opener.is_if() && !control.operands.pop_one(ValType::I32) {
        return Ok(false);
    }
    open_frame(control, opener, params, results)
}

/// Goes on from the first branch of an if to the second.
fn switch_to_else(control: &mut Control) -> Result<bool, AllocError>
    ensures frames { IfOk result (λ yes.
        switched (innermost_of control.old) (outside_of control.old) ≡ when yes (Some (inner_of control.new))) }
    ensures open { IfOk result (λ yes. control.new.is_open ≡ control.old.is_open) }
    ensures tight { IsTight control.old → IsTight control.new }
    ensures types { control.new.operands.types ≡ control.old.operands.types }
{
    if !control.top.is_if {
        return Ok(false);
    }
    if !control.operands.ends_with(control.top.end_types) {
        return Ok(false);
    }
    control.operands.reset_frame();
    control.operands.push_list(control.top.start_types)?;
    control.top.is_if = false;
    Ok(true)
}

/// Pops the innermost frame, whose end types go to `outer`, the frame outside it.
#[inline(always)]
fn go_back(control: &mut Control, outer: OuterFrame) -> Result<(), AllocError>
    ensures frames { IfOk result (λ _. inner_of control.new ≡ gone_back outer control.old) }
    ensures tight { under_all (outer ∷ reverse control.old.outer.items) control.old.operands.below ≡ [] → IsTight control.new }
    ensures open { control.new.is_open ≡ control.old.is_open }
    ensures types { control.new.operands.types ≡ control.old.operands.types }
{
    control.operands.close(outer.height, outer.unreachable);
    control.operands.push_list(control.top.end_types)?;
    control.top = outer.frame;
    Ok(())
}

/// Closes the innermost frame.
#[inline(always)]
#[tactic(auto, using(crate::proofs::Cuts::closed_under, crate::proofs::ReversedLists::reversed_last))]
fn close_frame(control: &mut Control) -> Result<bool, AllocError>
    requires { control.old.is_open ≡ true }
    ensures tight { IsTight control.old → IsTight control.new }
    ensures types { control.new.operands.types ≡ control.old.operands.types }
    ensures frames { IfOk result (λ yes.
        closed (innermost_of control.old) (outside_of control.old) ≡ when yes (Some (frames_of control.new))) }
{
    if !control.operands.ends_with(control.top.end_types) {
        return Ok(false);
    }
    if control.top.is_if {
        control.operands.reset_frame();
        control.operands.push_list(control.top.start_types)?;
        if !control.operands.ends_with(control.top.end_types) {
            return Ok(false);
        }
    }
    match control.outer.pop() {
        Some(outer) => go_back(control, outer)?,
        None => control.is_open = false,
    }
    Ok(true)
}

/// An instruction without a body.
#[inline(always)]
#[tactic(auto, using(crate::proofs::ReversedLists::labels_outside, crate::proofs::PlainSteps::plain, crate::proofs::PlainSteps::unruled))]
fn step_plain(
    scope: &Scope,
    targets: &[u32],
    control: &mut Control,
    token: Token,
) -> Result<bool, AllocError>
    requires open { control.old.is_open ≡ true }
    requires types { control.old.operands.types ≡ scope.now.context.now.context.types }
    ensures frames { IfOk result (λ yes. (i : Op) → decoded_as targets.now token ≡ Do i →
        step (scope_context scope.now) (decoded_as targets.now token) (frames_of control.old)
        ≡ when yes (Some (frames_of control.new))) }
    ensures tight { IsTight control.old → IsTight control.new }
    ensures types { control.new.operands.types ≡ control.old.operands.types }
{
    match rule_of_token(scope, control.top, &control.outer, targets, token) {
        Some(rule) => {
            let yes = apply_rule(&mut control.operands, rule)?;
            Ok(yes)
        }
        None => Ok(false),
    }
}

/// Whether the token reads a local that is not written out.
#[inline(always)]
pub(crate) fn is_past_expanded(scope: &Scope, token: Token) -> bool {
    match token {
        Token::LocalGet(x) | Token::LocalSet(x) | Token::LocalTee(x) => scope
            .locals
            .expanded(x)
            .is_none(),
        _ => false,
    }
}

/// One token, where the operands that it takes are known to be there. `false`: nothing was done, which says nothing of
/// the token.
#[inline(always)]
pub(crate) fn try_fast_step_control(scope: &Scope, control: &mut Control, token: Token) -> bool
    requires open { control.old.is_open ≡ true }
    requires types { control.old.operands.types ≡ scope.now.context.now.context.types }
    ensures frames { result ≡ true →
        step (scope_context scope.now) (decoded_as [] token) (frames_of control.old) ≡ Some (frames_of control.new) }
    ensures others { result ≡ false → frames_of control.new ≡ frames_of control.old }
    ensures tight { IsTight control.old → IsTight control.new }
    ensures types { control.new.operands.types ≡ control.old.operands.types }
{
    if is_past_expanded(scope, token) {
        return false;
    }
    match rule_of_token(scope, control.top, &control.outer, &[], token) {
        Some(rule) => apply_known(&mut control.operands, rule),
        None => false,
    }
}

/// One token.
#[inline(always)]
pub(crate) fn step_control(
    scope: &Scope,
    targets: &[u32],
    control: &mut Control,
    token: Token,
) -> Result<bool, AllocError>
    requires { control.old.operands.types ≡ scope.now.context.now.context.types }
    ensures frames { IfOk result (λ yes.
        step (scope_context scope.now) (decoded_as targets.now token) (frames_of control.old)
        ≡ when yes (Some (frames_of control.new))) }
    ensures tight { IsTight control.old → IsTight control.new }
    ensures types { control.new.operands.types ≡ control.old.operands.types }
{
    if !control.is_open {
        return Ok(false);
    }
    match token {
        Token::Block(block) => open_block(scope.context, control, Opener::Block, block),
        Token::Loop(block) => open_block(scope.context, control, Opener::Loop, block),
        Token::If { block, .. } => open_block(scope.context, control, Opener::If, block),
        Token::Else { .. } => switch_to_else(control),
        Token::End => close_frame(control),
        _ => step_plain(scope, targets, control, token),
    }
}
