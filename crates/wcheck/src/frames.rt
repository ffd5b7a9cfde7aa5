ghost use Rattle.std.specs.Prelude.{◌≡◌, List, MatchOption, length, reverse, slice_get};
ghost use Rattle.wsyntax.specs.Types.{FuncType, same_types};
ghost use Rattle.wcontext.specs.Lists.{list_of, prefix_of};
ghost use Rattle.wsyntax.specs.Validation.Algorithm.{all_take};
ghost use Rattle.wcheck.specs.Views.{label_of, labels_in, first_dead};

use crate::tuning::COMPARED_TYPES;
use crate::types::is_same;
use wcontext::{Context, TypeList, TypePrefix};
use wsyntax::ValType;

/// A control frame (7.3), its operands aside: its opcode, the types that it takes at its start, and those that it leaves at
/// its end.
#[derive(Clone, Copy)]
pub(crate) struct ControlFrame {
    /// An `if` whose else may still come.
    pub(crate) is_if: bool,
    pub(crate) is_loop: bool,
    pub(crate) start_types: TypeList,
    pub(crate) end_types: TypeList,
}

/// A control frame that is not the innermost one: the height of the operands below it, and whether its rest is unreachable.
#[derive(Clone, Copy)]
pub(crate) struct OuterFrame {
    pub(crate) frame: ControlFrame,
    pub(crate) unreachable: bool,
    pub(crate) height: usize,
}

/// What a branch to this frame takes.
#[inline]
pub(crate) fn label_of_frame(frame: ControlFrame) -> TypeList
    ensures { (types : List FuncType) → reverse (list_of types result) ≡ label_of types frame }
{
    if frame.is_loop {
        frame.start_types
    } else {
        frame.end_types
    }
}

/// What a branch to this label takes.
#[inline]
pub(crate) fn label_at(frame: ControlFrame, outer: &[OuterFrame], l: u32) -> Option<TypeList>
    ensures { (types : List FuncType) → MatchOption result
        (slice_get (labels_in types frame outer.now) l ≡ None)
        (λ r. slice_get (labels_in types frame outer.now) l ≡ Some (reverse (list_of types r))) }
{
    if l == 0 {
        return Some(label_of_frame(frame));
    }
    let depth = l as usize;
    if depth > outer.len() {
        return None;
    }
    let frame = &outer[outer.len() - depth];
    Some(label_of_frame(frame.frame))
}

/// Whether what follows in the last of these is unreachable; `false` where there is none.
#[tactic(auto, using(crate::proofs::ReversedLists::reversed_last))]
pub(crate) fn is_last_dead(outer: &[OuterFrame]) -> bool
    ensures { result ≡ first_dead (reverse outer.now) }
{
    match outer.last() {
        Some(frame) => frame.unreachable,
        None => false,
    }
}

/// Whether two lists of types are the same.
fn are_same(a: &[ValType], b: &[ValType]) -> bool
    ensures { result ≡ same_types (reverse a.now) (reverse b.now) }
{
    if a.len() != b.len() {
        return false;
    }
    let mut i = a.len();
    while i > 0 {
        i -= 1;
        if !is_same(a[i], b[i]) {
            return false;
        }
    }
    true
}

/// All of a list.
#[inline]
fn whole(context: &Context, list: TypeList) -> TypePrefix
    ensures types { prefix_of context.now.context.types result ≡ list_of context.now.context.types list }
    ensures count { result.count ≡ length (list_of context.now.context.types list) }
{
    TypePrefix {
        list,
        count: context.list(list).len() as u32,
    }
}

/// Whether two lists of types are the same, which is mostly known without comparing them.
#[tactic(auto, using(crate::proofs::TakenBack::same_position))]
pub(crate) fn are_same_lists(context: &Context, a: TypeList, b: TypeList) -> bool
    ensures { result ≡ same_types (reverse (list_of context.now.context.types a)) (reverse (list_of context.now.context.types b)) }
{
    if a.is_at(b) {
        return true;
    }
    let types = context.list(a);
    let others = context.list(b);
    if types.len() > COMPARED_TYPES {
        let one = whole(context, a);
        let other = whole(context, b);
        if one.count == other.count && context.is_suffix(one, other) {
            return true;
        }
    }
    are_same(types, others)
}

/// Whether all these labels take the types of a list.
pub(crate) fn all_labels_take(
    context: &Context,
    frame: ControlFrame,
    outer: &[OuterFrame],
    r: TypeList,
    ls: &[u32],
) -> bool
    ensures { result ≡ all_take
        (labels_in context.now.context.types frame outer.now)
        (reverse (list_of context.now.context.types r))
        ls.now }
{
    for l in ls {
        let Some(s) = label_at(frame, outer, *l) else {
            return false;
        };
        if !are_same_lists(context, s, r) {
            return false;
        }
    }
    true
}
