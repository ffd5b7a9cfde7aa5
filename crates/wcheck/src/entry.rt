ghost use Rattle.std.specs.Prelude.{◌≡◌, ◌≤◌, ◌<◌, ◌-◌, ◌^◌, List, ◌++◌, true, false, Some};
ghost use Rattle.std.specs.Prelude.{IfSome, MatchOption, length, map, take};
ghost use Rattle.wcontext.specs.Lists.{prefix_of};
ghost use Rattle.wcheck.specs.Heights.{type_of};
ghost use Rattle.wcheck.specs.Runs.{is_several, run_at, types_in, last_types};

use crate::types::first_of;
use wcontext::{Context, TypePrefix};
use wsyntax::ValType;

/// An entry of the operand stack in one byte: an operand, or a run of several. The types come first, in the order of
/// `ValType`, and `Unknown` is an operand of any type.
#[derive(Clone, Copy)]
pub(crate) enum StackEntry {
    I32,
    I64,
    F32,
    F64,
    Unknown,
    Run,
}

#[inline]
pub(crate) fn packed(x: Option<ValType>) -> StackEntry
    ensures value { type_of result ≡ x }
    ensures single { is_several result ≡ false }
{
    match x {
        Some(ValType::I32) => StackEntry::I32,
        Some(ValType::I64) => StackEntry::I64,
        Some(ValType::F32) => StackEntry::F32,
        Some(ValType::F64) => StackEntry::F64,
        None => StackEntry::Unknown,
    }
}

#[inline]
pub(crate) fn unpacked(x: StackEntry) -> Option<ValType>
    ensures { result ≡ type_of x }
{
    match x {
        StackEntry::I32 => Some(ValType::I32),
        StackEntry::I64 => Some(ValType::I64),
        StackEntry::F32 => Some(ValType::F32),
        StackEntry::F64 => Some(ValType::F64),
        StackEntry::Unknown | StackEntry::Run => None,
    }
}

/// Whether the operand is known to be of this type.
#[inline]
pub(crate) fn is_known(x: StackEntry, t: ValType) -> bool
    ensures { result ≡ true → type_of x ≡ Some t }
{
    x as u8 == t as u8
}

/// Whether the last entries are known to be of these types.
#[inline]
pub(crate) fn end_in_singles(entries: &[StackEntry], ts: &[ValType]) -> bool
    ensures { result ≡ true → (runs : List (List ValType)) → types_in entries.now runs
        ≡ types_in (take (length entries.now - length ts.now) entries.now) runs ++ map Some ts.now }
{
    if entries.len() < ts.len() {
        return false;
    }
    let first = entries.len() - ts.len();
    for (i, t) in ts.iter().enumerate() {
        if !is_known(entries[first + i], *t) {
            return false;
        }
    }
    true
}

/// Whether the entry is that of a run.
#[inline]
pub(crate) fn is_run(entry: StackEntry) -> bool
    ensures { result ≡ is_several entry }
{
    matches!(entry, StackEntry::Run)
}

/// The types of a prefix.
#[inline]
pub(crate) fn types_of_prefix(context: &Context, prefix: TypePrefix) -> &[ValType]
    ensures types { result.now ≡ prefix_of context.now.context.types prefix }
    ensures few { length result.now < 2 ^ 32 }
{
    first_of(context.list(prefix.list), prefix.count as usize)
}

/// The types of the run of the topmost entry; `None` where that is one operand.
#[inline]
pub(crate) fn top_run<'a>(
    context: &'a Context,
    entry: StackEntry,
    runs: &[TypePrefix],
) -> Option<&'a [ValType]>
    ensures found { MatchOption result
        (run_at entry (map (prefix_of context.now.context.types) runs.now) ≡ None)
        (λ r. run_at entry (map (prefix_of context.now.context.types) runs.now) ≡ Some r.now) }
    ensures few { IfSome result (λ r. length r.now < 2 ^ 32) }
{
    match entry {
        StackEntry::Run => match runs.last() {
            Some(run) => Some(types_of_prefix(context, *run)),
            None => None,
        },
        StackEntry::I32
        | StackEntry::I64
        | StackEntry::F32
        | StackEntry::F64
        | StackEntry::Unknown => None,
    }
}

/// The length of the shorter of two prefixes, where its types are known to be the last types of the longer one. `None` says
/// nothing.
#[inline(always)]
pub(crate) fn shared_end(context: &Context, one: TypePrefix, other: TypePrefix) -> Option<usize>
    requires whole { one.count ≡ length (prefix_of context.now.context.types one) }
    ensures first { IfSome result (λ n. n ≤ length (prefix_of context.now.context.types one)) }
    ensures second { IfSome result (λ n. n ≤ length (prefix_of context.now.context.types other)) }
    ensures same { IfSome result (λ n. last_types n (prefix_of context.now.context.types one)
        ≡ last_types n (prefix_of context.now.context.types other)) }
{
    let first = one.count as usize;
    if one.count == other.count && one.list.is_at(other.list) {
        return Some(first);
    }
    let second = types_of_prefix(context, other).len();
    let (short, long) = if first < second {
        (one, other)
    } else {
        (other, one)
    };
    context.is_suffix(short, long).then_some(first.min(second))
}
