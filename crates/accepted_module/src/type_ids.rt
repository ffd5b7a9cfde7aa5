//! Ids of types. The indices of types are sorted by the types, so that equal ones stand side by side.
ghost use Rattle.std.specs.Prelude.{◌≡◌, ◌<◌, ◌^◌, IfOk, length};
ghost use Rattle.std.specs.List.{range_with_len};
ghost use Rattle.std.specs.List.Sorted.{IsPermutation, IsSorted};
ghost use Rattle.wsyntax.specs.FuncTypes.{func_type_of};
ghost use Rattle.wsyntax.specs.Validation.ModuleContext.{type_at};
ghost use Rattle.accepted_module.specs.TypeIds.{rank, list_cmp, index_cmp, AreTypeIds};

use std::alloc::{AllocError, Global};
use std::cmp::Ordering;
use wsyntax::{FuncType, FuncTypes, ValType};

/// The position of a value type among the four.
fn rank(of_type: ValType) -> u8
    ensures { result ≡ rank of_type }
{
    match of_type {
        ValType::I32 => 0,
        ValType::I64 => 1,
        ValType::F32 => 2,
        ValType::F64 => 3,
    }
}

/// The order of lists: by the first value types that differ, and else the shorter first.
fn compare_lists(first: &[ValType], second: &[ValType]) -> Ordering
    ensures { result ≡ list_cmp first.now second.now }
{
    let first = first.iter().map(|of_type| rank(*of_type));
    let second = second.iter().map(|of_type| rank(*of_type));
    first.cmp(second)
}

/// The type of that index; one with empty lists where there is none.
fn type_at(types: &FuncTypes, index: u32) -> FuncType<'_>
    ensures { func_type_of result ≡ type_at types.now index }
{
    match types.get(index as usize) {
        Some(of_type) => of_type,
        None => FuncType {
            params: &[],
            results: &[],
        },
    }
}

/// The order of the types of two indices: by their parameters, and then by their results.
fn compare(types: &FuncTypes, first: u32, second: u32) -> Ordering
    ensures { result ≡ index_cmp types.now first second }
{
    let first = type_at(types, first);
    let second = type_at(types, second);
    match compare_lists(first.params, second.params) {
        Ordering::Equal => compare_lists(first.results, second.results),
        order => order,
    }
}

/// The indices of types, in the order of the types.
fn sorted_indices(alloc: Global, types: &FuncTypes) -> Result<Vec<u32>, AllocError>
    requires { length types.now < 2 ^ 32 }
    ensures each { IfOk result (λ v. IsPermutation (range_with_len 0 (length types.now)) v.items) }
    ensures sorted { IfOk result (λ v. IsSorted (index_cmp types.now) v.items) }
{
    let mut indices: Vec<u32> = (0..types.len() as u32).collect(alloc)?;
    indices.sort_unstable_by(|first, second| compare(types, *first, *second));
    Ok(indices)
}

/// Of each type its id, equal for equal types alone: the first position that an equal one has among the sorted. The time is near
/// linear in the length of the types, whatever they are.
pub(crate) fn ids_of_types(alloc: Global, types: &FuncTypes) -> Result<Vec<u32>, AllocError>
    requires { length types.now < 2 ^ 32 }
    ensures { IfOk result (λ v. AreTypeIds types.now v.items) }
{
    let indices = sorted_indices(alloc, types)?;
    let mut ids = vec![in alloc; 0u32; types.len()]?;
    let mut first = 0;
    for position in 0..indices.len() {
        if compare(types, indices[first], indices[position]).is_ne() {
            first = position;
        }
        ids[indices[position] as usize] = first as u32;
    }
    Ok(ids)
}
