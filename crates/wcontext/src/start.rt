//! The start function (3.4.7).
ghost use Rattle.std.specs.Prelude.{◌↔◌, ◌≡◌, ℕ, IsTrue, Some, slice_get};
ghost use Rattle.wsyntax.specs.FuncTypes.{func_type_of};
ghost use Rattle.wsyntax.specs.Validation.ModuleContext.{empty_type};

use wsyntax::{FuncType, FuncTypes};

/// Whether a type is `[] -> []`.
fn is_empty_type(of_type: FuncType<'_>) -> bool
    ensures { IsTrue result ↔ (func_type_of of_type.entry ≡ empty_type) }
{
    of_type.params.is_empty() && of_type.results.is_empty()
}

/// Whether the type of that index exists and is `[] -> []`.
fn is_empty_type_at(type_index: u32, types: &FuncTypes) -> bool
    ensures { IsTrue result ↔ (slice_get types.now type_index ≡ Some empty_type) }
{
    match types.get(type_index as usize) {
        Some(of_type) => is_empty_type(of_type),
        None => false,
    }
}

/// Whether a function exists and has type `[] -> []`. Functions are given by the indices of their types.
pub fn has_empty_type(func: u32, functions: &[u32], types: &FuncTypes) -> bool
    ensures { IsTrue result ↔ ((y : ℕ) × (slice_get functions.now func ≡ Some y) × (slice_get types.now y ≡ Some empty_type)) }
{
    match functions.get(func as usize) {
        Some(type_index) => is_empty_type_at(*type_index, types),
        None => false,
    }
}
