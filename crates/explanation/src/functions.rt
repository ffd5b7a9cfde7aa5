//! What is told of the function of a refused body beside its body.
ghost use Rattle.std.specs.Prelude.{◌≡◌, IfOk, IfSome, Some, map, option_map, slice_get};
ghost use Rattle.wsyntax.specs.Modules.{export_shape};
ghost use Rattle.explanation.specs.Functions.{first_name, is_function as names_function};
ghost use Rattle.explanation.specs.Functions.{type_told};

use crate::explanation::FunctionSignature;
use std::alloc::{AllocError, Global};
use wcontext::Context;
use wsyntax::{Export, ExportKind};

/// Whether an export of that kind is a function.
fn is_function(kind: ExportKind) -> bool
    ensures { result ≡ names_function kind }
{
    match kind {
        ExportKind::Function => true,
        ExportKind::Table | ExportKind::Memory | ExportKind::Global => false,
    }
}

/// The name of the first export of the function of that index.
pub fn first_export<'a>(exports: &[Export<'a>], func: u32) -> Option<&'a [u8]>
    ensures { option_map (λ n. n.now) result ≡ first_name func (map export_shape exports.now) }
{
    for export in exports {
        if is_function(export.kind) && export.index == func {
            return Some(export.name);
        }
    }
    None
}

/// The type of the function of that index.
pub fn signature_of(
    alloc: Global,
    context: &Context,
    func: u32,
) -> Result<Option<FunctionSignature>, AllocError>
    ensures { IfOk result (λ s. IfSome s (λ t. slice_get context.now.context.functions func ≡ Some (type_told t))) }
{
    match context.function(func) {
        None => Ok(None),
        Some(found) => Ok(Some(FunctionSignature {
            params: Vec::from_slice(alloc, found.params)?,
            results: Vec::from_slice(alloc, found.results)?,
        })),
    }
}
