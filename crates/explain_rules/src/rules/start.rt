//! Rule 11: the start function.
ghost use Rattle.std.specs.Prelude.{◌≡◌, IfOk, IfSome, Some};
ghost use Rattle.wsyntax.specs.Modules.{module_shape};
ghost use Rattle.explain_rules.specs.Rules.{BreaksAt};
ghost use Rattle.wcontext.specs.Spaces.{AreSpacesOf};

use super::FirstItem;
use explain_bytes::START;
use explanation::{FunctionSignature, ItemFault};
use std::alloc::{AllocError, Global};
use wcontext::Spaces;
use wsyntax::Module;

/// What is wrong with the start function of that index.
fn start_fault<'a>(
    alloc: Global,
    module: &Module<'_>,
    spaces: &Spaces,
    func: u32,
) -> Result<Option<ItemFault<'a>>, AllocError>
    requires spaces { AreSpacesOf (module_shape «module».now) spaces.now }
    requires start { (module_shape «module».now).start ≡ Some func }
    ensures { IfOk result (λ o. IfSome o (BreaksAt (module_shape «module».now) 11 START 0)) }
{
    let functions = spaces.functions.len();
    let Some(type_index) = spaces.functions.get(func as usize) else {
        return Ok(Some(ItemFault::StartMissing { func, functions }));
    };
    let Some(found) = module.types.get(*type_index as usize) else {
        return Ok(None);
    };
    if found.params.is_empty() && found.results.is_empty() {
        return Ok(None);
    }
    let signature = FunctionSignature {
        params: Vec::from_slice(alloc, found.params)?,
        results: Vec::from_slice(alloc, found.results)?,
    };
    Ok(Some(ItemFault::StartTyped { func, signature }))
}

/// The start function, where it does not exist or has another type than `[] -> []`.
pub(crate) fn start<'a>(
    alloc: Global,
    module: &Module<'_>,
    spaces: &Spaces,
) -> Result<FirstItem<'a>, AllocError>
    requires { AreSpacesOf (module_shape «module».now) spaces.now }
    ensures { IfOk result (λ o. IfSome o (λ x. BreaksAt (module_shape «module».now) 11 x.0 x.1 x.2)) }
{
    let Some(func) = module.start else {
        return Ok(None);
    };
    match start_fault(alloc, module, spaces, func)? {
        None => Ok(None),
        Some(fault) => Ok(Some((START, 0, fault))),
    }
}
