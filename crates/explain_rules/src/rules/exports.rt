//! Rules 9 and 10: what exports name, and their names.
ghost use Rattle.std.specs.Prelude.{◌≡◌, ◌≢◌, ◌<◌, true, AllPairs, IfOk, IfSome, Some, option_map};
ghost use Rattle.wsyntax.specs.Modules.{module_shape};
ghost use Rattle.explain_rules.specs.Rules.{BreaksAt, BreaksIn};
ghost use Rattle.explain_rules.specs.Exported.{name_at};
ghost use Rattle.wcontext.specs.Counted.{AreCountsOf};

use super::FirstItem;
use super::repeats::{Repeat, proposed};
use explain_bytes::EXPORT;
use explanation::{BrokenItem, ItemFault};
use std::alloc::{AllocError, Global};
use wcontext::{ModuleFault, SpaceSizes, check_module, first_missing_export};
use wsyntax::{Export, Module};

/// The number of the rule on the names of exports.
pub(crate) const NAMES_RULE: u32 = 10;

/// The first export that names nothing.
pub(crate) fn exported_index<'a>(module: &Module<'a>, counts: &SpaceSizes) -> FirstItem<'a>
    requires { AreCountsOf (module_shape «module».now) counts.now }
    ensures { IfSome result (λ x. BreaksAt (module_shape «module».now) 9 x.0 x.1 x.2) }
{
    let (position, export) = first_missing_export(module, counts)?;
    let fault = ItemFault::ExportedIndex {
        name: export.name,
        kind: export.kind,
        index: export.index,
        count: counts.count(export.kind),
    };
    Some((EXPORT, position, fault))
}

/// Whether a module keeps rule 10 whose rules are those.
fn keeps_names(alloc: Global, module: &Module<'_>) -> Result<bool, AllocError>
    ensures { IfOk result (λ yes. yes ≡ true → AllPairs (λ a b. a.item_name ≢ b.item_name) (module_shape «module».now).exports) }
{
    match check_module(alloc, module) {
        Ok(_context) => Ok(true),
        Err(ModuleFault::Rule(rule)) => Ok(rule > NAMES_RULE),
        Err(ModuleFault::Memory) => Err(AllocError),
    }
}

/// The name of the export at that position.
pub(crate) fn name_of<'a>(exports: &[Export<'a>], position: usize) -> Option<&'a [u8]>
    ensures { option_map (λ n. n.now) result ≡ name_at exports.now position }
{
    let export = exports.get(position)?;
    Some(export.name)
}

/// The name of the export at that position, where an earlier one has it.
fn shared_name<'a>(exports: &[Export<'a>], position: usize, earlier: usize) -> Option<&'a [u8]>
    ensures { IfSome result (λ name. (earlier < position) × (name_at exports.now position ≡ Some name.now)
        × (name_at exports.now earlier ≡ Some name.now)) }
{
    let name = name_of(exports, position)?;
    let first = name_of(exports, earlier)?;
    if earlier < position && first == name {
        Some(name)
    } else {
        None
    }
}

/// The first export that has the name of an earlier one. Without it and those after it the module keeps the rule.
pub(crate) fn exported_name<'a>(
    alloc: Global,
    whole: Module<'a>,
) -> Result<Option<BrokenItem<'a>>, AllocError>
    ensures { IfOk result (λ o. IfSome o (BreaksIn (module_shape whole.entry) NAMES_RULE)) }
{
    let mut module = whole;
    let Some(Repeat { later, earlier }) = proposed(alloc, &module.exports)? else {
        return Ok(None);
    };
    let Some(name) = shared_name(&module.exports, later, earlier) else {
        return Ok(None);
    };
    module.exports.truncate(later);
    if !keeps_names(alloc, &module)? {
        return Ok(None);
    }
    Ok(Some(BrokenItem {
        section: EXPORT,
        position: later,
        at: None,
        value: None,
        fault: ItemFault::ExportedName { name, earlier },
    }))
}
