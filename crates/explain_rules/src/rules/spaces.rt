//! Rules 2 to 7: functions, tables and memories, imported or defined.
ghost use Rattle.std.specs.Prelude.{IfSome, length};
ghost use Rattle.wsyntax.specs.Modules.{module_shape};
ghost use Rattle.wsyntax.specs.declared.module.ExportKind.TheVariants as exports;
ghost use Rattle.wsyntax.specs.Validation.ModuleContext.{imported_memories, imported_tables};
ghost use Rattle.explain_rules.specs.Rules.{BreaksAt, IsPlaceOf};
ghost use Rattle.wcontext.specs.Spaces.{AreSpacesOf};

use super::FirstItem;
use crate::imported::import_of;
use explain_bytes::{FUNCTION, IMPORT, MEMORY, TABLE};
use explanation::ItemFault;
use wcontext::{
    Spaces, first_unlimited_memory, first_unordered_table, first_untyped_function,
    first_untyped_import, one_memory, one_table,
};
use wsyntax::{ExportKind, Module};

/// The first imported function whose type does not exist.
pub(crate) fn imported_type<'a>(module: &Module<'_>, spaces: &Spaces) -> FirstItem<'a>
    requires { AreSpacesOf (module_shape «module».now) spaces.now }
    ensures { IfSome result (λ x. BreaksAt (module_shape «module».now) 2 x.0 x.1 x.2) }
{
    let (func, type_index) = first_untyped_import(module, spaces)?;
    let position = import_of(&module.imports, ExportKind::Function, func)?;
    let fault = ItemFault::ImportedType {
        func,
        type_index,
        types: module.types.len(),
    };
    Some((IMPORT, position, fault))
}

/// The first defined function whose type does not exist.
pub(crate) fn defined_type<'a>(module: &Module<'_>, spaces: &Spaces) -> FirstItem<'a>
    requires { AreSpacesOf (module_shape «module».now) spaces.now }
    ensures { IfSome result (λ x. BreaksAt (module_shape «module».now) 3 x.0 x.1 x.2) }
{
    let (position, type_index) = first_untyped_function(module)?;
    let fault = ItemFault::DefinedType {
        func: spaces.imported_functions.checked_add(position)?,
        type_index,
        types: module.types.len(),
    };
    Some((FUNCTION, position, fault))
}

/// The section and the position in it of the item of that index in the space of that kind: the first ones are imported, and
/// the others are those of the section `own`.
fn location_in(
    module: &Module<'_>,
    kind: ExportKind,
    own: u8,
    imported: usize,
    index: usize,
) -> Option<(u8, usize)>
    ensures { IfSome result (λ x. IsPlaceOf (module_shape «module».now) kind own imported index x.0 x.1) }
{
    match index.checked_sub(imported) {
        Some(position) => Some((own, position)),
        None => Some((IMPORT, import_of(&module.imports, kind, index)?)),
    }
}

/// The section and the position in it of the table of that index.
fn table_location(module: &Module<'_>, spaces: &Spaces, table: usize) -> Option<(u8, usize)>
    requires { AreSpacesOf (module_shape «module».now) spaces.now }
    ensures { IfSome result (λ x. IsPlaceOf (module_shape «module».now) exports.Table TABLE
        (length (imported_tables (module_shape «module».now))) table x.0 x.1) }
{
    let imported = spaces.tables.len().saturating_sub(module.tables.len());
    location_in(module, ExportKind::Table, TABLE, imported, table)
}

/// The section and the position in it of the memory of that index.
fn memory_location(module: &Module<'_>, spaces: &Spaces, memory: usize) -> Option<(u8, usize)>
    requires { AreSpacesOf (module_shape «module».now) spaces.now }
    ensures { IfSome result (λ x. IsPlaceOf (module_shape «module».now) exports.Memory MEMORY
        (length (imported_memories (module_shape «module».now))) memory x.0 x.1) }
{
    let imported = spaces.memories.len().saturating_sub(module.memories.len());
    location_in(module, ExportKind::Memory, MEMORY, imported, memory)
}

/// The first table whose limits are not in order.
pub(crate) fn table_limits<'a>(module: &Module<'_>, spaces: &Spaces) -> FirstItem<'a>
    requires { AreSpacesOf (module_shape «module».now) spaces.now }
    ensures { IfSome result (λ x. BreaksAt (module_shape «module».now) 4 x.0 x.1 x.2) }
{
    let (table, found) = first_unordered_table(module, spaces)?;
    let (section, position) = table_location(module, spaces, table)?;
    let limits = found.limits;
    Some((section, position, ItemFault::TableLimits { table, limits }))
}

/// The first memory whose limits are not in order, or not within 65,536 pages.
pub(crate) fn memory_limits<'a>(module: &Module<'_>, spaces: &Spaces) -> FirstItem<'a>
    requires { AreSpacesOf (module_shape «module».now) spaces.now }
    ensures { IfSome result (λ x. BreaksAt (module_shape «module».now) 5 x.0 x.1 x.2) }
{
    let (memory, limits) = first_unlimited_memory(module, spaces)?;
    let (section, position) = memory_location(module, spaces, memory)?;
    let fault = ItemFault::MemoryLimits { memory, limits };
    Some((section, position, fault))
}

/// The second table.
pub(crate) fn second_table<'a>(module: &Module<'_>, spaces: &Spaces) -> FirstItem<'a>
    requires { AreSpacesOf (module_shape «module».now) spaces.now }
    ensures { IfSome result (λ x. BreaksAt (module_shape «module».now) 6 x.0 x.1 x.2) }
{
    if one_table(module, spaces) {
        return None;
    }
    let tables = spaces.tables.len();
    let (section, position) = table_location(module, spaces, 1)?;
    Some((section, position, ItemFault::SecondTable { tables }))
}

/// The second memory.
pub(crate) fn second_memory<'a>(module: &Module<'_>, spaces: &Spaces) -> FirstItem<'a>
    requires { AreSpacesOf (module_shape «module».now) spaces.now }
    ensures { IfSome result (λ x. BreaksAt (module_shape «module».now) 7 x.0 x.1 x.2) }
{
    if one_memory(module, spaces) {
        return None;
    }
    let memories = spaces.memories.len();
    let (section, position) = memory_location(module, spaces, 1)?;
    Some((section, position, ItemFault::SecondMemory { memories }))
}
