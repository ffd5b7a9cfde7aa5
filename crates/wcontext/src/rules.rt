//! The rules that a module keeps (3.2, 3.4), one function a rule, in the order in which they are looked at. Where a rule is asked of
//! each item of a list, its function gives the first that breaks it, by its position.
//! Rule 1 of Core 1.0, at most one result a function type, is not asked: Core 2.0 has no such rule. The others keep their numbers.
ghost use Rattle.std.specs.Prelude.{◌↔◌, ◌<◌, IsTrue, IfOk, length};
ghost use Rattle.wsyntax.specs.Elements.{element_of};
ghost use Rattle.wsyntax.specs.Modules.{module_shape, data_shape, element_shape, export_shape, global_shape};
ghost use Rattle.wsyntax.specs.Validation.ModuleContext.{imported_functions, imported_globals, tables_of, memories_of};
ghost use Rattle.wsyntax.specs.Validation.Rules.{InOrder, WithinRange, OneTable, OneMemory, ConstantOf, count_of, ExportsDistinct};
ghost use Rattle.wsyntax.specs.Validation.Rules.{StartsPlainly, ElementValid, DataValid};
ghost use Rattle.wcontext.specs.Firsts.{GivesFirst, GivesFirstOf};
ghost use Rattle.wcontext.specs.Spaces.{AreSpacesOf};
ghost use Rattle.wcontext.specs.Counted.{AreCountsOf};

use crate::constant::is_constant;
use crate::limits::{are_in_order, are_within_pages};
use crate::names::{NameRoom, are_distinct};
use crate::space_sizes::SpaceSizes;
use crate::spaces::Spaces;
use crate::start::has_empty_type;
use std::alloc::AllocError;
use wsyntax::{Data, Element, Export, Global, Limits, Module, PAGE_RANGE, Table};

/// The first of these indices that is not below `count`, and its position.
pub fn first_unknown(indices: &[u32], count: usize) -> Option<(usize, u32)>
    ensures { GivesFirst (λ y. y < count) indices.now result }
{
    for (position, index) in indices.iter().enumerate() {
        if *index as usize >= count {
            return Some((position, *index));
        }
    }
    None
}

/// Rule 2: the type of each imported function exists. The first function whose type does not, and the index of that type.
pub fn first_untyped_import(module: &Module<'_>, spaces: &Spaces) -> Option<(usize, u32)>
    requires { AreSpacesOf (module_shape «module».now) spaces.now }
    ensures { GivesFirst (λ y. y < length (module_shape «module».now).types) (imported_functions (module_shape «module».now)) result }
{
    let imported = &spaces.functions[..spaces.imported_functions];
    first_unknown(imported, module.types.len())
}

/// Rule 3: the type of each defined function exists. The first function whose type does not, and the index of that type.
pub fn first_untyped_function(module: &Module<'_>) -> Option<(usize, u32)>
    ensures { GivesFirst (λ y. y < length (module_shape «module».now).types) (module_shape «module».now).functions result }
{
    first_unknown(&module.functions, module.types.len())
}

/// Rule 4: the limits of each table are in order. The first table whose limits are not.
pub fn first_unordered_table(module: &Module<'_>, spaces: &Spaces) -> Option<(usize, Table)>
    requires { AreSpacesOf (module_shape «module».now) spaces.now }
    ensures { GivesFirst (λ t. InOrder t.limits) (tables_of (module_shape «module».now)) result }
{
    for (index, table) in spaces.tables.iter().enumerate() {
        if !are_in_order(table.limits) {
            return Some((index, *table));
        }
    }
    None
}

/// Rule 5: the limits of each memory are within 65,536 pages. The first limits of a memory that are not.
pub fn first_unlimited_memory(module: &Module<'_>, spaces: &Spaces) -> Option<(usize, Limits)>
    requires { AreSpacesOf (module_shape «module».now) spaces.now }
    ensures { GivesFirst (WithinRange PAGE_RANGE) (memories_of (module_shape «module».now)) result }
{
    for (index, limits) in spaces.memories.iter().enumerate() {
        if !are_within_pages(*limits) {
            return Some((index, *limits));
        }
    }
    None
}

/// Rule 6: there is at most one table.
pub fn one_table(module: &Module<'_>, spaces: &Spaces) -> bool
    requires { AreSpacesOf (module_shape «module».now) spaces.now }
    ensures { IsTrue result ↔ OneTable (module_shape «module».now) }
{
    spaces.tables.len() <= 1
}

/// Rule 7: there is at most one memory.
pub fn one_memory(module: &Module<'_>, spaces: &Spaces) -> bool
    requires { AreSpacesOf (module_shape «module».now) spaces.now }
    ensures { IsTrue result ↔ OneMemory (module_shape «module».now) }
{
    spaces.memories.len() <= 1
}

/// Rule 8: each global's first value is a constant expression of its type. The first global whose is not.
pub fn first_inconstant_global<'a>(
    module: &Module<'a>,
    spaces: &Spaces,
) -> Option<(usize, Global<'a>)>
    requires { AreSpacesOf (module_shape «module».now) spaces.now }
    ensures { GivesFirstOf global_shape (λ g. ConstantOf (imported_globals (module_shape «module».now)) g.global_type.val_type g.init)
        (module_shape «module».now).globals result }
{
    let imported = spaces.constant_globals();
    for (position, global) in module.globals.iter().enumerate() {
        if !is_constant(&global.init, global.global_type.val_type, imported) {
            return Some((position, *global));
        }
    }
    None
}

/// Rule 9: each exported index exists in its space. The first export that names nothing.
pub fn first_missing_export<'a>(
    module: &Module<'a>,
    counts: &SpaceSizes,
) -> Option<(usize, Export<'a>)>
    requires { AreCountsOf (module_shape «module».now) counts.now }
    ensures { GivesFirstOf export_shape (λ e. e.index < count_of (module_shape «module».now) e.kind)
        (module_shape «module».now).exports result }
{
    for (position, export) in module.exports.iter().enumerate() {
        if !counts.has_exported(export) {
            return Some((position, *export));
        }
    }
    None
}

/// Rule 10: export names are distinct. What the room for them held is gone.
pub fn exports_distinct<'a>(
    names: &mut NameRoom<'a>,
    module: &Module<'a>,
) -> Result<bool, AllocError>
    ensures { IfOk result (λ b. IsTrue b ↔ ExportsDistinct (module_shape «module».now)) }
{
    are_distinct(names, &module.exports)
}

/// Rule 11: the start function exists and has type `[] -> []`.
pub fn starts_plainly(module: &Module<'_>, spaces: &Spaces) -> bool
    requires { AreSpacesOf (module_shape «module».now) spaces.now }
    ensures { IsTrue result ↔ StartsPlainly (module_shape «module».now) }
{
    match module.start {
        None => true,
        Some(func) => has_empty_type(func, &spaces.functions, &module.types),
    }
}

/// Rule 12: of each element segment the table exists, the offset is a constant expression of type i32, the functions
/// exist. The first segment of which that is not so.
pub fn first_invalid_element<'m>(
    module: &'m Module<'_>,
    counts: &SpaceSizes,
) -> Option<(usize, Element<'m>)>
    requires { AreCountsOf (module_shape «module».now) counts.now }
    ensures { GivesFirstOf (λ e. element_shape (element_of e)) (ElementValid (module_shape «module».now))
        (module_shape «module».now).elements result }
{
    for position in 0..module.elements.len() {
        let Some(segment) = module.elements.get(position) else {
            unreachable!()
        };
        if !counts.takes_element(segment) {
            return Some((position, segment));
        }
    }
    None
}

/// Rule 13: of each data segment the memory exists, the offset is a constant expression of type i32. The first segment of which
/// that is not so.
pub fn first_invalid_segment<'a>(
    module: &Module<'a>,
    counts: &SpaceSizes,
) -> Option<(usize, Data<'a>)>
    requires { AreCountsOf (module_shape «module».now) counts.now }
    ensures { GivesFirstOf data_shape (DataValid (module_shape «module».now)) (module_shape «module».now).segments result }
{
    for (position, segment) in module.data.iter().enumerate() {
        if !counts.takes_segment(segment) {
            return Some((position, *segment));
        }
    }
    None
}
