//! The table of a fresh store.

ghost use Rattle.std.specs.Prelude.{◌≡◌, ◌+◌, ◌≤◌, length, map, replicate, option_map, IfOk};
ghost use Rattle.wsyntax.specs.Execution.Allocation.{overwrite, put_elements, AllWithin};
ghost use Rattle.wsyntax.specs.Execution.Store.{SetTo, Unset};
ghost use Rattle.interpreter.specs.Seen.{entry_of};
ghost use Rattle.wsyntax.specs.Modules.{module_shape};
ghost use Rattle.wsyntax.specs.Execution.Start.{layout_of};
ghost use Rattle.accepted_module.specs.InitialStates.{IsLayoutOf};
ghost use Rattle.accepted_module.specs.Segments.{element_segments, offsets_of};
ghost use Rattle.accepted_module.specs.Sizes.{table_size};

use accepted_module::InitialState;
use interpreter::TableEntry;
use std::alloc::{AllocError, Global};
use wsyntax::{Elements, Module, Table};

/// Sets the entries from `offset` on to the functions `functions`.
fn put_functions(entries: &mut [TableEntry], offset: usize, functions: &[u32])
    requires { offset + length functions.now ≤ length entries.old }
    ensures { map entry_of entries.new ≡ overwrite offset (map SetTo functions.now) (map entry_of entries.old) }
{
    for (i, func) in functions.iter().enumerate() {
        entries[offset + i] = TableEntry::SetTo(*func);
    }
}

/// Writes the element segments in order, each from its offset in `offsets` on.
fn put_elements(entries: &mut [TableEntry], segments: &Elements<'_>, offsets: &[u32])
    requires within { AllWithin (length entries.old) (element_segments segments.now) }
    requires placed { offsets.now ≡ offsets_of (element_segments segments.now) }
    ensures { map entry_of entries.new ≡ put_elements (element_segments segments.now) (map entry_of entries.old) }
{
    for index in 0..segments.len() {
        let Some(segment) = segments.get(index) else {
            unreachable!()
        };
        put_functions(entries, offsets[index] as usize, segment.functions);
    }
}

/// A table of its minimum with unset entries, and then the element segments in order.
pub(crate) fn fresh_table(
    alloc: Global,
    table: &Table,
    segments: &Elements<'_>,
    offsets: &[u32],
) -> Result<Vec<TableEntry>, AllocError>
    requires within { AllWithin table.now.limits.min (element_segments segments.now) }
    requires placed { offsets.now ≡ offsets_of (element_segments segments.now) }
    ensures { IfOk result
        (λ t. map entry_of t.items ≡ put_elements (element_segments segments.now) (replicate table.now.limits.min Unset)) }
{
    let mut entries = Vec::from_elem(alloc, TableEntry::Unset, table.limits.min as usize)?;
    put_elements(&mut entries, segments, offsets);
    Ok(entries)
}

/// The table of a fresh store, where the module has one.
pub(crate) fn module_table(
    alloc: Global,
    module: &Module<'_>,
    layout: &InitialState,
) -> Result<Option<Vec<TableEntry>>, AllocError>
    requires within { AllWithin (table_size (module_shape «module».now)) (layout_of (module_shape «module».now)).elements }
    requires laid { IsLayoutOf (module_shape «module».now) layout.now }
    ensures { IfOk result
        (λ t. option_map (λ v. map entry_of v.items) t
        ≡ option_map (λ n. put_elements (layout_of (module_shape «module».now)).elements (replicate n Unset))
        (layout_of (module_shape «module».now)).table) }
{
    let Some(table) = module.tables.first() else {
        return Ok(None);
    };
    let entries = fresh_table(alloc, table, &module.elements, layout.element_offsets())?;
    Ok(Some(entries))
}
