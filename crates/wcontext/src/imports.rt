//! What imports add to the index spaces (2.5.1, 2.5.11).
ghost use Rattle.std.specs.Prelude.{◌≡◌, IfOk, filter_map};
ghost use Rattle.wsyntax.specs.Validation.ModuleContext.{imported_function, imported_table, imported_memory, imported_global};

use std::alloc::{AllocError, Global};
use wsyntax::{GlobalType, Import, ImportKind, Limits, Table};

/// The function that an import adds to its index space (2.5.11), by the index of its type.
fn imported_function(kind: ImportKind) -> Option<u32>
    ensures { result ≡ imported_function kind }
{
    match kind {
        ImportKind::Function(type_index) => Some(type_index),
        _ => None,
    }
}

/// The table that an import adds to its index space.
fn imported_table(kind: ImportKind) -> Option<Table>
    ensures { result ≡ imported_table kind }
{
    match kind {
        ImportKind::Table(table) => Some(table),
        _ => None,
    }
}

/// The memory that an import adds to its index space.
fn imported_memory(kind: ImportKind) -> Option<Limits>
    ensures { result ≡ imported_memory kind }
{
    match kind {
        ImportKind::Memory(limits) => Some(limits),
        _ => None,
    }
}

/// The global that an import adds to its index space.
fn imported_global(kind: ImportKind) -> Option<GlobalType>
    ensures { result ≡ imported_global kind }
{
    match kind {
        ImportKind::Global(global) => Some(global),
        _ => None,
    }
}

/// The imported functions, each by the index of its type.
pub fn imported_function_types(
    alloc: Global,
    imports: &[Import<'_>],
) -> Result<Vec<u32>, AllocError>
    ensures { IfOk result (λ v. v.items ≡ filter_map (λ i. imported_function i.kind) imports.now) }
{
    imports
        .iter()
        .filter_map(|import| imported_function(import.kind))
        .collect(alloc)
}

/// The imported tables.
pub fn imported_tables(alloc: Global, imports: &[Import<'_>]) -> Result<Vec<Table>, AllocError>
    ensures { IfOk result (λ v. v.items ≡ filter_map (λ i. imported_table i.kind) imports.now) }
{
    imports
        .iter()
        .filter_map(|import| imported_table(import.kind))
        .collect(alloc)
}

/// The imported memories.
pub fn imported_memories(alloc: Global, imports: &[Import<'_>]) -> Result<Vec<Limits>, AllocError>
    ensures { IfOk result (λ v. v.items ≡ filter_map (λ i. imported_memory i.kind) imports.now) }
{
    imports
        .iter()
        .filter_map(|import| imported_memory(import.kind))
        .collect(alloc)
}

/// The imported globals.
pub fn imported_globals(
    alloc: Global,
    imports: &[Import<'_>],
) -> Result<Vec<GlobalType>, AllocError>
    ensures { IfOk result (λ v. v.items ≡ filter_map (λ i. imported_global i.kind) imports.now) }
{
    imports
        .iter()
        .filter_map(|import| imported_global(import.kind))
        .collect(alloc)
}
