//! The minima of the table and the memory.
ghost use Rattle.std.specs.Prelude.{◌≡◌};
ghost use Rattle.wsyntax.specs.Modules.{module_shape};
ghost use Rattle.accepted_module.specs.Sizes.{table_size, memory_pages};

use wsyntax::Module;

/// The minimum of the table; 0 where there is none.
pub fn table_size(module: &Module<'_>) -> u32
    ensures { result ≡ table_size (module_shape «module».now) }
{
    match module.tables.first() {
        Some(table) => table.limits.min,
        None => 0,
    }
}

/// The minimum of the memory in pages; 0 where there is none.
pub fn memory_pages(module: &Module<'_>) -> u32
    ensures { result ≡ memory_pages (module_shape «module».now) }
{
    match module.memories.first() {
        Some(limits) => limits.min,
        None => 0,
    }
}
