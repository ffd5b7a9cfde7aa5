//! What C asks of the imports of a module.

ghost use Rattle.std.specs.Prelude.{◌≡◌, length};
ghost use Rattle.c_api.specs.Imported.{imports_of, TellsImport, TellsItemName, TellsModuleName};

use crate::counted::ModuleCount;
use crate::imported::{GateImport, tell_import, tell_import_name};
use crate::module::{GateModule, ModuleStatus};

/// How many imports a module has.
#[unsafe(no_mangle)]
pub extern "C" fn gate_module_import_count(module: GateModule) -> ModuleCount
    ensures count { result.count ≡ length (imports_of «module».value.accepted.value) }
    ensures handle { result.at ≡ «module».at }
    ensures alive { result.value ≡ «module».value }
{
    let held = module.loose();
    let count = held.as_ref().accepted.module().imports.len() as u64;
    ModuleCount::of(count, held)
}

/// Writes the import at that position, from 0, in the order of the module. 0: it is written; 4: there is none.
#[unsafe(no_mangle)]
pub extern "C" fn gate_module_import(
    module: GateModule,
    position: u64,
    import: &mut GateImport,
) -> ModuleStatus
    ensures answer { TellsImport «module».value.accepted.value position import.old import.new result.status }
    ensures handle { result.at ≡ «module».at }
    ensures alive { result.value ≡ «module».value }
{
    let held = module.loose();
    let status = tell_import(&held.as_ref().accepted, position, import);
    ModuleStatus::of(status, held)
}

/// Writes the name of the module of the import at that position. 0: it is written, and its length; 4: there is no such import; 75: the
/// name has `length` bytes, and there is no room for it.
#[unsafe(no_mangle)]
pub extern "C" fn gate_module_import_module(
    module: GateModule,
    position: u64,
    out: &mut [u8],
    length: &mut usize,
) -> ModuleStatus
    ensures answer { TellsModuleName «module».value.accepted.value position out.old out.new length.old length.new result.status }
    ensures handle { result.at ≡ «module».at }
    ensures alive { result.value ≡ «module».value }
{
    let held = module.loose();
    let status = tell_import_name(&held.as_ref().accepted, position, true, out, length);
    ModuleStatus::of(status, held)
}

/// Writes the import's own name. As `gate_module_import_module`.
#[unsafe(no_mangle)]
pub extern "C" fn gate_module_import_name(
    module: GateModule,
    position: u64,
    out: &mut [u8],
    length: &mut usize,
) -> ModuleStatus
    ensures answer { TellsItemName «module».value.accepted.value position out.old out.new length.old length.new result.status }
    ensures handle { result.at ≡ «module».at }
    ensures alive { result.value ≡ «module».value }
{
    let held = module.loose();
    let status = tell_import_name(&held.as_ref().accepted, position, false, out, length);
    ModuleStatus::of(status, held)
}
