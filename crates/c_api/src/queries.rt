//! What C asks of a module.

ghost use Rattle.std.specs.Prelude.{◌≡◌, length};
ghost use Rattle.c_api.specs.Exported.{exports_of, TellsExport, FindsExport, TellsName, TellsTypes};
ghost use Rattle.c_api.specs.Measures.{measures_of};
ghost use Rattle.c_api.specs.Sizes.{capped, module_bytes};
ghost use Rattle.c_api.specs.Starts.{AnswersStart};

use crate::counted::ModuleCount;
use crate::ending::GateCall;
use crate::exported::{GateExport, find, tell_export, tell_name, tell_types};
use crate::measures::GateMeasures;
use crate::module::{GateModule, ModuleStatus};
use crate::settings::GateSettings;
use crate::size::module_size;
use crate::starting::start_line;
use crate::status::{BAD_ARGUMENT, OK};
use std::alloc::Global;

/// The number of what this interface has beside its first functions.
#[unsafe(no_mangle)]
pub extern "C" fn gate_revision() -> u32
    ensures { result ≡ 2 }
{
    2
}

/// How many exports a module has.
#[unsafe(no_mangle)]
pub extern "C" fn gate_module_export_count(module: GateModule) -> ModuleCount
    ensures count { result.count ≡ length (exports_of «module».value.accepted.value) }
    ensures handle { result.at ≡ «module».at }
    ensures alive { result.value ≡ «module».value }
{
    let held = module.loose();
    let count = held.as_ref().accepted.module().exports.len() as u64;
    ModuleCount::of(count, held)
}

/// How many bytes the lists of a module take.
#[unsafe(no_mangle)]
pub extern "C" fn gate_module_size(module: GateModule) -> ModuleCount
    ensures count { result.count ≡ capped (module_bytes «module».value.accepted.value) }
    ensures handle { result.at ≡ «module».at }
    ensures alive { result.value ≡ «module».value }
{
    let held = module.loose();
    let count = module_size(&held.as_ref().accepted);
    ModuleCount::of(count, held)
}

/// Writes the numbers of a module by which a host may refuse it. 0: they are written.
#[unsafe(no_mangle)]
pub extern "C" fn gate_module_measures(
    module: GateModule,
    measures: &mut GateMeasures,
) -> ModuleStatus
    ensures status { result.status ≡ 0 }
    ensures measures { measures.new ≡ measures_of «module».value.accepted.value }
    ensures handle { result.at ≡ «module».at }
    ensures alive { result.value ≡ «module».value }
{
    let held = module.loose();
    *measures = GateMeasures::of(&held.as_ref().accepted);
    ModuleStatus::of(OK, held)
}

/// Writes the export at that position, from 0, in the order of the module. 0: it is written; 4: there is none.
#[unsafe(no_mangle)]
pub extern "C" fn gate_module_export(
    module: GateModule,
    position: u64,
    export: &mut GateExport,
) -> ModuleStatus
    ensures answer { TellsExport «module».value.accepted.value position export.old export.new result.status }
    ensures handle { result.at ≡ «module».at }
    ensures alive { result.value ≡ «module».value }
{
    let held = module.loose();
    let status = tell_export(&held.as_ref().accepted, position, export);
    ModuleStatus::of(status, held)
}

/// Writes the name of the export at that position. 0: it is written, and its length; 4: there is no such export; 75: the name has
/// `length` bytes, and there is no room for it.
#[unsafe(no_mangle)]
pub extern "C" fn gate_module_export_name(
    module: GateModule,
    position: u64,
    out: &mut [u8],
    length: &mut usize,
) -> ModuleStatus
    ensures answer { TellsName «module».value.accepted.value position out.old out.new length.old length.new result.status }
    ensures handle { result.at ≡ «module».at }
    ensures alive { result.value ≡ «module».value }
{
    let held = module.loose();
    let status = tell_name(&held.as_ref().accepted, position, out, length);
    ModuleStatus::of(status, held)
}

/// Writes what is exported under a name. 0: it is written; 4: nothing is exported under it.
#[unsafe(no_mangle)]
pub extern "C" fn gate_module_find(
    module: GateModule,
    name: &[u8],
    export: &mut GateExport,
) -> ModuleStatus
    ensures answer { FindsExport «module».value.accepted.value name.now export.old export.new result.status }
    ensures handle { result.at ≡ «module».at }
    ensures alive { result.value ≡ «module».value }
{
    let held = module.loose();
    let status = find(&held.as_ref().accepted, name, export);
    ModuleStatus::of(status, held)
}

/// Writes the types of the function of that index. 0: they are written; 4: there is no such function; 75: a buffer is too short, and
/// nothing is written.
#[unsafe(no_mangle)]
pub extern "C" fn gate_module_types(
    module: GateModule,
    function: u32,
    params: &mut [u8],
    results: &mut [u8],
) -> ModuleStatus
    ensures answer { TellsTypes «module».value.accepted.value function
        params.old params.new results.old results.new result.status }
    ensures handle { result.at ≡ «module».at }
    ensures alive { result.value ≡ «module».value }
{
    let held = module.loose();
    let status = tell_types(&held.as_ref().accepted, function, params, results);
    ModuleStatus::of(status, held)
}

/// Makes an instance within these limits, and gives it back: it runs nothing. 0: `ended` says whether there is one, and if not, why;
/// 64: a limit is out of its range.
#[unsafe(no_mangle)]
pub extern "C" fn gate_module_starts(
    alloc: Global,
    module: GateModule,
    settings: &GateSettings,
    ended: &mut GateCall,
) -> ModuleStatus
    ensures answer { AnswersStart settings.now «module».value.accepted.value ended.old ended.new result.status }
    ensures handle { result.at ≡ «module».at }
    ensures alive { result.value ≡ «module».value }
{
    let held = module.loose();
    let status = match settings.settings() {
        Some(limits) => {
            *ended = GateCall::of(&start_line(alloc, &held.as_ref().accepted, limits));
            OK
        }
        None => BAD_ARGUMENT,
    };
    ModuleStatus::of(status, held)
}
