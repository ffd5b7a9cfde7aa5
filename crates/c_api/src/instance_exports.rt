//! What C calls on instances.

ghost use Rattle.std.specs.Prelude.{◌≡◌, ℕ, Option};
ghost use Rattle.wsyntax.specs.declared.module.ExportKind.{ExportKind};
ghost use Rattle.wstore.specs.Bytes.{size_in};
ghost use Rattle.c_api.specs.CallsOn.{IsNamed, FindsNumber, export_at};
ghost use Rattle.c_api.specs.Instances.{memory_in, Stays, AnswersRead, AnswersWrite, AnswersGlobal, AnswersCallOn, AnswersReset};
ghost use Rattle.c_api.specs.Made.{MakesInstance};

use crate::beginning::begin;
use crate::calling_on::number_of;
use crate::ending::GateCall;
use crate::held::Held;
use crate::instance::{GateInstance, InstanceSlot, InstanceStatus};
use crate::live::Live;
use crate::loose::Loose;
use crate::module::{GateModule, ModuleStatus};
use crate::sending::sendable;
use crate::settings::GateSettings;
use crate::status::{BAD_ARGUMENT, NO_INSTANCE, NO_MEMORY, NOTHING, OK};
use crate::value::GateValue;
use memory::CleanMem;
use std::alloc::Global;
use std::sync::Arc;

/// Makes an instance of a module, and runs the start function. 0: `instance` is written; 81: there is none; either way `ended` is
/// written. 64: a limit is out of its range; 70: nothing is written.
#[unsafe(no_mangle)]
pub extern "C" fn gate_instance_new(
    alloc: Global,
    module: GateModule,
    settings: &GateSettings,
    instance: &mut InstanceSlot,
    ended: &mut GateCall,
) -> ModuleStatus
    ensures answer { MakesInstance «module».value.accepted.value settings.now instance.old instance.new ended.old ended.new result.status }
    ensures handle { result.at ≡ «module».at }
    ensures alive { result.value ≡ «module».value }
{
    let held = module.loose();
    let status = make(alloc, held.as_ref(), settings, instance, ended);
    ModuleStatus::of(status, held)
}

/// Makes an instance of what the handle holds. As `gate_instance_new`.
fn make(
    alloc: Global,
    held: &Held,
    settings: &GateSettings,
    instance: &mut InstanceSlot,
    ended: &mut GateCall,
) -> u32
    ensures { MakesInstance held.now.accepted.value settings.now instance.old instance.new ended.old ended.new result }
{
    let Some(limits) = settings.settings() else {
        return BAD_ARGUMENT;
    };
    let Ok(accepted) = Arc::try_clone(&held.accepted) else {
        return NO_MEMORY;
    };
    let (state, fuel) = match begin(alloc, &accepted, limits, CleanMem::empty(alloc)) {
        Ok(begun) => begun,
        Err(line) => {
            *ended = GateCall::of(&line);
            return NO_INSTANCE;
        }
    };
    let Ok(live) = Box::new(alloc, sendable(Live::of(accepted, limits, Some(state)))) else {
        return NO_MEMORY;
    };
    *ended = GateCall::begun(fuel);
    *instance = InstanceSlot::tied(Loose::of(live));
    OK
}

/// Calls an export on an instance, which goes on with the store that this leaves. 0: `ended` says how it ended, and as many results
/// are written as there is room for; 64: a limit is out of its range, or an argument is no value; 70 and 81: nothing is written.
#[unsafe(no_mangle)]
pub extern "C" fn gate_instance_call(
    alloc: Global,
    instance: GateInstance,
    name: &[u8],
    args: &[GateValue],
    settings: &GateSettings,
    results: &mut [GateValue],
    ended: &mut GateCall,
) -> InstanceStatus
    ensures answer { (found : Option (ExportKind × ℕ)) × IsNamed instance.value.accepted.value name.now found
        × AnswersCallOn instance.value found args.now settings.now results.old results.new ended.old ended.new result.value result.status }
    ensures handle { result.at ≡ instance.at }
{
    let (live, room) = instance.loose().take();
    let found = live.accepted.export(name);
    let (live, status) = live.call(alloc, found, args, settings, results, ended);
    InstanceStatus::of(status, Loose::fill(room, live))
}

/// Writes the number of the export of a name. 0: it is written; 4: nothing is exported under it.
#[unsafe(no_mangle)]
pub extern "C" fn gate_instance_find(
    instance: GateInstance,
    name: &[u8],
    number: &mut u64,
) -> InstanceStatus
    ensures answer { FindsNumber instance.value.accepted.value name.now number.old number.new result.status }
    ensures handle { result.at ≡ instance.at }
    ensures stays { result.value ≡ instance.value }
{
    let live = instance.loose();
    let status = match number_of(&live.as_ref().accepted, name) {
        Some(found) => {
            *number = found;
            OK
        }
        None => NOTHING,
    };
    InstanceStatus::of(status, live)
}

/// Calls the export of that number on an instance. Else as `gate_instance_call`.
#[unsafe(no_mangle)]
pub extern "C" fn gate_instance_call_at(
    alloc: Global,
    instance: GateInstance,
    number: u64,
    args: &[GateValue],
    settings: &GateSettings,
    results: &mut [GateValue],
    ended: &mut GateCall,
) -> InstanceStatus
    ensures answer { AnswersCallOn instance.value (export_at instance.value.accepted.value number) args.now settings.now
        results.old results.new ended.old ended.new result.value result.status }
    ensures handle { result.at ≡ instance.at }
{
    let (live, room) = instance.loose().take();
    let found = match live.accepted.module().exports.get(number as usize) {
        Some(export) => Some((export.kind, export.index)),
        None => None,
    };
    let (live, status) = live.call(alloc, found, args, settings, results, ended);
    InstanceStatus::of(status, Loose::fill(room, live))
}

/// Writes the number of bytes of an instance's memory, 0 where it has none. It answers 0.
#[unsafe(no_mangle)]
pub extern "C" fn gate_instance_memory_size(
    instance: GateInstance,
    size: &mut u64,
) -> InstanceStatus
    ensures size { size.new ≡ size_in (memory_in instance.value) }
    ensures status { result.status ≡ 0 }
    ensures handle { result.at ≡ instance.at }
    ensures stays { Stays instance.value result.value }
{
    let (live, room) = instance.loose().take();
    let (live, bytes) = live.memory_size();
    *size = bytes;
    InstanceStatus::of(OK, Loose::fill(room, live))
}

/// Copies bytes of an instance's memory. 0: they are copied; 80: they do not lie in it, and nothing is written.
#[unsafe(no_mangle)]
pub extern "C" fn gate_instance_read(
    instance: GateInstance,
    at: u64,
    out: &mut [u8],
) -> InstanceStatus
    ensures answer { AnswersRead instance.value at out.old out.new result.status }
    ensures handle { result.at ≡ instance.at }
    ensures stays { Stays instance.value result.value }
{
    let (live, room) = instance.loose().take();
    let (live, status) = live.read(at, out);
    InstanceStatus::of(status, Loose::fill(room, live))
}

/// Writes bytes to an instance's memory. 0: they are written; 80: there is no room for them there, and nothing is done.
#[unsafe(no_mangle)]
pub extern "C" fn gate_instance_write(
    instance: GateInstance,
    at: u64,
    bytes: &[u8],
) -> InstanceStatus
    ensures answer { AnswersWrite instance.value at bytes.now result.value result.status }
    ensures handle { result.at ≡ instance.at }
{
    let (live, room) = instance.loose().take();
    let (live, status) = live.write(at, bytes);
    InstanceStatus::of(status, Loose::fill(room, live))
}

/// Writes the value of an exported global. 0: it is written; 82: no global has this name, and nothing is written.
#[unsafe(no_mangle)]
pub extern "C" fn gate_instance_global(
    instance: GateInstance,
    name: &[u8],
    value: &mut GateValue,
) -> InstanceStatus
    ensures answer { AnswersGlobal instance.value name.now value.old value.new result.status }
    ensures handle { result.at ≡ instance.at }
    ensures stays { Stays instance.value result.value }
{
    let (live, room) = instance.loose().take();
    let (live, status) = live.global(name, value);
    InstanceStatus::of(status, Loose::fill(room, live))
}

/// Ends the instance, and makes a new one of its module in its memory, under the limits that it was made with. 0: there is one; 81: there
/// is none; either way `ended` is written.
#[unsafe(no_mangle)]
pub extern "C" fn gate_instance_reset(
    alloc: Global,
    instance: GateInstance,
    ended: &mut GateCall,
) -> InstanceStatus
    ensures answer { AnswersReset instance.value ended.new result.value result.status }
    ensures handle { result.at ≡ instance.at }
{
    let (live, room) = instance.loose().take();
    let (live, status) = live.reset(alloc, ended);
    InstanceStatus::of(status, Loose::fill(room, live))
}

/// Frees an instance.
#[unsafe(no_mangle)]
pub extern "C" fn gate_instance_free(instance: GateInstance) {
    drop(instance.loose().into_box());
}
