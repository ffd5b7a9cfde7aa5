//! What is done to an instance that C keeps.

ghost use Rattle.std.specs.Prelude.{◌≡◌};
ghost use Rattle.wstore.specs.Bytes.{size_in};
ghost use Rattle.c_api.specs.Instances.{memory_in, Stays, AnswersRead, AnswersWrite, AnswersGlobal, AnswersCallOn, AnswersReset};

use crate::beginning::begin;
use crate::calling::{ArgsFault, arguments, tell_end};
use crate::calling_on::call_found;
use crate::ending::GateCall;
use crate::live::{Live, attached};
use crate::settings::GateSettings;
use crate::status::{BAD_ARGUMENT, NO_GLOBAL, NO_INSTANCE, NO_MEMORY, OK, OUTSIDE};
use crate::value::GateValue;
use memory::CleanMem;
use std::alloc::Global;
use wsyntax::ExportKind;

impl Live {
    /// The number of bytes of its memory.
    pub(crate) fn memory_size(self) -> (Live, u64)
        ensures size { result.1 ≡ size_in (memory_in self) }
        ensures stays { Stays self result.0 }
    {
        let Live {
            accepted,
            settings,
            state,
        } = self;
        let Some(state) = state else {
            return (Live::of(accepted, settings, None), 0);
        };
        let instance = attached(&accepted, state);
        let size = instance.memory_size();
        let state = instance.detach();
        (Live::of(accepted, settings, Some(state)), size)
    }

    /// Copies bytes of its memory. 0: they are copied; 80: they do not lie in it.
    pub(crate) fn read(self, at: u64, out: &mut [u8]) -> (Live, u32)
        ensures answer { AnswersRead self at out.old out.new result.1 }
        ensures stays { Stays self result.0 }
    {
        let Live {
            accepted,
            settings,
            state,
        } = self;
        let Some(state) = state else {
            return (Live::of(accepted, settings, None), OUTSIDE);
        };
        let instance = attached(&accepted, state);
        let status = if instance.read_bytes(at, out) {
            OK
        } else {
            OUTSIDE
        };
        let state = instance.detach();
        (Live::of(accepted, settings, Some(state)), status)
    }

    /// Writes bytes to its memory. 0: they are written; 80: there is no room for them there, and nothing is done.
    pub(crate) fn write(self, at: u64, bytes: &[u8]) -> (Live, u32)
        ensures { AnswersWrite self at bytes.now result.0 result.1 }
    {
        let Live {
            accepted,
            settings,
            state,
        } = self;
        let Some(state) = state else {
            return (Live::of(accepted, settings, None), OUTSIDE);
        };
        let mut instance = attached(&accepted, state);
        let status = if instance.write_bytes(at, bytes) {
            OK
        } else {
            OUTSIDE
        };
        let state = instance.detach();
        (Live::of(accepted, settings, Some(state)), status)
    }

    /// Writes the value of an exported global. 0: it is written; 82: no global has this name.
    pub(crate) fn global(self, name: &[u8], value: &mut GateValue) -> (Live, u32)
        ensures answer { AnswersGlobal self name.now value.old value.new result.1 }
        ensures stays { Stays self result.0 }
    {
        let Live {
            accepted,
            settings,
            state,
        } = self;
        let Some(state) = state else {
            return (Live::of(accepted, settings, None), NO_GLOBAL);
        };
        let instance = attached(&accepted, state);
        let status = match instance.exported_global(name) {
            Some(found) => {
                *value = GateValue::of(found);
                OK
            }
            None => NO_GLOBAL,
        };
        let state = instance.detach();
        (Live::of(accepted, settings, Some(state)), status)
    }

    /// Calls what was found among the exports on it. As `gate_instance_call`.
    pub(crate) fn call(
        self,
        alloc: Global,
        found: Option<(ExportKind, u32)>,
        numbers: &[GateValue],
        limits: &GateSettings,
        results: &mut [GateValue],
        ended: &mut GateCall,
    ) -> (Live, u32)
        ensures { AnswersCallOn self found numbers.now limits.now results.old results.new ended.old ended.new result.0 result.1 }
    {
        let Live {
            accepted,
            settings,
            state,
        } = self;
        let Some(state) = state else {
            return (Live::of(accepted, settings, None), NO_INSTANCE);
        };
        let Some(limits) = limits.settings() else {
            return (Live::of(accepted, settings, Some(state)), BAD_ARGUMENT);
        };
        let args = match arguments(alloc, numbers) {
            Ok(args) => args,
            Err(ArgsFault::NoValue) => return (
                Live::of(accepted, settings, Some(state)),
                BAD_ARGUMENT,
            ),
            Err(ArgsFault::Memory) => return (Live::of(accepted, settings, Some(state)), NO_MEMORY),
        };
        let mut instance = attached(&accepted, state);
        let line = call_found(alloc, &mut instance, found, args.as_slice(), limits);
        tell_end(&line, results, ended);
        let state = instance.detach();
        (Live::of(accepted, settings, Some(state)), OK)
    }

    /// Ends its instance, and makes a new one in its memory. As `gate_instance_reset`.
    pub(crate) fn reset(self, alloc: Global, ended: &mut GateCall) -> (Live, u32)
        ensures { AnswersReset self ended.new result.0 result.1 }
    {
        let Live {
            accepted,
            settings,
            state,
        } = self;
        let clean = match state {
            Some(state) => attached(&accepted, state).close(),
            None => CleanMem::empty(alloc),
        };
        match begin(alloc, &accepted, settings, clean) {
            Ok((state, fuel)) => {
                *ended = GateCall::begun(fuel);
                (Live::of(accepted, settings, Some(state)), OK)
            }
            Err(line) => {
                *ended = GateCall::of(&line);
                (Live::of(accepted, settings, None), NO_INSTANCE)
            }
        }
    }
}
