//! Calls by values.

ghost use Rattle.std.specs.Prelude.{◌≡◌, true, IfOk, IfErr, IsErrOf, OnOk, map};
ghost use Rattle.wsyntax.specs.Execution.Values.{AreWords};
ghost use Rattle.batch_text.specs.Args.{args_of};
ghost use Rattle.c_api.specs.Values.{value_fields, AreNoArguments, overlay};
ghost use Rattle.c_api.specs.Ends.{end_fields, values_of};
ghost use Rattle.c_api.specs.Calls.{EndsCall, RefusesCall};
ghost use Rattle.c_api.specs.Runs.{in_range};

use crate::ending::GateCall;
use crate::settings::GateSettings;
use crate::status::{BAD_ARGUMENT, NO_MEMORY};
use crate::value::GateValue;
use batch::call_alone;
use batch_text::{Args, Call, Line, Outcome};
use memory::CleanMem;
use std::alloc::Global;
use verdict::Accepted;
use wsyntax::Value;

/// Why numbers are no arguments.
#[derive(Clone, Copy)]
pub(crate) enum ArgsFault {
    /// One of them is no value.
    NoValue,
    /// An allocation was refused.
    Memory,
}

/// The arguments that these are the numbers of.
pub(crate) fn arguments(alloc: Global, numbers: &[GateValue]) -> Result<Args, ArgsFault>
    ensures ok { IfOk result (λ args. map value_fields (args_of args) ≡ numbers.now) }
    ensures words { IfOk result (λ args. AreWords (args_of args)) }
    ensures no_value { IsErrOf result ArgsFault.NoValue → AreNoArguments numbers.now }
{
    let Ok(mut values) = Vec::with_capacity(alloc, numbers.len()) else {
        return Err(ArgsFault::Memory);
    };
    for number in numbers {
        let Some(value) = number.value() else {
            return Err(ArgsFault::NoValue);
        };
        if values.push(value).is_err() {
            return Err(ArgsFault::Memory);
        }
    }
    Ok(Args::More(values))
}

/// Writes the fields of values to the front of a buffer, as many as there is room for.
fn put_values(values: &[Value], results: &mut [GateValue])
    ensures { results.new ≡ overlay values.now results.old }
{
    for position in 0..values.len().min(results.len()) {
        results[position] = GateValue::of(values[position]);
    }
}

/// How a call ends, or the status that says why there is none.
pub(crate) fn end_of_call(
    alloc: Global,
    accepted: &Accepted<'_>,
    name: &[u8],
    numbers: &[GateValue],
    settings: &GateSettings,
) -> Result<Line, u32>
    ensures ends { IfOk result (EndsCall accepted.now name.now numbers.now settings.now) }
    ensures range { OnOk result (in_range settings.now ≡ true) }
    ensures status { IfErr result (RefusesCall settings.now numbers.now) }
{
    let Some(settings) = settings.settings() else {
        return Err(BAD_ARGUMENT);
    };
    let args = match arguments(alloc, numbers) {
        Ok(args) => args,
        Err(ArgsFault::NoValue) => return Err(BAD_ARGUMENT),
        Err(ArgsFault::Memory) => return Err(NO_MEMORY),
    };
    let call = Call { name, args };
    let (line, _clean) = call_alone(alloc, accepted, &call, settings, CleanMem::empty(alloc));
    Ok(line)
}

/// Writes how a call ended, and the values that there is room for.
pub(crate) fn tell_end(line: &Line, results: &mut [GateValue], ended: &mut GateCall)
    ensures ended { ended.new ≡ end_fields line.now }
    ensures results { results.new ≡ overlay (values_of line.now) results.old }
{
    *ended = GateCall::of(line);
    if let Line::Ran { outcome, .. } = line {
        if let Outcome::Values(values) = outcome {
            put_values(values, results);
        }
    }
}
