//! The outcome of a call (4.5.5): its results, whose types are those of its function, or why it gave none.

ghost use Rattle.std.specs.Prelude.{◌≡◌, ◌<◌, length, IfOk};
ghost use Rattle.interpreter.specs.Code.{AreResultsOf};
ghost use Rattle.interpreter.specs.Given.{IsTagged, AreTagged, IsEnd, IsItsEnd};

use crate::code::Code;
use std::alloc::{AllocError, Global};
use wnum::conversions::wrap;
use wsyntax::{Outcome, Trap, ValType, Value};

/// Why a run stops: it gave its results, which lie below this position, it trapped, or it reached a limit.
#[derive(Clone, Copy)]
pub(crate) enum Stop {
    Gave(usize),
    Trapped(Trap),
    OutOfFuel,
    OutOfFrames,
}

/// The value of type `of_type` in a slot. A float type is never met.
fn tagged(of_type: ValType, slot: u64) -> Value
    ensures { IsTagged of_type slot result }
{
    match of_type {
        ValType::I32 | ValType::F32 => Value::I32(wrap(slot)),
        ValType::I64 | ValType::F64 => Value::I64(slot),
    }
}

/// Room for results of the types `types`, with any values in it.
pub(crate) fn room_for(alloc: Global, types: &[ValType]) -> Result<Vec<Value>, AllocError>
    ensures { IfOk result (λ v. length v.items ≡ length types.now) }
{
    Vec::from_elem(alloc, Value::I32(0), types.len())
}

/// Writes into `given` the slots as values of the types `types`, in the same order. It takes no memory.
fn give(given: &mut [Value], types: &[ValType], slots: &[u64])
    requires types { length types.now ≡ length given.old }
    requires slots { length slots.now ≡ length given.old }
    ensures { AreTagged types.now slots.now given.new }
{
    for (position, of_type) in types.iter().enumerate() {
        given[position] = tagged(*of_type, slots[position]);
    }
}

/// The outcome of a run that stopped for `stop`. Its results have the types `types` and lie on top, the lowest first. They go
/// into `given`, so that no memory is taken.
pub(crate) fn outcome(
    stop: Stop,
    mut given: Vec<Value>,
    types: &[ValType],
    slots: &[u64],
) -> Outcome
    requires room { length given.items ≡ length types.now }
    requires ended { IsEnd stop slots.now types.now }
    ensures { IsItsEnd stop slots.now types.now result }
{
    match stop {
        Stop::Gave(sp) => {
            give(&mut given, types, &slots[sp - types.len()..sp]);
            Outcome::Values(given)
        }
        Stop::Trapped(trap) => Outcome::Trapped(trap),
        Stop::OutOfFuel => Outcome::OutOfFuel,
        Stop::OutOfFrames => Outcome::OutOfFrames,
    }
}

/// The result types of `function`.
pub(crate) fn result_types<'a>(code: &Code<'a>, function: u32) -> &'a [ValType]
    requires { function < length code.now.functions.now }
    ensures { AreResultsOf code.now function result.now }
{
    match code.types.get(code.functions[function as usize] as usize) {
        Some(of_type) => of_type.results,
        None => &[],
    }
}
