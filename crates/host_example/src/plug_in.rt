//! One call of a plug-in.

use memory::CleanMem;
use std::alloc::Global;
use thiserror::Error;
use verdict::Accepted;
use wmachine::{Outcome, fits, start_and_invoke};
use wstore::{NotStarted, Settings, StartFault, instantiate};
use wsyntax::{ExportKind, Value};

/// Why a call was not made, or not to its end.
#[derive(Clone, Copy, Debug, PartialEq, Eq, Drop, Error)]
pub enum CallFault {
    #[error("no function has this name")]
    NoFunction,
    #[error("the arguments are not of the function's parameter types")]
    BadArguments,
    #[error("no instance: {0}")]
    NotStarted(StartFault),
    #[error("no memory")]
    Memory,
}

/// Calls an export on a fresh instance, after the module's start function. Where that does not end in values, its end is that
/// of the call. What the call does to its memory nobody sees afterwards.
pub fn call(
    alloc: Global,
    accepted: &Accepted<'_>,
    name: &[u8],
    args: &[Value],
    settings: Settings,
) -> Result<Outcome, CallFault> {
    let Some((ExportKind::Function, function)) = accepted.export(name) else {
        return Err(CallFault::NoFunction);
    };
    if !fits(accepted, function, args) {
        return Err(CallFault::BadArguments);
    }
    let mut instance = match instantiate(alloc, accepted, settings, CleanMem::empty(alloc)) {
        Ok(instance) => instance,
        Err(NotStarted { fault, clean: _ }) => return Err(CallFault::NotStarted(fault)),
    };
    match start_and_invoke(alloc, &mut instance, function, args, settings) {
        Ok(ended) => Ok(ended.outcome),
        Err(_) => Err(CallFault::Memory),
    }
}
