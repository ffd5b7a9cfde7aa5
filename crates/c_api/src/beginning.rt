//! How an instance begins: it is made, and its start function runs.

ghost use Rattle.std.specs.Prelude.{IfOk, IfErr};
ghost use Rattle.wstore.specs.CallLimits.{limits_of};
ghost use Rattle.c_api.specs.Beginnings.{Begins, FailsToBegin, IsLineOf};

use batch_text::Line;
use memory::CleanMem;
use std::alloc::Global;
use verdict::Accepted;
use wmachine::{Begun, start};
use wstore::{Detached, Instance, NotStarted, Settings, StartFault, instantiate};

/// An instance of a module after its start function, and the fuel that this took; or the line that says why there is none. It is made in
/// the memory `clean`, which does not come back where there is none.
pub(crate) fn begin(
    alloc: Global,
    accepted: &Accepted<'_>,
    settings: Settings,
    clean: CleanMem,
) -> Result<(Detached, u32), Line>
    ensures begun { IfOk result (λ r. Begins accepted.now (limits_of settings) r.0 r.1) }
    ensures failed { IfErr result (FailsToBegin accepted.now (limits_of settings)) }
{
    let mut instance = match instantiate(alloc, &*accepted, settings, clean) {
        Ok(instance) => instance,
        Err(NotStarted { fault, clean: _ }) => return Err(refused_line(fault)),
    };
    let Ok(Begun { end, fuel }) = start(alloc, &mut instance, settings) else {
        return Err(Line::NoMemory);
    };
    match end {
        Some(outcome) => Err(Line::Ran { outcome, fuel }),
        None => Ok((instance.detach(), fuel)),
    }
}

/// The line that says why no instance was made.
pub(crate) fn refused_line(fault: StartFault) -> Line
    ensures { IsLineOf fault result }
{
    match fault {
        StartFault::Refused(refusal) => Line::NotStarted(refusal),
        StartFault::Memory => Line::NoMemory,
    }
}
