//! Whether a module would start.

ghost use Rattle.c_api.specs.Starts.{SaysStart};

use crate::beginning::refused_line;
use batch_text::{Line, Outcome};
use memory::CleanMem;
use std::alloc::Global;
use verdict::Accepted;
use wstore::{Settings, instantiate};

/// The line of a call that would run nothing: no values where there is an instance. The instance is made, and given back.
pub(crate) fn start_line(alloc: Global, accepted: &Accepted<'_>, settings: Settings) -> Line
    ensures { SaysStart settings.pages accepted.now result }
{
    match instantiate(alloc, accepted, settings, CleanMem::empty(alloc)) {
        Ok(_instance) => Line::Ran {
            outcome: Outcome::Values(Vec::new(alloc)),
            fuel: 0,
        },
        Err(refused) => refused_line(refused.fault),
    }
}
