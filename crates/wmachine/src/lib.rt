//! Calls on an instance (Core 1.0, 4.5.4, 4.5.5): whether arguments fit, the fuel, and how a call ends, alone and after the start
//! function.
//!
//! Proved: `fits` is true exactly where the function exists and the arguments are of its types. `invoke` ends a call as the
//! reduction does, with the exact fuel and store, and is never stuck; whatever was done to the instance before, it begins with the
//! store that this left. `start` leaves the store of the start function. `start_and_invoke` ends as a line of the report says.
//! Out of memory comes only with fuel and a frame left, or on an instance that had failed.
#![tactic(auto)]

mod arguments;
mod fuel;
mod invoking;
mod starting;

pub use arguments::fits;
pub use fuel::Fuel;
pub use invoking::invoke;
pub use starting::{Begun, Ended, start, start_and_invoke};
pub use wsyntax::Outcome;
