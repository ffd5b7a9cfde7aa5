//! Instances of accepted modules (Core 1.0, 4.5.4): what refuses one, the fresh store that it begins with, and the clean
//! memory that is lent for it and comes back.
//!
//! Proved: `Settings::new` takes exactly the ranges. `instantiate` gives an instance with the definition's fresh store
//! exactly where nothing refuses its start, else the first refusal, with the memory as it was lent. The store of an
//! instance is typed, by its type. Its memory is read and written by bytes, and its exported globals are read, as the
//! definition says. `close` gives back a clean memory of no fewer bytes than were lent.
#![tactic(auto)]

mod bytes;
mod detached;
mod execution;
mod exported;
mod fault;
mod fresh;
mod instance;
mod instantiating;
mod judged;
mod memory_part;
mod settings;
mod store;
mod table_part;
mod word;

pub use detached::Detached;
pub use fault::{NotStarted, StartFault};
pub use instance::Instance;
pub use instantiating::instantiate;
pub use judged::accepted_is_judged;
pub use memory::{CleanMem, Pool, Ticket};
pub use settings::Settings;
