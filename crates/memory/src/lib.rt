//! The linear memory of a running module (Core 1.0, 4.2.8), and the clean memories that go from one call to the
//! next. It knows nothing of modules: its promises are the definitions of `wsyntax` for bytes.
//!
//! Proved: a `CleanMem` is zero, by its type. What `LinearMemory` reads, writes, takes from segments and grows by is the
//! definition's, and `close` gives back a clean memory of no fewer bytes. `Pool::lend` gives the first memory of the
//! pool's queue, and `give` keeps the memory. How many empty ones are put in where the pool is empty, and how many are
//! dropped where it is full, is exact for a pool of one ticket and open for more.
#![tactic(auto)]

mod bytes;
mod clean;
mod history;
mod linear_memory;
mod marks;
mod pool;
mod tuning;

pub use clean::CleanMem;
pub use history::{PoolEntry, PoolStep, TicketView};
pub use linear_memory::LinearMemory;
pub use pool::{Pool, Ticket};
