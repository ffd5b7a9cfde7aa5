//! Why the words ask for nothing that can be done.
ghost use Rattle.command.specs.Mistakes.{IsToldBy};

use std::alloc::Global;
use thiserror::Error;

/// Why there is no request. Its text is what standard error is told.
#[derive(Debug, Drop, Error)]
pub enum WordsFault {
    /// The words are no command, or a number lies outside its range. The text says which.
    #[error("{0}")]
    Usage(String),
    /// A growth of memory was refused.
    #[error("gate: no memory\n")]
    Memory,
}

/// A mistake that is told by this text.
pub fn usage(alloc: Global, text: &str) -> WordsFault
    ensures { IsToldBy text.now result }
{
    match String::from_str(alloc, text) {
        Ok(text) => WordsFault::Usage(text),
        Err(_) => WordsFault::Memory,
    }
}
