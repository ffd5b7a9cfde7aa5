ghost use Rattle.std.specs.Prelude.{◌≡◌};
ghost use Rattle.batch_text.specs.declared.fault.CallsFault.TheVariants.{Memory};

use std::alloc::{AllocError, AllocFailed};
use thiserror::Error;

/// Why a text of calls was not read.
#[derive(Clone, Copy, Debug, PartialEq, Eq, Error)]
pub enum CallsFault {
    /// More bytes than `wsyntax::CALLS_LIMIT`. This goes before all else.
    #[error("the calls are too large")]
    TooLarge,
    /// The least bad line, the first being 1: it says no call, has no newline at its end, or stands past `wsyntax::LINE_LIMIT`.
    #[error("line {0} of the calls is bad")]
    Line(u32),
    /// A growth of memory was refused.
    #[error("out of memory")]
    Memory,
}

impl From<AllocError> for CallsFault {
    ghost from_gives = { λ _ e. e ≡ Memory };

    fn from(_e: AllocError) -> CallsFault {
        CallsFault::Memory
    }
}

impl<T: Drop> From<AllocFailed<T>> for CallsFault {
    ghost from_gives = { λ _ e. e ≡ Memory };

    fn from(_e: AllocFailed<T>) -> CallsFault {
        CallsFault::Memory
    }
}
