ghost use Rattle.std.specs.Prelude.{◌≡◌};
ghost use Rattle.batch.specs.declared.stream_fault.StreamFault.TheVariants.{Memory};

use std::alloc::{AllocError, AllocFailed};
use thiserror::Error;

/// Why a stream of calls is not answered to its end.
#[derive(Clone, Copy, Debug, PartialEq, Eq, Error)]
pub enum StreamFault {
    /// A read failed, or there was no end after 2^45 of them; whole lines are written, those of the calls so far.
    #[error("read failed")]
    Read,
    /// A write or a flush failed, or a write took no byte; a beginning of the text is written.
    #[error("write failed")]
    Write,
    /// A growth of memory was refused; whole lines are written, those of the calls so far.
    #[error("no memory")]
    Memory,
}

impl From<AllocError> for StreamFault {
    ghost from_gives = { λ _ e. e ≡ Memory };

    fn from(_e: AllocError) -> StreamFault {
        StreamFault::Memory
    }
}

impl<T: Drop> From<AllocFailed<T>> for StreamFault {
    ghost from_gives = { λ _ e. e ≡ Memory };

    fn from(_e: AllocFailed<T>) -> StreamFault {
        StreamFault::Memory
    }
}
