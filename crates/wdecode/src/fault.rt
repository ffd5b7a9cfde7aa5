//! Why bytes are not decoded.
ghost use Rattle.std.specs.Prelude.{◌≡◌};
ghost use Rattle.wdecode.specs.declared.fault.Fault.TheVariants.{Memory};

use std::alloc::{AllocError, AllocFailed};
use thiserror::Error;

/// Why the front of bytes was not read.
#[derive(Clone, Copy, Debug, PartialEq, Eq, Error)]
pub enum Fault {
    /// No front of the bytes is spelled so.
    #[error("malformed")]
    Malformed,
    #[error("out of memory")]
    Memory,
}

impl From<AllocError> for Fault {
    ghost from_gives = { λ _ e. e ≡ Memory };

    fn from(_e: AllocError) -> Fault {
        Fault::Memory
    }
}

impl<T: Drop> From<AllocFailed<T>> for Fault {
    ghost from_gives = { λ _ e. e ≡ Memory };

    fn from(_e: AllocFailed<T>) -> Fault {
        Fault::Memory
    }
}

/// Why a module was not decoded.
#[derive(Clone, Copy, Debug, PartialEq, Eq, Error)]
pub enum DecodeFault {
    /// More bytes than `wsyntax::MODULE_LIMIT`. This goes before all else.
    #[error("too large")]
    TooLarge,
    /// The bytes spell no module.
    #[error("malformed")]
    Malformed,
    #[error("out of memory")]
    Memory,
}

/// Why a body was not decoded.
#[derive(Clone, Copy, Debug, PartialEq, Eq, Error)]
pub enum BodyFault {
    /// The bytes spell no body.
    #[error("malformed")]
    Malformed,
    /// The bytes spell a body that declares more locals than `wsyntax::LOCAL_LIMIT`.
    #[error("too many locals")]
    TooManyLocals,
    #[error("out of memory")]
    Memory,
}
