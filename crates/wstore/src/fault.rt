//! Why there is no instance (4.5.4).
use memory::CleanMem;
use thiserror::Error;
use wsyntax::StartRefusal;

/// Why there is no instance.
#[derive(Clone, Copy, Debug, PartialEq, Eq, Error)]
pub enum StartFault {
    /// The module is refused.
    #[error("the module is refused")]
    Refused(StartRefusal),
    /// There was not enough memory.
    #[error("not enough memory")]
    Memory,
}

/// There is no instance: why, and the memory that was lent.
#[derive(Drop)]
pub struct NotStarted {
    pub fault: StartFault,
    pub clean: CleanMem,
}
