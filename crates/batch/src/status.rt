use thiserror::Error;

/// What was written.
#[derive(Clone, Copy, PartialEq, Eq)]
pub enum Status {
    /// The module is accepted.
    Good,
    /// The module is refused.
    ModuleRefused,
    /// The calls are refused.
    CallsRefused,
}

/// Why an answer is not written whole.
#[derive(Clone, Copy, Debug, PartialEq, Eq, Error)]
pub enum AnswerFault {
    /// A growth of memory was refused; nothing is written.
    #[error("no memory")]
    Memory,
    /// A write failed, or took no byte; a beginning of the text is written.
    #[error("write failed")]
    Write,
}
