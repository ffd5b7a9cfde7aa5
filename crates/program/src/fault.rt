//! Why the program gives no answer.
ghost use Rattle.std.specs.Prelude.{◌≡◌};
ghost use Rattle.program.specs.Endings.{fault_status};

use crate::file_lines::ShownName;
use crate::source::Reason;
use command::WordsFault;
use std::io::Write;
use thiserror::Error;

/// Why no answer is given, or not the whole of it. Its text is what standard error is told.
#[derive(Debug, Drop, Error)]
pub enum ProgramFault<'a> {
    /// The words are no command, or a number lies outside its range. The text says which.
    #[error("{0}")]
    Usage(String),
    /// No file of this path can be read, for this reason.
    #[error("gate: cannot read {name}: {reason}\n", name = ShownName(.path))]
    Unread { path: &'a str, reason: Reason },
    /// Of many files some cannot be read; the line of each says so.
    #[error("gate: cannot read some files\n")]
    SomeUnread,
    /// The names of files are no text.
    #[error("gate: the names are not UTF-8\n")]
    Names,
    /// A write to standard output failed, or took no byte.
    #[error("gate: write failed\n")]
    Write,
    /// A growth of memory was refused.
    #[error("gate: no memory\n")]
    Memory,
}

impl From<WordsFault> for ProgramFault<'_> {
    ghost use Rattle.program.specs.Endings.{fault_of};

    ghost from_gives = { λ w f. f ≡ fault_of w };

    fn from(fault: WordsFault) -> Self {
        match fault {
            WordsFault::Usage(text) => ProgramFault::Usage(text),
            WordsFault::Memory => ProgramFault::Memory,
        }
    }
}

impl ProgramFault<'_> {
    /// The status of the program.
    pub fn status(&self) -> u8
        ensures { result ≡ fault_status self.now }
    {
        match self {
            ProgramFault::Usage(_) | ProgramFault::Names => 64,
            ProgramFault::Unread { .. } | ProgramFault::SomeUnread | ProgramFault::Write => 74,
            ProgramFault::Memory => 70,
        }
    }
}

/// Tells the fault, as far as the writer takes it, and answers the status.
pub fn end<E: Write>(fault: &ProgramFault<'_>, err: &mut E) -> u8
    ensures { result ≡ fault_status fault.now }
{
    let _ = write!(err, "{fault}");
    fault.status()
}
