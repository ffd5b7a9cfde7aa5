//! What comes of one file of many.
ghost use Rattle.std.specs.Prelude.{◌≡◌, Some};
ghost use Rattle.wsyntax.specs.Validation.Verdict.{Verdict};
ghost use Rattle.batch.specs.Report.{given_verdict};
ghost use Rattle.program.specs.FileLines.{outcome_of, worse};

use verdict::Refusal;

/// What comes of a file, or of many.
#[derive(Clone, Copy, PartialEq, Eq)]
pub enum FileOutcome {
    /// The module is accepted, and so is each of many.
    Accepted,
    /// The module is refused, or one of many.
    Refused,
    /// The file cannot be read, or one of many.
    Unread,
}

impl FileOutcome {
    /// What comes of both: the one with the greater status.
    pub fn or(self, other: FileOutcome) -> FileOutcome
        ensures { result ≡ worse self other }
    {
        match (self, other) {
            (FileOutcome::Unread, _) | (_, FileOutcome::Unread) => FileOutcome::Unread,
            (FileOutcome::Refused, _) | (_, FileOutcome::Refused) => FileOutcome::Refused,
            _ => FileOutcome::Accepted,
        }
    }

    /// What comes of a module that is judged.
    pub fn of(judged: &Result<(), Refusal>) -> FileOutcome
        ensures { (v : Verdict) → given_verdict judged.now ≡ Some v → result ≡ outcome_of v }
    {
        match judged {
            Ok(()) => FileOutcome::Accepted,
            Err(_) => FileOutcome::Refused,
        }
    }
}
