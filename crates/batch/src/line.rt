//! The verdict line, made in memory.

ghost use Rattle.std.specs.Prelude.{◌≡◌, IfOk, IsSomeAnd, string_bytes};
ghost use Rattle.wsyntax.specs.Texts.Lines.{verdict_line as meant_line};
ghost use Rattle.batch.specs.Report.{given_verdict};

use refusal::body_line;
use std::alloc::{AllocError, Global};
use verdict::Refusal;

/// The line of the verdict that the judge gave, with its newline. Where it gave none, for it was out of memory, there is no
/// line either.
pub fn verdict_line(alloc: Global, judged: Result<(), Refusal>) -> Result<String, AllocError>
    ensures { IfOk result (λ line. IsSomeAnd (given_verdict judged) (λ v. string_bytes line ≡ meant_line v)) }
{
    match judged {
        Ok(()) => String::from_str(alloc, "accepted\n"),
        Err(Refusal::TooLarge) => String::from_str(alloc, "refused too-large\n"),
        Err(Refusal::Malformed) => String::from_str(alloc, "refused malformed\n"),
        Err(Refusal::Rule(rule)) => format!(in alloc; "refused rule {rule}\n"),
        Err(Refusal::Body { func, refusal }) => body_line(alloc, func, refusal),
        Err(Refusal::Memory) => Err(AllocError),
    }
}
