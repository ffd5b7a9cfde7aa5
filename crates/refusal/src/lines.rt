//! The verdict line of a module with a body that is refused.
ghost use Rattle.std.specs.Prelude.{◌≡◌, IfOk, string_bytes};
ghost use Rattle.wsyntax.specs.Validation.Verdict.{BodyRefused};
ghost use Rattle.wsyntax.specs.Texts.Lines.{verdict_line};
ghost use Rattle.refusal.specs.Refusals.{fault_of};

use crate::refusal::BodyRefusal;
use std::alloc::{AllocError, Global};

/// The line of a body that is refused.
pub fn body_line(alloc: Global, func: u32, refusal: BodyRefusal) -> Result<String, AllocError>
    ensures { IfOk result (λ line. string_bytes line ≡ verdict_line (BodyRefused func (fault_of refusal))) }
{
    match refusal {
        BodyRefusal::Malformed => format!(in alloc; "refused body {func} malformed\n"),
        BodyRefusal::TooManyLocals => format!(in alloc; "refused body {func} too-many-locals\n"),
        BodyRefusal::IllTyped { at } => format!(in alloc;
            "refused body {func} ill-typed at {at}\n"
        ),
    }
}
