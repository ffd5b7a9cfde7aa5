//! Limits (3.2).
ghost use Rattle.std.specs.Prelude.{◌↔◌, IsTrue};
ghost use Rattle.wsyntax.specs.Validation.Rules.{InOrder, WithinRange};

use wsyntax::{Limits, PAGE_RANGE};

/// Whether the minimum is at most the maximum, where there is one (3.2.1).
pub fn are_in_order(limits: Limits) -> bool
    ensures { IsTrue result ↔ InOrder limits }
{
    match limits.max {
        Some(most) => limits.min <= most,
        None => true,
    }
}

/// Whether the limits are within the range of memories (3.2.1, 3.2.4).
pub fn are_within_pages(limits: Limits) -> bool
    ensures { IsTrue result ↔ WithinRange PAGE_RANGE limits }
{
    let most = limits.max.unwrap_or(limits.min);
    limits.min <= PAGE_RANGE && most <= PAGE_RANGE && are_in_order(limits)
}
