//! What holds of answers.

ghost use Rattle.std.specs.Prelude.{ℕ, ◌<◌, List, get_or};
ghost use Rattle.wsyntax.specs.Texts.Answer.{Limits};
ghost use Rattle.batch.specs.Laws.{OneAnswer};
ghost use Rattle.batch.specs.Safe.{IsSafe};

use soundness::instances::{calls_are_safe, calls_typed, start_is_plain};
use soundness::{execution, texts};
use verdict::{one_verdict, segments_hold_bytes};
use wdecode::{bodies_are_determined, modules_are_determined, shells_are_determined};

/// The law that the same bytes, text and limits have one answer, where the same calls ran out of memory.
pub fn one_answer()
    ensures { OneAnswer }
{
    texts::one_answer();
    one_verdict();
    modules_are_determined();
}

/// The law that answers are safe: no call is ever stuck, and the values of a call are of the declared types.
pub fn answers_are_safe()
    ensures { (bytes text : List ℕ) (l : Limits) → ((k : ℕ) → get_or bytes k 0 < 256) → IsSafe bytes text l }
{
    bodies_are_determined();
    shells_are_determined();
    segments_hold_bytes();
    start_is_plain();
    calls_typed();
    calls_are_safe();
    execution::never_stuck();
}
