//! Values as words without tags: an i32 stands in the low half of its word.

ghost use Rattle.std.specs.Prelude.{◌≡◌};
ghost use Rattle.wsyntax.specs.Execution.ConfigTyped.{IsInteger};
ghost use Rattle.soundness.specs.Slots.{tagged};

use wnum::conversions::wrap;
use wsyntax::{ValType, Value};

/// The value of an integer type that stands in a word. A float type is never met.
pub(crate) fn value_in(of_type: ValType, word: u64) -> Value
    ensures { IsInteger of_type → result ≡ tagged of_type word }
{
    match of_type {
        ValType::I32 | ValType::F32 => Value::I32(wrap(word)),
        ValType::I64 | ValType::F64 => Value::I64(word),
    }
}
