ghost use Rattle.wsyntax.specs.Execution.Values.{IsWord};
ghost use Rattle.wsyntax.specs.Texts.Words.{value_text};
ghost use Rattle.batch_text.specs.Reading.{IsReading};

use crate::number::{read_word32, read_word64};
use wsyntax::Value;

/// The value that the text prints: its type, a colon, and its word read with its sign.
pub(crate) fn read_value(field: &[u8]) -> Option<Value>
    ensures { IsReading IsWord value_text field.now result }
{
    match field.strip_prefix(b"i32:") {
        Some(number) => Some(Value::I32(read_word32(number)?)),
        None => Some(Value::I64(read_word64(field.strip_prefix(b"i64:")?)?)),
    }
}
