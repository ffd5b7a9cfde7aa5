//! A call, and the line that says it.
ghost use Rattle.std.specs.Prelude.{◌≡◌, IfOk, All, ◌≢◌, option_map};
ghost use Rattle.wsyntax.specs.Texts.Calls.{IsCall, call_text};
ghost use Rattle.batch_text.specs.Reading.{IsReading};
ghost use Rattle.batch_text.specs.Calls.{call_of};

use crate::args::Args;
use crate::split::split_before;
use crate::value::read_value;
use std::alloc::{AllocError, Global};

/// A call of an export: its name, whose bytes are those of the text, and its arguments.
#[derive(Drop)]
pub struct Call<'a> {
    pub name: &'a [u8],
    pub args: Args,
}

/// The call that a line without its newline says.
pub(crate) fn read_call(alloc: Global, line: &[u8]) -> Result<Option<Call<'_>>, AllocError>
    requires { All (λ b. b ≢ 0x0A) line.now }
    ensures { IfOk result (λ call. IsReading IsCall call_text line.now (option_map call_of call)) }
{
    let (name, mut rest) = split_before(line, b'\t');
    let mut args = Args::Empty;
    'fields: while !rest.is_empty() {
        let (field, after) = split_before(&rest[1..], b'\t');
        let Some(value) = read_value(field) else {
            return Ok(None);
        };
        args = args.followed_by(alloc, value)?;
        rest = after;
    }
    Ok(Some(Call { name, args }))
}
