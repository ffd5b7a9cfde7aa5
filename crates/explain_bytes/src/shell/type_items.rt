//! Types (5.3), read past.
ghost use Rattle.std.specs.Prelude.{◌≡◌, ◌⊎◌};
ghost use Rattle.wsyntax.specs.Binary.Production.{times_at};
ghost use Rattle.wsyntax.specs.Binary.Values.{vector_at};
ghost use Rattle.wsyntax.specs.Binary.Types.{val_type, func_type, limits, table_type, global_type};
ghost use Rattle.wdecode.specs.Gives.{rest_of};
ghost use Rattle.explanation.specs.declared.shell_location.Wanted.TheVariants.{MemoryFlags, TableFlags};
ghost use Rattle.explain_bytes.specs.Shells.{Passes};

use crate::shell::primitives::{Stuck, number_at, wrong_byte};
use explanation::Wanted;

/// The bytes after a value type (5.3.1).
#[tactic(auto, unfolding(wsyntax::specs::Binary::Types::val_type))]
pub(crate) fn after_val_type<'a>(bytes: &'a [u8]) -> Result<&'a [u8], Stuck<'a>>
    ensures { Passes (rest_of (val_type.read bytes.now)) result }
{
    match bytes {
        [0x7F | 0x7E | 0x7D | 0x7C, rest @ ..] => Ok(rest),
        _ => Err(wrong_byte(bytes, Wanted::ValueType)),
    }
}

/// The bytes after `count` value types.
fn val_types_in<'a>(count: u32, bytes: &'a [u8]) -> Result<&'a [u8], Stuck<'a>>
    ensures { Passes (rest_of (times_at val_type.read count bytes.now)) result }
{
    let mut rest = bytes;
    for _ in 0..count {
        rest = after_val_type(rest)?;
    }
    Ok(rest)
}

/// The bytes after a vector of value types (5.3.2).
fn after_val_types<'a>(bytes: &'a [u8]) -> Result<&'a [u8], Stuck<'a>>
    ensures { Passes (rest_of (vector_at val_type.read bytes.now)) result }
{
    let (count, rest) = number_at(bytes, Wanted::Count)?;
    val_types_in(count, rest)
}

/// The bytes after a function type (5.3.3).
#[tactic(auto, unfolding(wsyntax::specs::Binary::Types::func_type))]
pub(crate) fn after_func_type<'a>(bytes: &'a [u8]) -> Result<&'a [u8], Stuck<'a>>
    ensures { Passes (rest_of (func_type.read bytes.now)) result }
{
    let [0x60, rest @ ..] = bytes else {
        return Err(wrong_byte(bytes, Wanted::TypeForm));
    };
    let rest = after_val_types(rest)?;
    after_val_types(rest)
}

/// The bytes after limits (5.3.4), whose flags are those.
#[tactic(auto, unfolding(wsyntax::specs::Binary::Types::limits))]
pub(crate) fn after_limits<'a>(bytes: &'a [u8], flags: Wanted) -> Result<&'a [u8], Stuck<'a>>
    requires { (flags ≡ MemoryFlags) ⊎ (flags ≡ TableFlags) }
    ensures { Passes (rest_of (limits.read bytes.now)) result }
{
    match bytes {
        [0, rest @ ..] => {
            let (_minimum, rest) = number_at(rest, Wanted::Minimum)?;
            Ok(rest)
        }
        [1, rest @ ..] => {
            let (_minimum, rest) = number_at(rest, Wanted::Minimum)?;
            let (_maximum, rest) = number_at(rest, Wanted::Maximum)?;
            Ok(rest)
        }
        _ => Err(wrong_byte(bytes, flags)),
    }
}

/// The bytes after a table type (5.3.6).
#[tactic(auto, unfolding(wsyntax::specs::Binary::Types::table_type))]
pub(crate) fn after_table_type<'a>(bytes: &'a [u8]) -> Result<&'a [u8], Stuck<'a>>
    ensures { Passes (rest_of (table_type.read bytes.now)) result }
{
    let [0x70, rest @ ..] = bytes else {
        return Err(wrong_byte(bytes, Wanted::ElementType));
    };
    after_limits(rest, Wanted::TableFlags)
}

/// The bytes after a global type (5.3.7).
#[tactic(auto, unfolding(wsyntax::specs::Binary::Types::global_type))]
pub(crate) fn after_global_type<'a>(bytes: &'a [u8]) -> Result<&'a [u8], Stuck<'a>>
    ensures { Passes (rest_of (global_type.read bytes.now)) result }
{
    let rest = after_val_type(bytes)?;
    match rest {
        [0 | 1, rest @ ..] => Ok(rest),
        _ => Err(wrong_byte(rest, Wanted::Mutability)),
    }
}
