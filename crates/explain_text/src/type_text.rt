//! Types as words.
ghost use Rattle.std.specs.Prelude.{◌≡◌, ◌++◌, OnOk, flat_map, string_bytes};
ghost use Rattle.explain_text.specs.Types.{lists_text, others_text, shown_text, type_word, types_text};

use std::alloc::AllocError;
use wsyntax::ValType;

/// How many types of a list are shown.
const SHOWN: usize = 16;

/// The name of a value type (6.4.1).
pub fn type_name(of_type: ValType) -> &'static str
    ensures { result.now ≡ type_word of_type }
{
    match of_type {
        ValType::I32 => "i32",
        ValType::I64 => "i64",
        ValType::F32 => "f32",
        ValType::F64 => "f64",
    }
}

/// Types, each with a blank before it.
fn push_others(text: &mut String, types: &[ValType]) -> Result<(), AllocError>
    ensures { OnOk result (string_bytes text.new ≡ string_bytes text.old ++ flat_map others_text types.now) }
{
    for of_type in types {
        text.push_str(" ")?;
        text.push_str(type_name(*of_type))?;
    }
    Ok(())
}

/// Types with blanks between them.
fn push_shown(text: &mut String, types: &[ValType]) -> Result<(), AllocError>
    ensures { OnOk result (string_bytes text.new ≡ string_bytes text.old ++ shown_text types.now) }
{
    match types {
        [] => Ok(()),
        [first, others @ ..] => {
            text.push_str(type_name(*first))?;
            push_others(text, others)
        }
    }
}

/// A list of types between brackets; two dots stand for those that are too many to be shown.
pub fn push_types(text: &mut String, types: &[ValType]) -> Result<(), AllocError>
    ensures { OnOk result (string_bytes text.new ≡ string_bytes text.old ++ types_text types.now) }
{
    text.push_str("[")?;
    if types.len() > SHOWN {
        push_shown(text, &types[..SHOWN])?;
        text.push_str(" ..]")
    } else {
        push_shown(text, types)?;
        text.push_str("]")
    }
}

/// The types of parameters and of results.
pub fn push_lists(
    text: &mut String,
    params: &[ValType],
    results: &[ValType],
) -> Result<(), AllocError>
    ensures { OnOk result (string_bytes text.new ≡ string_bytes text.old ++ lists_text params.now results.now) }
{
    push_types(text, params)?;
    text.push_str(" -> ")?;
    push_types(text, results)
}
