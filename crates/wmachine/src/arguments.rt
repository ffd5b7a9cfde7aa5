ghost use Rattle.std.specs.Prelude.{◌≡◌, ◌↔◌, IsTrue};
ghost use Rattle.wsyntax.specs.Types.{same_type};
ghost use Rattle.wsyntax.specs.Modules.{module_shape};
ghost use Rattle.wsyntax.specs.Validation.ModuleContext.{module_context};
ghost use Rattle.wsyntax.specs.Execution.Values.{type_of, IsWord, AreWords};
ghost use Rattle.wmachine.specs.Calls.{HasParams};
ghost use Rattle.std.specs.List.{list_all, zip};
ghost use Rattle.wmachine.specs.Arguments.{is_of_type, are_of_types};

use accepted_module::Accepted;
use wsyntax::{ValType, Value};

/// Whether `value` is of type `of_type` (4.2.1).
fn has_type(value: &Value, of_type: &ValType) -> bool
    ensures { result ≡ same_type (type_of value.now) of_type.now }
{
    matches!(
        (value, of_type),
        (Value::I32(_), ValType::I32) | (Value::I64(_), ValType::I64)
    )
}

/// Whether each value is of the type beside it.
fn each_has_type(values: &[Value], of_types: &[ValType]) -> bool
    ensures { result ≡ list_all is_of_type (zip values.now of_types.now) }
{
    values
        .iter()
        .zip(of_types)
        .all(|(value, of_type)| has_type(value, of_type))
}

/// Whether the values are as many as the types, and each of the type beside it.
fn have_types(values: &[Value], of_types: &[ValType]) -> bool
    ensures { result ≡ are_of_types values.now of_types.now }
{
    values.len() == of_types.len() && each_has_type(values, of_types)
}

/// Whether there is a function of the index `function`, imported ones counted, and the arguments are of its parameter types, in
/// order.
pub fn fits(accepted: &Accepted<'_>, function: u32, args: &[Value]) -> bool
    ensures { IsTrue result ↔ HasParams (module_context (module_shape accepted.now.module)) function args.now }
{
    accepted.accepted_holds();
    match accepted.context().function(function) {
        Some(of_type) => have_types(args, of_type.params),
        None => false,
    }
}

/// The law that a value is a word of its type (4.2.1).
fn is_word(value: Value)
    ensures { IsWord value }
{}

/// The law that each of the values is a word of its type.
pub(crate) fn are_words(values: &[Value])
    ensures { AreWords values.now }
{
    for value in values {
        is_word(*value);
    }
}
