//! The first call of a text that its module does not fit, as a run asks before it makes an instance.
ghost use Rattle.std.specs.Prelude.{◌≡◌, IfOk};
ghost use Rattle.wsyntax.specs.Execution.Values.{type_of, types};

use accepted_module::Accepted;
use batch_text::Call;
use std::alloc::{AllocError, Global};
use wsyntax::{ExportKind, ValType, Value};

/// Why a call does not fit its module.
#[derive(Drop)]
pub enum Misfit {
    /// Nothing of its name is exported.
    NoExport,
    /// What is exported is of that kind, and no function.
    NoFunction(ExportKind),
    /// Its arguments have these types, and not those of the parameters of that function.
    Arguments { func: u32, passes: Vec<ValType> },
}

/// The first call that does not fit, by its position, and why.
#[derive(Drop)]
pub struct CallMisfit {
    pub position: usize,
    pub why: Misfit,
}

/// The type of a value (4.2.1).
fn type_of_value(value: Value) -> ValType
    ensures { result ≡ type_of value }
{
    match value {
        Value::I32(_) => ValType::I32,
        Value::I64(_) => ValType::I64,
    }
}

/// The types of values.
fn types_of_values(alloc: Global, values: &[Value]) -> Result<Vec<ValType>, AllocError>
    ensures { IfOk result (λ of_types. of_types.items ≡ types values.now) }
{
    values
        .iter()
        .map(|value| type_of_value(*value))
        .collect(alloc)
}

/// Why a call does not fit; `None` where it does.
fn misfit_of(
    alloc: Global,
    accepted: &Accepted<'_>,
    call: &Call<'_>,
) -> Result<Option<Misfit>, AllocError> {
    let Some((kind, func)) = accepted.export(call.name) else {
        return Ok(Some(Misfit::NoExport));
    };
    let ExportKind::Function = kind else {
        return Ok(Some(Misfit::NoFunction(kind)));
    };
    let passes = types_of_values(alloc, call.args.as_slice())?;
    match accepted.context().function(func) {
        Some(found) if passes.as_slice() == found.params => Ok(None),
        _ => Ok(Some(Misfit::Arguments { func, passes })),
    }
}

/// The first call that does not fit. That it is, no contract says.
pub fn first_misfit(
    alloc: Global,
    accepted: &Accepted<'_>,
    calls: &[Call<'_>],
) -> Result<Option<CallMisfit>, AllocError> {
    for (position, call) in calls.iter().enumerate() {
        if let Some(why) = misfit_of(alloc, accepted, call)? {
            return Ok(Some(CallMisfit { position, why }));
        }
    }
    Ok(None)
}
