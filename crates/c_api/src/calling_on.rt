//! Calls of exports on an instance that goes on.

ghost use Rattle.std.specs.Prelude.{◌≡◌, MatchOption};
ghost use Rattle.wsyntax.specs.Modules.{module_shape};
ghost use Rattle.wsyntax.specs.Texts.Answer.{IsMissing};
ghost use Rattle.wstore.specs.CallLimits.{limits_of};
ghost use Rattle.wstore.specs.Views.{store_in};
ghost use Rattle.c_api.specs.CallsOn.{EndsFound, HasNumber};

use batch_text::Line;
use std::alloc::Global;
use verdict::Accepted;
use wmachine::{Fuel, fits, invoke};
use wstore::{Instance, Settings};
use wsyntax::{ExportKind, Value};

/// The number of the export of that name, from 0, in the order of the module.
pub(crate) fn number_of(accepted: &Accepted<'_>, name: &[u8]) -> Option<u64>
    ensures { MatchOption result (IsMissing (module_shape accepted.now.module) name.now) (HasNumber accepted.now name.now) }
{
    let exports = &accepted.module().exports;
    for position in 0..exports.len() {
        if exports[position].name == name {
            return Some(position as u64);
        }
    }
    None
}

/// How the call of what was found among the exports ends on an instance, which goes on with the store that this leaves. Of the limits it
/// has the fuel, of its own, and the frames.
pub(crate) fn call_found(
    alloc: Global,
    instance: &mut Instance<'_>,
    found: Option<(ExportKind, u32)>,
    args: &[Value],
    settings: Settings,
) -> Line
    ensures ends { EndsFound instance.old.accepted.now (limits_of settings) found args.now
        (store_in instance.old) instance.old.failed result (store_in instance.new) instance.new.failed }
    ensures of { instance.new.accepted.now ≡ instance.old.accepted.now }
{
    let Some((kind, function)) = found else {
        return Line::NoExport;
    };
    let ExportKind::Function = kind else {
        return Line::NotAFunction;
    };
    if !fits(instance.accepted(), function, args) {
        return Line::BadArguments;
    }
    settings.in_range();
    let Some(mut fuel) = Fuel::new(settings.fuel()) else {
        unreachable!()
    };
    match invoke(
        alloc,
        instance,
        function,
        args,
        &mut fuel,
        settings.frames(),
    ) {
        Ok(outcome) => Line::Ran {
            outcome,
            fuel: fuel.spent(),
        },
        Err(_) => Line::NoMemory,
    }
}
