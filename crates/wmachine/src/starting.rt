//! The start function of a fresh instance, and a call after it.

ghost use Rattle.std.specs.Prelude.{◌≡◌, ◌≤◌, true, None, IsErr, IfOk, IfSome, OnOk, OnErr};
ghost use Rattle.wsyntax.specs.Outcomes.{outcome_of};
ghost use Rattle.wsyntax.specs.Execution.Start.{fresh_store};
ghost use Rattle.interpreter.specs.Buffers.{room_with};
ghost use Rattle.wstore.specs.CallLimits.{limits_of};
ghost use Rattle.wstore.specs.Views.{module_in, bodies_in, context_in, store_in};
ghost use Rattle.wmachine.specs.Calls.{HasParams, GivesTyped, MayWant};
ghost use Rattle.wmachine.specs.Starts.{StartEndsOnEach, StartsOnEach, EndsOnEach, HasNoValues};

use crate::fuel::Fuel;
use crate::invoking::invoke;
use std::alloc::{AllocError, Global};
use wstore::{Instance, Settings};
use wsyntax::{Outcome, Value};

/// How a call ended, after the start function.
#[derive(Drop, PartialEq, Eq)]
pub struct Ended {
    /// The end of the call, or that of the start function where this did not end in values.
    pub outcome: Outcome,
    /// The units that both spent.
    pub fuel: u32,
}

/// How the start function ended.
#[derive(Drop, PartialEq, Eq)]
pub struct Begun {
    /// Its end, where that is not in values. `None` where it is, or where there is no start function.
    pub end: Option<Outcome>,
    /// The units that it spent.
    pub fuel: u32,
}

/// Runs the start function, where there is one. How it ended, where that is not in values.
fn run_start(
    alloc: Global,
    instance: &mut Instance<'_>,
    fuel: &mut Fuel,
    settings: Settings,
) -> Result<Option<Outcome>, AllocError>
    requires fresh { store_in instance.old ≡ fresh_store settings.pages (module_in instance.old) }
    requires whole { fuel.old.left ≡ settings.fuel }
    ensures ends { IfOk result
        (StartEndsOnEach (module_in instance.old) (bodies_in instance.old) (limits_of settings) (store_in instance.new) fuel.new.left) }
    ensures other { IfOk result (λ end. IfSome end (λ o. HasNoValues (outcome_of o))) }
    ensures limit { fuel.new.limit ≡ fuel.old.limit }
    ensures room { room_with instance.old.parts.memory instance.old.lent ≤ room_with instance.new.parts.memory instance.new.lent }
    ensures of { instance.new.accepted.now ≡ instance.old.accepted.now }
    ensures failed { instance.old.failed ≡ true → IfOk result (λ end. ((module_in instance.old).start ≡ None) × (end ≡ None)) }
    ensures fails { OnErr result (instance.new.failed ≡ true) }
    ensures needed { OnErr result (MayWant instance.old settings.fuel settings.frames) }
    ensures kept { OnOk result (instance.new.failed ≡ instance.old.failed) }
{
    let accepted = instance.accepted();
    accepted.start_is_plain();
    let Some(start) = accepted.module().start else {
        return Ok(None);
    };
    match invoke(alloc, instance, start, &[], fuel, settings.frames())? {
        Outcome::Values(_) => Ok(None),
        outcome => Ok(Some(outcome)),
    }
}

/// Runs the start function of a fresh instance (4.5.4), where its module names one: what `start_and_invoke` does first. A host that
/// keeps the instance calls `invoke` after it. Where the start function does not end in values, the standard has no instance. An
/// error says that memory was refused; then the instance has failed. A failed instance gives an error at once, where there is a
/// start function.
pub fn start(
    alloc: Global,
    instance: &mut Instance<'_>,
    settings: Settings,
) -> Result<Begun, AllocError>
    requires { store_in instance.old ≡ fresh_store settings.pages (module_in instance.old) }
    ensures ends { IfOk result (λ b. StartsOnEach (module_in instance.old) (bodies_in instance.old) (limits_of settings)
        (store_in instance.new) b.fuel b.end) }
    ensures other { IfOk result (λ b. IfSome b.end (λ o. HasNoValues (outcome_of o))) }
    ensures room { room_with instance.old.parts.memory instance.old.lent ≤ room_with instance.new.parts.memory instance.new.lent }
    ensures of { instance.new.accepted.now ≡ instance.old.accepted.now }
    ensures failed { instance.old.failed ≡ true → OnOk result ((module_in instance.old).start ≡ None) }
    ensures fails { OnErr result (instance.new.failed ≡ true) }
    ensures needed { OnErr result (MayWant instance.old settings.fuel settings.frames) }
    ensures kept { OnOk result (instance.new.failed ≡ instance.old.failed) }
{
    settings.in_range();
    let Some(mut fuel) = Fuel::new(settings.fuel()) else {
        unreachable!()
    };
    let end = run_start(alloc, instance, &mut fuel, settings)?;
    Ok(Begun {
        end,
        fuel: fuel.spent(),
    })
}

/// Runs the start function of a fresh instance (4.5.4), where its module names one, and then calls `function` (4.5.5) with the
/// arguments `args`. Both take their fuel from the same units. Where the start function does not end in values, the call ends
/// as it did. An error says that memory was refused; then the instance has failed. A failed instance gives an error at once.
pub fn start_and_invoke(
    alloc: Global,
    instance: &mut Instance<'_>,
    function: u32,
    args: &[Value],
    settings: Settings,
) -> Result<Ended, AllocError>
    requires fresh { store_in instance.old ≡ fresh_store settings.pages (module_in instance.old) }
    requires fits { HasParams (context_in instance.old) function args.now }
    ensures ends { IfOk result (λ e. EndsOnEach (module_in instance.old) (bodies_in instance.old) (limits_of settings)
        function args.now (outcome_of e.outcome) e.fuel) }
    ensures typed { IfOk result (λ e. GivesTyped (context_in instance.old) function (outcome_of e.outcome)) }
    ensures room { room_with instance.old.parts.memory instance.old.lent ≤ room_with instance.new.parts.memory instance.new.lent }
    ensures of { instance.new.accepted.now ≡ instance.old.accepted.now }
    ensures failed { instance.old.failed ≡ true → IsErr result }
    ensures fails { OnErr result (instance.new.failed ≡ true) }
    ensures needed { OnErr result (MayWant instance.old settings.fuel settings.frames) }
{
    settings.in_range();
    let Some(mut fuel) = Fuel::new(settings.fuel()) else {
        unreachable!()
    };
    if let Some(outcome) = run_start(alloc, instance, &mut fuel, settings)? {
        return Ok(Ended {
            outcome,
            fuel: fuel.spent(),
        });
    }
    let outcome = invoke(
        alloc,
        instance,
        function,
        args,
        &mut fuel,
        settings.frames(),
    )?;
    Ok(Ended {
        outcome,
        fuel: fuel.spent(),
    })
}
