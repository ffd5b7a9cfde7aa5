//! What runs calls, each on an instance of its own.

ghost use Rattle.std.specs.Prelude.{ℕ, List, IfOk, IfErr};
ghost use Rattle.wsyntax.specs.Modules.{ModuleShape, BodyShape, module_shape};
ghost use Rattle.wsyntax.specs.declared.value.Value.{Value};
ghost use Rattle.wsyntax.specs.Texts.Answer.{Limits};
ghost use Rattle.wstore.specs.Faults.{IsFault};
ghost use Rattle.batch_text.specs.Calls.{call_of};
ghost use Rattle.batch.specs.Ends.{EndsAlone, GivesLine, IsCallee};

use batch_text::{Call, Line};
use memory::{CleanMem, Pool, Ticket};
use std::alloc::Global;
use std::sync::Wait;
use verdict::Accepted;
use wmachine::{Ended, fits, start_and_invoke};
use wstore::{NotStarted, Settings, StartFault, accepted_is_judged, instantiate};
use wsyntax::ExportKind;

/// The line of a call for which no instance was made.
fn refused_line(fault: StartFault) -> Line
    ensures { (m : ModuleShape) (bodies : List BodyShape) (l : Limits) (f : ℕ) (args : List Value) →
        IsFault l.pages m bodies fault → EndsAlone m bodies l f args result }
{
    match fault {
        StartFault::Refused(refusal) => Line::NotStarted(refusal),
        StartFault::Memory => Line::NoMemory,
    }
}

/// What calls are run with, each on an instance of its own.
#[derive(Drop)]
pub(crate) struct Runner<'a> {
    pub(crate) alloc: Global,
    pub(crate) accepted: &'a Accepted<'a>,
    pub(crate) settings: Settings,
}

impl<'a> Runner<'a> {
    ghost use Rattle.memory.specs.Pools.{IsTicketOf};

    /// The function that a call names, where its arguments fit; else how the call ends.
    pub(crate) fn callee(&self, call: &Call<'_>) -> Result<u32, Line>
        ensures named { IfOk result (IsCallee (module_shape self.now.accepted.now.module) (call_of call.now)) }
        ensures refused { IfErr result (GivesLine self.now.accepted.now self.now.settings call.now) }
    {
        accepted_is_judged(self.accepted);
        let Some((kind, function)) = self.accepted.export(call.name) else {
            return Err(Line::NoExport);
        };
        let ExportKind::Function = kind else {
            return Err(Line::NotAFunction);
        };
        if !fits(self.accepted, function, call.args.as_slice()) {
            return Err(Line::BadArguments);
        }
        Ok(function)
    }

    /// How a call ends, whose function is this one, on a fresh instance in the memory that is lent, and that memory, clean again.
    pub(crate) fn line(&self, call: &Call<'_>, function: u32, clean: CleanMem) -> (Line, CleanMem)
        requires { IsCallee (module_shape self.now.accepted.now.module) (call_of call.now) function }
        ensures { GivesLine self.now.accepted.now self.now.settings call.now result.0 }
    {
        accepted_is_judged(self.accepted);
        let args = call.args.as_slice();
        let mut instance = match instantiate(self.alloc, self.accepted, self.settings, clean) {
            Ok(instance) => instance,
            Err(NotStarted { fault, clean }) => return (refused_line(fault), clean),
        };
        let ended = start_and_invoke(self.alloc, &mut instance, function, args, self.settings);
        let line = match ended {
            Ok(Ended { outcome, fuel }) => Line::Ran { outcome, fuel },
            Err(_) => Line::NoMemory,
        };
        (line, instance.close())
    }

    /// A memory for calls, lent by the pool where the module has one.
    pub(crate) fn lend<R: Wait>(&self, rt: &R, pool: &Pool, ticket: &mut Ticket) -> CleanMem
        requires { IsTicketOf pool.now ticket.old }
        ensures { IsTicketOf pool.now ticket.new }
    {
        if self.accepted.module().memories.is_empty() {
            return CleanMem::empty(self.alloc);
        }
        pool.lend(rt, ticket)
    }

    /// Gives back what was lent.
    pub(crate) fn give_back<R: Wait>(
        &self,
        rt: &R,
        pool: &Pool,
        ticket: &mut Ticket,
        clean: CleanMem,
    )
        requires { IsTicketOf pool.now ticket.old }
        ensures { IsTicketOf pool.now ticket.new }
    {
        if !self.accepted.module().memories.is_empty() {
            pool.give(rt, ticket, clean);
        }
    }
}

/// How one call ends, on a fresh instance in the memory that is given, and that memory, clean again: the next call may have it.
/// It needs no threads, and waits for nothing.
pub fn call_alone(
    alloc: Global,
    accepted: &Accepted<'_>,
    call: &Call<'_>,
    settings: Settings,
    clean: CleanMem,
) -> (Line, CleanMem)
    ensures { GivesLine accepted.now settings call.now result.0 }
{
    let runner = Runner {
        alloc,
        accepted,
        settings,
    };
    match runner.callee(call) {
        Ok(function) => runner.line(call, function, clean),
        Err(line) => (line, clean),
    }
}
