//! The head of a module: what stands before its data segments, and what is asked of that before its bodies can be judged.
ghost use Rattle.std.specs.Prelude.{◌≡◌, ◌+◌, ◌<◌, ◌^◌, MatchResult, IfSome, length};
ghost use Rattle.wsyntax.specs.Modules.{module_shape};
ghost use Rattle.wsyntax.specs.Validation.ModuleContext.{indexed_context};
ghost use Rattle.wsyntax.specs.Validation.Verdict.{IsVerdict};
ghost use Rattle.verdict.specs.Heads.{UniqueWhole, IsHead, IsEarlyRefusal};
ghost use Rattle.refusal.specs.Refusals.{verdict_of};

use refusal::Refusal;
use soundness::validation::{accepted_is_typed, refused_at_first_fault};
use std::alloc::Global;
use wcontext::{Context, ModuleFault, SpaceSizes, check_rules_before_code};
use wdecode::{Fault, ModuleHead, decode_front, grammar_is_read, shells_are_determined};

/// The head of a module that keeps the early rules.
#[derive(Drop)]
pub(crate) struct Head<'a> {
    /// All bytes of the module.
    pub(crate) bytes: &'a [u8],
    pub(crate) front: ModuleHead<'a>,
    /// What its bodies are judged under.
    pub(crate) context: Context,
    /// What its late rules look up.
    pub(crate) counts: SpaceSizes,
    ghost one: { UniqueWhole front },
    ghost indexed: { context ≡ indexed_context (module_shape front.module) },
    ghost each_has_type: { context.imported + length (module_shape front.module).bodies ≡ length context.context.functions },
    ghost few: { context.imported + length (module_shape front.module).bodies < 2 ^ 31 },
}

/// The refusal of a module that breaks an early rule. That its bytes spell no module goes before.
fn refused_early(alloc: Global, front: ModuleHead<'_>, fault: ModuleFault) -> Refusal
    ensures { IsEarlyRefusal front.entry fault result }
{
    match front.whole(alloc) {
        Ok(_) => fault.into(),
        Err(Fault::Malformed) => Refusal::Malformed,
        Err(Fault::Memory) => Refusal::Memory,
    }
}

impl<'a> Head<'a> {
    /// The head of the module of these bytes.
    pub(crate) fn of(alloc: Global, bytes: &'a [u8]) -> Result<Head<'a>, Refusal>
        ensures { MatchResult result
            (λ h. (h.bytes.now ≡ bytes.now) × IsHead h.bytes.now h.front h.counts)
            (λ r. IfSome (verdict_of r) (IsVerdict bytes.now)) }
    {
        grammar_is_read();
        accepted_is_typed();
        refused_at_first_fault();
        shells_are_determined();
        let front = decode_front(alloc, bytes)?;
        let (context, counts) = match check_rules_before_code(alloc, &front.module) {
            Ok(both) => both,
            Err(fault) => return Err(refused_early(alloc, front, fault)),
        };
        // A function takes a byte at least. So fewer bytes spell no module.
        if context.function_count() > bytes.len() {
            return Err(Refusal::Malformed);
        }
        Ok(Head {
            bytes,
            front,
            context,
            counts,
        })
    }
}
