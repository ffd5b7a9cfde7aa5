ghost use Rattle.std.specs.Prelude.{◌≡◌, ◌+◌, ◌<◌, None, MatchResult, length};
ghost use Rattle.verdict.specs.Judged.{IsBodyRefusal};
ghost use Rattle.verdict.specs.Heads.{EarlyRulesHold};
ghost use Rattle.verdict.specs.Parts.{bodies_of, body_refusal_in, parts_of};
ghost use Rattle.refusal.specs.Refusals.{AllowsRefusal};

use crate::body::judge_body;
use crate::grouping::positions_of;
use crate::head::Head;
use crate::passing::Scratch;
use crate::rest::judge_rest;
use pieces::{Job, JobFault, Stage, Watch};
use refusal::Refusal;
use std::alloc::Global;
use std::sync::Wait;

/// The parts of a module that can be judged side by side, of which nothing is kept. Part 0 is what is left of the module
/// once its head is known, since a refusal of that goes before one of a body; each later part is a group of consecutive
/// bodies. So the order of parts is that of judging.
#[derive(Drop)]
pub(crate) struct ModuleParts<'a, 'b, W> {
    pub(crate) alloc: Global,
    pub(crate) head: &'a Head<'b>,
    /// How many bodies a group has. The last group may have fewer.
    pub(crate) size: u32,
    pub(crate) watch: &'a W,
    ghost sized: { 0 < size },
}

/// Judges the body at that position.
pub(crate) fn judge_at(
    alloc: Global,
    head: &Head<'_>,
    scratch: &mut Scratch<'_, '_>,
    position: u32,
) -> Result<(), Refusal>
    requires position { position < length (bodies_of head.now) }
    requires outside { scratch.old.checker.outside ≡ head.now.context.context }
    ensures outside { scratch.new.checker.outside ≡ head.now.context.context }
    ensures verdict { MatchResult result
        (λ _. body_refusal_in head.now position ≡ None)
        (AllowsRefusal (IsBodyRefusal (head.now.context.imported + position) (body_refusal_in head.now position))) }
{
    let imported = head.context.imported_functions() as u32;
    let bodies = head.front.module.bodies.as_slice();
    judge_body(
        alloc,
        scratch,
        imported + position,
        bodies[position as usize],
    )
}

impl<'a, 'b, W> ModuleParts<'a, 'b, W> {
    /// How many parts there are.
    pub(crate) fn count(&self) -> u32
        ensures { result ≡ parts_of self.now.head.now self.now.size }
    {
        1 + (self.head.front.module.bodies.len() as u32).div_ceil(self.size)
    }
}

impl<'a, 'b, W: Watch> Job for ModuleParts<'a, 'b, W> {
    type Local = Scratch<'a, 'b>;

    type Out = ();

    type Fault = Refusal;

    ghost use Rattle.verdict.specs.Parts.{PartPasses, PartRefused, part_passes_or_refused, one_part};

    ghost limit = { λ j. parts_of j.head.now j.size };

    ghost belongs = { λ j s. (s.checker.outside ≡ j.head.now.context.context) × EarlyRulesHold j.head.now.front j.head.now.counts };

    ghost passes = { λ j i. PartPasses j.head.now j.size i };

    ghost gives = { λ j i out. Unit {0} };

    ghost refuses = { λ j i r. PartRefused j.head.now j.size i r };

    fn run<R: Wait>(
        &self,
        _rt: &R,
        scratch: &mut Scratch<'a, 'b>,
        index: u32,
    ) -> Result<(), JobFault<Refusal>> {
        if index == 0 {
            return Ok(judge_rest(self.alloc, self.head, &mut scratch.names)?);
        }
        let bodies = self.head.front.module.bodies.len() as u32;
        let (from, to) = positions_of(index - 1, self.size, bodies);
        for position in from..to {
            self.watch.note(Stage::Body, position);
            judge_at(self.alloc, self.head, scratch, position)?;
        }
        Ok(())
    }

    ghost never_both = { λ j i r. part_passes_or_refused j.head.now j.size i r };

    ghost one_fault = { λ j i r s. one_part j.head.now j.size i r s };
}
