//! What is asked of a module beside its bodies, once these can be judged.
ghost use Rattle.std.specs.Prelude.{MatchResult};
ghost use Rattle.verdict.specs.Heads.{EarlyRulesHold, RestPasses, RestRefused};
ghost use Rattle.refusal.specs.Refusals.{AllowsRefusal};

use crate::head::Head;
use refusal::Refusal;
use std::alloc::Global;
use wcontext::{NameRoom, SEGMENTS_RULE, SpaceSizes, check_rules_after_code};
use wdecode::{Fault, SegmentRule};
use wsyntax::Data;

/// A data segment is valid (3.4.6) in a module of these counts.
#[derive(Drop)]
struct ValidSegment<'a> {
    counts: &'a SpaceSizes,
}

impl SegmentRule for ValidSegment<'_> {
    ghost use Rattle.wcontext.specs.Counted.{IsSegmentValid};

    ghost holds = { λ r d. IsSegmentValid r.counts.now d };

    fn accepts(&self, segment: &Data<'_>) -> bool {
        self.counts.takes_segment(segment)
    }
}

/// Judges what is left of a module that keeps the early rules: decodes its data segments, and asks the late rules. That
/// the bytes spell no module goes before every rule. What the room for the names of exports held is gone.
pub(crate) fn judge_rest<'a>(
    alloc: Global,
    head: &Head<'a>,
    names: &mut NameRoom<'a>,
) -> Result<(), Refusal>
    requires { EarlyRulesHold head.now.front head.now.counts }
    ensures { MatchResult result (λ _. RestPasses head.now.front) (AllowsRefusal (RestRefused head.now.front)) }
{
    let counts = &head.counts;
    let segments = match head.front.segments_pass(alloc, &ValidSegment { counts }) {
        Ok(segments) => segments,
        Err(Fault::Malformed) => return Err(Refusal::Malformed),
        Err(Fault::Memory) => return Err(Refusal::Memory),
    };
    check_rules_after_code(names, &head.front.module, counts)?;
    if segments {
        Ok(())
    } else {
        Err(Refusal::Rule(SEGMENTS_RULE))
    }
}
