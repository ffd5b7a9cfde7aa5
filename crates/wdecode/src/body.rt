//! Bodies of functions (5.5.13).
ghost use Rattle.std.specs.Prelude.{◌≡◌, ◌≤◌, ◌<◌, ◌^◌, ℕ, List, length, nat_lt, Option, Some, None};
ghost use Rattle.std.specs.Prelude.{IfOk, IsErrOf, if◌then◌else◌};
ghost use Rattle.wsyntax.specs.BranchTables.{FollowAll};
ghost use Rattle.wdecode.specs.BranchTables.{targets_of};
ghost use Rattle.wdecode.specs.Gives.{Gives};
ghost use Rattle.wsyntax.specs.Modules.{BodyShape, body_shape, tokens_of};
ghost use Rattle.wsyntax.specs.Binary.Production.{whole_at};
ghost use Rattle.wsyntax.specs.Binary.Sections.{body, locals as locals_production, locals_of};
ghost use Rattle.wsyntax.specs.Binary.Shell.{SpellsBody, FewLocals, local_limit};

use crate::fault::{BodyFault, Fault};
use crate::instructions::expression_at;
use crate::values::vector_into;
use std::alloc::Global as Alloc;
use wsyntax::{Body, LOCAL_LIMIT, LocalRun};

/// How many locals runs declare, where they are fewer than 2^32.
fn count_locals(runs: &[LocalRun]) -> Option<u32>
    ensures { result ≡ (if nat_lt (locals_of runs.now) (2 ^ 32) then Some (locals_of runs.now) else None) }
{
    let mut sum: u64 = 0;
    for run in runs {
        sum += u64::from(run.count);
        if sum >= 4294967296 {
            return None;
        }
    }
    Some(sum as u32)
}

/// The runs of declared locals (5.5.13), in place of what the list held, and the bytes after them. No memory is asked
/// for where the list has room.
#[tactic(auto, unfolding(wsyntax::specs::Binary::Sections::locals))]
pub fn locals_into<'a>(
    alloc: Alloc,
    runs: &mut Vec<LocalRun>,
    bytes: &'a [u8],
) -> Result<&'a [u8], Fault>
    ensures { Gives (λ rest. (runs.new.items, rest.now)) result (locals_production.read bytes.now) }
{
    let rest = vector_into(alloc, runs, bytes)?;
    if count_locals(runs).is_none() {
        return Err(Fault::Malformed);
    }
    Ok(rest)
}

/// The runs of declared locals (5.5.13).
pub fn locals_at(alloc: Alloc, bytes: &[u8]) -> Result<(Vec<LocalRun>, &[u8]), Fault>
    ensures { Gives (λ x. (x.0.items, x.1.now)) result (locals_production.read bytes.now) }
{
    let mut runs = Vec::new(alloc);
    let rest = locals_into(alloc, &mut runs, bytes)?;
    Ok((runs, rest))
}

/// All of the bytes as a body (5.5.13).
#[tactic(auto, unfolding(wsyntax::specs::Binary::Sections::body))]
fn whole_body(alloc: Alloc, bytes: &[u8]) -> Result<Body, Fault>
    ensures value { Gives body_shape result (whole_at body.read bytes.now) }
    ensures follow { IfOk result (λ b. FollowAll 0 b.code.tokens.items (length b.code.targets.items)) }
    ensures targets { IfOk result (λ b. b.code.targets.items ≡ targets_of (tokens_of b.code)) }
{
    let (runs, rest) = locals_at(alloc, bytes)?;
    let (code, rest) = expression_at(alloc, rest)?;
    if rest.is_empty() {
        Ok(Body { runs, code })
    } else {
        Err(Fault::Malformed)
    }
}

/// Whether runs declare more locals than a body may.
pub fn has_too_many_locals(runs: &[LocalRun]) -> bool
    ensures { result ≡ nat_lt local_limit (locals_of runs.now) }
{
    match count_locals(runs) {
        Some(count) => count > LOCAL_LIMIT,
        None => true,
    }
}

/// The body that the bytes spell (5.5.13), all of them.
///
/// The work is linear in the bytes, nothing is allocated by a count that they cannot fill, and nothing recurses.
pub fn decode_body(alloc: Alloc, bytes: &[u8]) -> Result<Body, BodyFault>
    // What is decoded is spelled so, within the limit.
    ensures found { IfOk result (λ b. SpellsBody bytes.now (body_shape b) × FewLocals (body_shape b)) }
    // The bytes spell no other body.
    ensures only { IfOk result (λ b. (other : BodyShape) → SpellsBody bytes.now other → body_shape b ≡ other) }
    // The targets are the labels of the branch tables and their defaults, each default after its labels, and no others.
    ensures targets { IfOk result (λ b. b.code.targets.items ≡ targets_of (tokens_of b.code)) }
    // Each branch table begins where the one before it ends, the first at 0, and the last ends where the targets end.
    ensures follow { IfOk result (λ b. FollowAll 0 b.code.tokens.items (length b.code.targets.items)) }
    // Malformed are bytes that spell no body.
    ensures malformed { IsErrOf result BodyFault.Malformed → (b : BodyShape) → SpellsBody bytes.now b → ⊥ }
    // Only a spelled body has too many locals.
    ensures too_many { IsErrOf result BodyFault.TooManyLocals
        → (b : BodyShape) × SpellsBody bytes.now b × (local_limit < locals_of b.runs) }
{
    match whole_body(alloc, bytes) {
        Err(Fault::Malformed) => Err(BodyFault::Malformed),
        Err(Fault::Memory) => Err(BodyFault::Memory),
        Ok(body) => {
            if has_too_many_locals(&body.runs) {
                return Err(BodyFault::TooManyLocals);
            }
            Ok(body)
        }
    }
}
