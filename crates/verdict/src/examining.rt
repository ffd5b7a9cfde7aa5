ghost use Rattle.std.specs.Prelude.{◌≡◌, MatchResult, IfOk, IfSome, All, vec_len};
ghost use Rattle.wsyntax.specs.Validation.Verdict.{IsVerdict, Accepted};
ghost use Rattle.verdict.specs.Heads.{EarlyRulesHold};
ghost use Rattle.verdict.specs.Parts.{HasRun};
ghost use Rattle.refusal.specs.Refusals.{verdict_of};

use crate::grouping::groups_for;
use crate::head::Head;
use crate::jobs::{ModuleParts, judge_at};
use crate::passing::Scratch;
use crate::rest::judge_rest;
use pieces::{Plan, Watch, try_all};
use refusal::Refusal;
use std::alloc::{AllocError, Global};
use std::sync::Wait;
use std::thread::Threads;

/// What one worker needs.
fn new_scratch<'a, 'b>(alloc: Global, head: &'a Head<'b>) -> Result<Scratch<'a, 'b>, AllocError>
    ensures { IfOk result (λ s. s.checker.outside ≡ head.now.context.context) }
{
    Scratch::new(alloc, &head.context, head.front.module.exports.len())
}

/// A scratch for each worker.
fn new_scratches<'a, 'b>(
    alloc: Global,
    head: &'a Head<'b>,
    workers: u32,
) -> Result<Vec<Scratch<'a, 'b>>, AllocError>
    ensures count { IfOk result (λ v. vec_len v ≡ workers) }
    ensures outside { IfOk result (λ v. All (λ s. s.checker.outside ≡ head.now.context.context) v.items) }
{
    let mut scratches = Vec::new(alloc);
    for _ in 0..workers {
        let scratch = new_scratch(alloc, head)?;
        scratches.push(scratch)?;
    }
    Ok(scratches)
}

/// Judges the rest of a module and its bodies, up to the first fault.
fn judge_parts<R: Threads + Wait + Sync, W: Watch + Sync>(
    rt: &R,
    alloc: Global,
    head: &Head<'_>,
    plan: Plan,
    watch: &W,
) -> Result<(), Refusal>
    requires { EarlyRulesHold head.now.front head.now.counts }
    ensures { HasRun head.now result }
{
    let bodies = head.front.module.bodies.len() as u32;
    let (size, plan) = groups_for(bodies, head.bytes.len(), plan);
    let parts = ModuleParts {
        alloc,
        head,
        size,
        watch,
    };
    let scratches = new_scratches(alloc, head, plan.workers())?;
    try_all(rt, alloc, &parts, scratches, parts.count(), plan)?;
    Ok(())
}

/// Does the same on the calling thread, one body after the other.
fn judge_in_order(alloc: Global, head: &Head<'_>) -> Result<(), Refusal>
    requires { EarlyRulesHold head.now.front head.now.counts }
    ensures { HasRun head.now result }
{
    let mut scratch = new_scratch(alloc, head)?;
    judge_rest(alloc, head, &mut scratch.names)?;
    for position in 0..head.front.module.bodies.len() as u32 {
        judge_at(alloc, head, &mut scratch, position)?;
    }
    Ok(())
}

/// Judges a module and keeps nothing of it.
pub fn examine<R: Threads + Wait + Sync, W: Watch + Sync>(
    rt: &R,
    alloc: Global,
    bytes: &[u8],
    plan: Plan,
    watch: &W,
) -> Result<(), Refusal>
    ensures { MatchResult result (λ _. IsVerdict bytes.now Accepted) (λ r. IfSome (verdict_of r) (IsVerdict bytes.now)) }
{
    let head = Head::of(alloc, bytes)?;
    judge_parts(rt, alloc, &head, plan, watch)
}

/// Judges a module and keeps nothing of it, on the calling thread: it takes no right to start threads or to wait.
pub fn examine_alone(alloc: Global, bytes: &[u8]) -> Result<(), Refusal>
    ensures { MatchResult result (λ _. IsVerdict bytes.now Accepted) (λ r. IfSome (verdict_of r) (IsVerdict bytes.now)) }
{
    let head = Head::of(alloc, bytes)?;
    judge_in_order(alloc, &head)
}
