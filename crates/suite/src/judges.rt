//! All ways to judge a module.
use anyhow::ensure;
use batch::{Plan, Quiet, Status, Watch, report_verdict};
use std::alloc::Global;
use std::sync::Wait;
use std::thread::Threads;
use verdict::{Refusal, examine, judge};

/// What the judge finds that keeps the bodies, or the one that keeps nothing.
pub fn found<R: Threads + Wait + Sync, W: Watch + Sync>(
    rt: &R,
    alloc: Global,
    bytes: &[u8],
    plan: Plan,
    watch: &W,
    keeps: bool,
) -> Result<(), Refusal> {
    if keeps {
        let _accepted = judge(rt, alloc, bytes, plan, watch)?;
        return Ok(());
    }
    examine(rt, alloc, bytes, plan, watch)
}

/// The verdict line and the status, where the judge that keeps the bodies and the one that keeps nothing agree.
pub fn verdict_line<R: Threads + Wait + Sync>(
    rt: &R,
    alloc: Global,
    bytes: &[u8],
    plan: Plan,
) -> anyhow::Result<(Vec<u8>, Status)> {
    let kept = found(rt, alloc, bytes, plan, &Quiet, true);
    ensure!(
        kept == found(rt, alloc, bytes, plan, &Quiet, false),
        "the judges differ"
    );
    let mut line = Vec::new(alloc);
    let status = report_verdict(rt, alloc, bytes, plan, &Quiet, &mut line)?;
    Ok((line, status))
}
