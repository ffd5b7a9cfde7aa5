//! The rows of a table of verdicts.
use crate::judges::verdict_line;
use crate::longer::lengthened;
use crate::spelled::read_bytes;
use anyhow::{Context, Result, anyhow, bail, ensure};
use batch::{Plan, Status};
use std::sync::Wait;
use std::thread::Threads;

/// The numbers of workers and the sizes of pieces that each row is judged with.
const PLANS: [(u32, u32); 3] = [(1, 1), (4, 16), (64, 65_535)];

/// A module of fewer bytes than this gets few workers.
const SHORT: usize = 65_536;

/// A row of a table of verdicts.
#[derive(Clone, Copy)]
struct VerdictRow<'a> {
    name: &'a str,
    spelled: &'a str,
    line: &'a str,
    status: &'a str,
}

fn read_row(line: &str) -> Option<VerdictRow<'_>> {
    let (name, rest) = line.split_once('\t')?;
    let (spelled, rest) = rest.split_once('\t')?;
    let (line, status) = rest.split_once('\t')?;
    Some(VerdictRow {
        name,
        spelled,
        line,
        status,
    })
}

/// Judges the module of a row, and where it is short and spelled, once more with a custom section that lets many workers start.
pub fn judge_row<R: AllocGlobal + Threads + Wait + Sync>(rt: &R, line: &str) -> Result<()> {
    let row = read_row(line).ok_or_else(|| anyhow!("no row: {line}"))?;
    let bytes = read_bytes(rt.alloc(), row.spelled)?;
    for (workers, piece) in PLANS {
        let plan = Plan::new(workers, piece).ok_or_else(|| anyhow!("no plan"))?;
        judge_with(rt, &row, &bytes, plan).context(format_args!("{}", row.name))?;
    }
    if bytes.len() < SHORT && row.line != "refused malformed" {
        let long = lengthened(rt.alloc(), &bytes)?;
        let plan = Plan::new(64, 1).ok_or_else(|| anyhow!("no plan"))?;
        judge_with(rt, &row, &long, plan).context(format_args!("{}, lengthened", row.name))?;
    }
    Ok(())
}

fn judge_with<R: AllocGlobal + Threads + Wait + Sync>(
    rt: &R,
    row: &VerdictRow<'_>,
    bytes: &[u8],
    plan: Plan,
) -> Result<()> {
    let (line, status) = verdict_line(rt, rt.alloc(), bytes, plan)?;
    let wanted = format!(in rt.alloc(); "{}\n", row.line)?;
    if line.as_slice() != wanted.as_bytes() {
        bail!(
            "with {} workers another line than {}",
            plan.workers(),
            row.line
        );
    }
    ensure!(
        Some(status) == read_status(row.status),
        "another status than {}",
        row.status
    );
    Ok(())
}

/// What a status of the program says.
pub fn read_status(status: &str) -> Option<Status> {
    match status {
        "0" => Some(Status::Good),
        "2" => Some(Status::ModuleRefused),
        "3" => Some(Status::CallsRefused),
        _ => None,
    }
}
