//! The rows of a table, one after the other.
use crate::rows::judge_row;
use crate::runs::run_row;
use anyhow::{Result, ensure};
use std::fs;
use std::rt::Files;
use std::sync::Wait;
use std::thread::Threads;

/// What the rows of a table are.
#[derive(Clone, Copy)]
pub enum TableKind {
    Verdicts,
    Runs,
}

/// Runs the rows of the table in that file, up to the first that is wrong, and prints how many it ran. They have to be
/// as many as the last line says.
pub fn run_table<R: Files + Print + AllocGlobal + Threads + Wait + Sync>(
    rt: &R,
    kind: TableKind,
    path: &str,
) -> Result<()> {
    let text = fs::read_to_string(rt, path)?;
    let mut ran = 0_u64;
    let mut count = None;
    for line in text.lines() {
        count = read_count(line);
        if line.is_empty() || line.starts_with('#') {
            continue;
        }
        match kind {
            TableKind::Verdicts => judge_row(rt, line)?,
            TableKind::Runs => run_row(rt, line)?,
        }
        ran = ran.saturating_add(1);
    }
    ensure!(
        Some(ran) == count,
        "{path}: {ran} rows, which is not what the last line says"
    );
    println!(rt; "{path}: {ran} rows")?;
    Ok(())
}

/// How many rows a last line `# N rows` says.
fn read_count(line: &str) -> Option<u64> {
    let count = line.strip_prefix("# ")?.strip_suffix(" rows")?;
    count.parse::<u64>().ok()
}
