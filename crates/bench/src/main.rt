//! Measures: `bench check MODULE WORKERS` prints the nanoseconds of each of three judgings in this process, the file being
//! read; `bench pieces` what `try_all` costs over 100,000 empty indices, as a ratio to a plain loop. With no argument it
//! does nothing.
#![tactic(auto)]

mod judging;
mod ratios;

use anyhow::{Result, anyhow};
use std::env;

fn main(rt: HostRuntime) -> Result<()> {
    let mut args = env::args(&rt)?;
    let _program = args.next();
    let Some(word) = args.next() else {
        return Ok(());
    };
    match word.as_str() {
        "check" => {
            let path = args.next().ok_or_else(|| anyhow!("no module"))?;
            let workers = args.next().ok_or_else(|| anyhow!("no number of workers"))?;
            judging::measure(&rt, path.as_str(), workers.as_str().parse()?)
        }
        "pieces" => ratios::print_ratios(&rt, rt.alloc()),
        _ => Err(anyhow!("neither `check` nor `pieces`")),
    }
}
