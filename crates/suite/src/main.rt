//! Runs each row of the tables in every way that it is run, and stops at the first that answers other than it says:
//! `suite VERDICTS RUNS`. A row of VERDICTS is a name, the bytes of a module, and the line and the status of
//! `gate check`. A row of RUNS is a name, the bytes of a module, the calls, the options, and the text and the status of
//! `gate run`. Between each two stands a tab. Lines that begin with `#` say nothing, but the last one, `# N rows`, says
//! how many rows there are.
#![tactic(auto)]

mod judges;
mod longer;
mod rows;
mod runs;
mod spelled;
mod table;
#[cfg(test)]
mod tests;

use anyhow::Result;
use std::env;
use table::{TableKind, run_table};

fn main(rt: HostRuntime) -> Result<()> {
    let mut args = env::args(&rt)?;
    let _program = args.next();
    for kind in [TableKind::Verdicts, TableKind::Runs] {
        if let Some(path) = args.next() {
            run_table(&rt, kind, path.as_str())?;
        }
    }
    Ok(())
}
