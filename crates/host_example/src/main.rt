//! A host of plug-ins in small: it judges a module once, and then calls one of its exports, each time on an instance of its
//! own: `host_example MODULE NAME`. docs/HOSTS.md goes through it line by line.
#![tactic(auto)]

mod plug_in;

use anyhow::{Result, anyhow, ensure};
use pieces::{Plan, Quiet};
use std::alloc::Global;
use std::rt::Files;
use std::sync::Wait;
use std::thread::Threads;
use std::{env, fs};
use verdict::judge;
use wstore::Settings;
use wsyntax::Value;

/// Judges the module of that path, and calls its export of that name on pairs of numbers.
fn host<R: Files + Print + AllocGlobal + Threads + Wait + Sync>(
    rt: &R,
    path: &str,
    name: &str,
) -> Result<()> {
    let alloc = rt.alloc();
    let bytes = fs::read(rt, path)?;
    let plan = Plan::new(4, 16).ok_or_else(|| anyhow!("no plan"))?;
    let settings = Settings::new(1_000_000, 1_024, 256).ok_or_else(|| anyhow!("no settings"))?;
    let accepted = judge(rt, alloc, &bytes, plan, &Quiet).map_err(|refusal| anyhow!(
        "{refusal:?}"
    ))?;
    for (first, second) in [(1, 2), (40, 2), (u32::MAX, 1)] {
        let args = [Value::I32(first), Value::I32(second)];
        let answer = plug_in::call(alloc, &accepted, name.as_bytes(), &args, settings).map_err(
            |fault| anyhow!("{fault}"),
        )?;
        println!(rt; "{name} {first} {second}: {answer:?}")?;
    }
    Ok(())
}

fn main(rt: HostRuntime) -> Result<()> {
    let mut args = env::args(&rt)?;
    let _program = args.next();
    let path = args.next().ok_or_else(|| anyhow!("no module"))?;
    let name = args.next().ok_or_else(|| anyhow!("no name"))?;
    host(&rt, path.as_str(), name.as_str())
}
