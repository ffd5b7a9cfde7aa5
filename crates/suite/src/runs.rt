//! The rows of a table of runs.
use crate::rows::read_status;
use crate::spelled::{read_bytes, read_text};
use anyhow::{Context, Result, anyhow, bail, ensure};
use batch::{Plan, Quiet, Settings, Status, answer};
use std::sync::Wait;
use std::thread::Threads;

/// The numbers of workers that each row is run with.
const WORKERS: [u32; 4] = [1, 2, 8, 64];

/// The sizes of pieces that each row is run with.
const PIECES: [u32; 3] = [1, 7, 65_535];

/// A row of a table of runs.
#[derive(Clone, Copy)]
struct RunRow<'a> {
    name: &'a str,
    module: &'a str,
    calls: &'a str,
    options: &'a str,
    text: &'a str,
    status: &'a str,
}

/// What a row says.
#[derive(Drop)]
struct Run {
    module: Vec<u8>,
    calls: String,
    settings: Settings,
    text: String,
    status: Status,
}

fn split_row(line: &str) -> Option<RunRow<'_>> {
    let (name, rest) = line.split_once('\t')?;
    let (module, rest) = rest.split_once('\t')?;
    let (calls, rest) = rest.split_once('\t')?;
    let (options, rest) = rest.split_once('\t')?;
    let (text, status) = rest.split_once('\t')?;
    Some(RunRow {
        name,
        module,
        calls,
        options,
        text,
        status,
    })
}

fn read_run<R: AllocGlobal>(rt: &R, row: &RunRow<'_>) -> Result<Run> {
    Ok(Run {
        module: read_bytes(rt.alloc(), row.module)?,
        calls: read_text(rt.alloc(), row.calls)?,
        settings: read_settings(row.options)?,
        text: read_text(rt.alloc(), row.text)?,
        status: read_status(row.status).ok_or_else(|| anyhow!("no status"))?,
    })
}

/// What an option sets.
#[derive(Clone, Copy)]
enum Limit {
    Fuel,
    Frames,
    Pages,
}

fn read_limit(option: &str) -> Result<Limit> {
    match option {
        "--fuel" => Ok(Limit::Fuel),
        "--frames" => Ok(Limit::Frames),
        "--pages" => Ok(Limit::Pages),
        _ => bail!("no option: {option}"),
    }
}

/// The settings of the options `--fuel N`, `--frames N` and `--pages N`, each with the program's own where it is missing.
fn read_settings(options: &str) -> Result<Settings> {
    let (mut fuel, mut frames, mut pages) = (1_000_000, 1_024, 256);
    let mut limit = None;
    for word in options.split_whitespace() {
        let Some(named) = limit else {
            limit = Some(read_limit(word)?);
            continue;
        };
        let number = word.parse::<u32>()?;
        match named {
            Limit::Fuel => fuel = number,
            Limit::Frames => frames = number,
            Limit::Pages => pages = number,
        }
        limit = None;
    }
    ensure!(limit.is_none(), "no number: {options}");
    Settings::new(fuel, frames, pages).ok_or_else(|| anyhow!("no settings: {options}"))
}

/// Answers the module and the calls of a row, once with each plan.
pub fn run_row<R: AllocGlobal + Threads + Wait + Sync>(rt: &R, line: &str) -> Result<()> {
    let row = split_row(line).ok_or_else(|| anyhow!("no row: {line}"))?;
    let run = read_run(rt, &row).context(format_args!("{}", row.name))?;
    for workers in WORKERS {
        for piece in PIECES {
            let plan = Plan::new(workers, piece).ok_or_else(|| anyhow!("no plan"))?;
            run_with(rt, &run, plan).context(format_args!(
                "{}, with {workers} workers and {piece} a piece",
                row.name
            ))?;
        }
    }
    Ok(())
}

fn run_with<R: AllocGlobal + Threads + Wait + Sync>(rt: &R, run: &Run, plan: Plan) -> Result<()> {
    let mut text = Vec::new(rt.alloc());
    let calls = run.calls.as_bytes();
    let status = answer(
        rt,
        rt.alloc(),
        &run.module,
        calls,
        run.settings,
        plan,
        &Quiet,
        &mut text,
    )?;
    ensure!(
        text.as_slice() == run.text.as_bytes(),
        "another text than the row's"
    );
    ensure!(status == run.status, "another status than the row's");
    Ok(())
}
