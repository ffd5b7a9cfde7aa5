//! The program `gate`: its process goes to the crate `program`.
#![tactic(auto)]

use program::run_process;
use std::process::ExitCode;

fn main(rt: HostRuntime) -> ExitCode {
    ExitCode::from(run_process(
        &rt,
        rt.stdin(),
        &mut rt.stdout(),
        &mut rt.stderr(),
        &mut rt.stderr(),
    ))
}
