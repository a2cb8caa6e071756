//! `keyed`: what changed between two tables, tables joined, changed and merged by key.
//!
//! Here the process is handed to a run of `keyed_run`.
#![tactic(auto)]

use std::process::ExitCode;

fn main(rt: HostRuntime) -> ExitCode {
    ExitCode::from(keyed_run::run(&rt, &mut rt.stdout(), &rt.stderr()))
}
