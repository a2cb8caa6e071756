//! `eob_walk`: answers each line of the standard input on the standard output.
//!
//! Here the process is handed to the run, which is the library `walk_lines`.
#![tactic(auto)]

use std::process::ExitCode;
use walk_lines::run;

fn main(rt: HostRuntime) -> ExitCode {
    let mut reader = rt.stdin();
    let mut writer = rt.stdout();
    ExitCode::from(run(rt.alloc(), &mut reader, &mut writer).status())
}
