//! The program once more, for its second stored run: without words it tells its usage and ends with status 2.
#![tactic(auto)]

use std::process::ExitCode;

fn main(rt: HostRuntime) -> ExitCode {
    bao_command::run(&rt)
}
