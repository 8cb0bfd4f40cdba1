//! The program once more, for its third stored run: two VMs that work by interrupts, from `examples/control`.
#![tactic(auto)]

use std::process::ExitCode;

fn main(rt: HostRuntime) -> ExitCode {
    bao_command::run(&rt)
}
