//! The assembler's program.
#![tactic(auto)]

use std::process::ExitCode;

fn main(rt: HostRuntime) -> ExitCode {
    asm_run::run(&rt)
}
