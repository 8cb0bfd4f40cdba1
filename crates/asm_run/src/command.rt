//! The program from its command line to its exit status, over a runtime.
ghost use Rattle.std.specs.Prelude.{◌≡◌};
ghost use Rattle.std.specs.Process.{exit_status};
ghost use Rattle.asm_run.specs.declared.status.AsmStatus.{AsmStatus};
ghost use Rattle.asm_run.specs.Status.{number_of};

use crate::status::AsmStatus;
use crate::top::{refuse, run_asm};
use outside::{FileShelf, OutSink, WorkingDirectory};
use std::io::Print;
use std::process::ExitCode;
use std::rt::{Env, Files};
use std::{env, io};

/// Carries out the command of the process's command line, and gives the exit status: the number of a status, and no other.
pub fn run<R: Env + Files + Print + AllocGlobal>(rt: &R) -> ExitCode
    ensures { (status : AsmStatus) × exit_status result ≡ number_of status }
{
    let alloc = rt.alloc();
    let mut sink = OutSink::new(io::writer(rt));
    match read_args(rt) {
        Ok(words) => {
            let mut shelf = FileShelf::new(alloc, WorkingDirectory::new(rt));
            ExitCode::from(run_asm(alloc, &words, &mut shelf, &mut sink).number())
        }
        Err(status) => ExitCode::from(refuse(&mut sink, status).number()),
    }
}

/// The words of the command line, without the program's name. Words that aren't text are a faulty command line.
fn read_args(rt: &(impl Env + AllocGlobal)) -> Result<Vec<String>, AsmStatus> {
    let args = env::args(rt).map_err(|error| match error.kind() {
        io::ErrorKind::OutOfMemory => AsmStatus::OutOfMemory,
        _ => AsmStatus::Usage,
    })?;
    let mut words = Vec::new(rt.alloc());
    for word in args.skip(1) {
        words.push(word).map_err(|_| AsmStatus::OutOfMemory)?;
    }
    Ok(words)
}
