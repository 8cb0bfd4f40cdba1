//! The program from its command line to its exit status, over a runtime: the words, the file shelf over the working
//! directory, standard output and the simulated board are handed to the top call, and its answer's number is the exit
//! status.
#![tactic(auto)]

pub use machine::{Outcome, play};

mod machine;

ghost use Rattle.std.specs.Prelude.{◌≡◌, [], IfErr, IsTrue};
ghost use Rattle.std.specs.Process.{exit_status};
ghost use Rattle.report.specs.declared.status.Status.{Status};
ghost use Rattle.report.specs.Status.{is_refusal, number_of, refusal_text};
ghost use Rattle.outside.specs.Use.{IsPut, sink_use};

use outside::{FileShelf, OutSink, Sink, WorkingDirectory};
use report::{Status, write_refusal};
use std::io::Print;
use std::process::ExitCode;
use std::rt::{Env, Files};
use std::{env, io};

/// Carries out the command of the process's command line, and gives the exit status: the number of a status, and no other.
pub fn run<R: Env + Files + Print + AllocGlobal>(rt: &R) -> ExitCode
    ensures { (status : Status) × exit_status result ≡ number_of status }
{
    let alloc = rt.alloc();
    let mut sink = OutSink::new(io::writer(rt));
    match read_words(rt) {
        Ok(words) => {
            let mut shelf = FileShelf::new(alloc, WorkingDirectory::new(rt));
            match play(alloc, &words, &mut shelf, &mut sink) {
                Ok(outcome) => ExitCode::from(outcome.status.number()),
                Err(_) => refuse(&mut sink, &Status::OutOfMemory),
            }
        }
        Err(status) => refuse(&mut sink, &status),
    }
}

/// The words of the command line, without the program's name. Words that aren't text are a faulty command line.
fn read_words(rt: &(impl Env + AllocGlobal)) -> Result<Vec<String>, Status>
    ensures { IfErr result (λ status. IsTrue (is_refusal status)) }
{
    let args = env::args(rt).map_err(|error| match error.kind() {
        io::ErrorKind::OutOfMemory => Status::OutOfMemory,
        _ => Status::Usage,
    })?;
    let mut words = Vec::new(rt.alloc());
    for word in args.skip(1) {
        words.push(word).map_err(|_| Status::OutOfMemory)?;
    }
    Ok(words)
}

/// Writes the line of a refusal, and gives its exit status. A fault at the line leaves the status.
pub fn refuse<K: Sink>(sink: &mut K, status: &Status) -> ExitCode
    requires { IsTrue (is_refusal status.now) }
    ensures status { exit_status result ≡ number_of status.now }
    ensures line { IsPut (sink_use K.taken K.faults sink.old sink.new) (refusal_text status.now) }
{
    let _ = write_refusal(sink, status);
    ExitCode::from(status.number())
}
