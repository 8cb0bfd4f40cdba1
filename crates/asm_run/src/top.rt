//! The top call.
ghost use Rattle.std.specs.Prelude.{◌≡◌, map, string_bytes};
ghost use Rattle.outside.specs.Sink.{Takes, HasCause};
ghost use Rattle.outside.specs.Use.{IsPut, shelf_use, sink_use};
ghost use Rattle.asm_run.specs.Status.{refusal_text};
ghost use Rattle.asm_run.specs.Made.{IsShown};
ghost use Rattle.asm_run.specs.Outcome.{Outcome};
ghost use Rattle.asm_run.specs.Answers.{Answers};

use crate::line::refusal_line;
use crate::made::make;
use crate::status::AsmStatus;
use outside::{Shelf, Sink, SinkFailed};
use std::alloc::Global;

/// Does all that the program does: reads the words, which don't include the program's name, and the file that they name, and
/// writes what is made of it, or the line of a refusal. The answer's number is the process's exit status.
#[tactic(auto, using(crate::proofs::Complete::answers_from))]
pub fn run_asm<S: Shelf, K: Sink>(
    alloc: Global,
    words: &[String],
    shelf: &mut S,
    sink: &mut K,
) -> AsmStatus
    ensures { Answers (record {
      words = map string_bytes words.now;
      shelf = shelf_use S.held S.faults S.culprit shelf.old shelf.new;
      sink = sink_use K.taken K.faults sink.old sink.new;
    }) result }
{
    carry_out(alloc, words, shelf, sink)
}

/// What the top call does. Here its contract says what each answer means, from which the rest follows.
fn carry_out<S: Shelf, K: Sink>(
    alloc: Global,
    words: &[String],
    shelf: &mut S,
    sink: &mut K,
) -> AsmStatus
    ensures { Outcome (record {
      words = map string_bytes words.now;
      shelf = shelf_use S.held S.faults S.culprit shelf.old shelf.new;
      sink = sink_use K.taken K.faults sink.old sink.new;
    }) result }
{
    match make(alloc, words, shelf) {
        Ok(bytes) => show(sink, &bytes),
        Err(status) => refuse(sink, status),
    }
}

/// Writes what was made.
fn show<K: Sink>(sink: &mut K, bytes: &[u8]) -> AsmStatus
    ensures { IsShown (sink_use K.taken K.faults sink.old sink.new) bytes.now result }
{
    match sink.put(bytes) {
        Ok(()) => AsmStatus::Done,
        Err(_) => AsmStatus::WriteFault,
    }
}

/// Writes the line of a refusal. That it is cut short changes nothing of the status.
pub(crate) fn refuse<K: Sink>(sink: &mut K, status: AsmStatus) -> AsmStatus
    ensures same { result ≡ status }
    ensures put { IsPut (sink_use K.taken K.faults sink.old sink.new) (refusal_text status) }
{
    let _put = put_refusal(sink, status);
    status
}

/// Writes the line of a refusal, by one put.
fn put_refusal<K: Sink>(sink: &mut K, status: AsmStatus) -> Result<(), SinkFailed>
    ensures taken { Takes (K.taken sink.old) (K.taken sink.new) (refusal_text status) result }
    ensures cause { HasCause (K.faults sink.old) (K.faults sink.new) result }
{
    sink.put(&refusal_line(status))
}
