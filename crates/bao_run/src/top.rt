ghost use Rattle.std.specs.Prelude.{◌≡◌, map, string_bytes, length, IsTrue, true, false, IfOk, OnOk, OnErr};
ghost use Rattle.board.specs.Ports.{standard_ports};
ghost use Rattle.bao_wellformed.specs.Checked.{checked_data};
ghost use Rattle.report.specs.Status.{is_refusal, refusal_text};
ghost use Rattle.vm_create.specs.Boot.{ArePlans};
ghost use Rattle.hypervisor.specs.Shape.{shape_of};
ghost use Rattle.hypervisor.specs.Hyp.{stands_for};
ghost use Rattle.hypervisor.specs.Tidy.{Tidy};
ghost use Rattle.bao_run.specs.Input.{CanPlay, input_data};
ghost use Rattle.bao_run.specs.Play.{IsPlayed, IsShowing, IsUnfitted, booted};
ghost use Rattle.outside.specs.Sink.{Takes, HasCause};
ghost use Rattle.outside.specs.Use.{IsPut, shelf_use, sink_use};
ghost use Rattle.bao_run.specs.Ending.{text_of};
ghost use Rattle.bao_run.specs.Outcome.{Outcome};
ghost use Rattle.bao_run.specs.Answers.{Answers};

use crate::config::Packed;
use crate::ending::Ending;
use crate::input::{Input, make_input, read_check, read_run};
use crate::words::{Command, read_words};
use bao_types::OutOfMemory;
use bao_wellformed::Checked;
use board::Board;
use core_interleave::run;
use hypervisor::Hyp;
use outside::{Shelf, Sink, SinkFailed};
use report::{Status, write_packing, write_refusal, write_report, write_summary};
use std::alloc::Global;
use vm_create::{boot, shape_for};

/// Does all that the program does: reads the words, which don't include the program's name, and the files that they
/// name, boots the board, takes the events, and writes the report or the line of a refusal.
///
/// The board isn't fitted yet, and its ports are those of the standard list, newly made. The answer's number is the process's exit status.
#[tactic(auto, using(crate::proofs::Complete::answers_from))]
pub fn run_bao<S: Shelf, K: Sink, B: Board>(
    alloc: Global,
    words: &[String],
    shelf: &mut S,
    sink: &mut K,
    board: &mut B,
) -> Status
    requires unfitted { (B.state board.old).fitted ≡ false }
    requires ports { (B.state board.old).ports ≡ standard_ports }
    ensures { Answers (record {
      words = map string_bytes words.now;
      shelf = shelf_use S.held S.faults S.culprit shelf.old shelf.new;
      sink = sink_use K.taken K.faults sink.old sink.new;
      board = record { before = B.state board.old; after = B.state board.new };
    }) result }
{
    carry_out(alloc, words, shelf, sink, board)
}

/// What the top call does. Here its contract says what each answer means, from which the rest follows.
fn carry_out<S: Shelf, K: Sink, B: Board>(
    alloc: Global,
    words: &[String],
    shelf: &mut S,
    sink: &mut K,
    board: &mut B,
) -> Status
    requires unfitted { (B.state board.old).fitted ≡ false }
    requires ports { (B.state board.old).ports ≡ standard_ports }
    ensures { Outcome (record {
      words = map string_bytes words.now;
      shelf = shelf_use S.held S.faults S.culprit shelf.old shelf.new;
      sink = sink_use K.taken K.faults sink.old sink.new;
      board = record { before = B.state board.old; after = B.state board.new };
    }) result }
{
    match read_words(words) {
        Command::Run { config, schedule } => match read_run(alloc, shelf, config, schedule) {
            Ok(input) => play(alloc, sink, board, &input, Ending::Report),
            Err(status) => refuse(sink, status),
        },
        Command::Check { config } => match read_check(alloc, shelf, config) {
            Ok(packed) => show(sink, &packed),
            Err(status) => refuse(sink, status),
        },
        Command::Generate { number } => match make_input(alloc, number) {
            Ok(input) => play(alloc, sink, board, &input, Ending::Summary),
            Err(OutOfMemory) => refuse(sink, Status::OutOfMemory),
        },
        Command::Unknown => refuse(sink, Status::Usage),
    }
}

/// Writes the packing of a configuration.
fn show<K: Sink>(sink: &mut K, packed: &Packed) -> Status
    requires { ArePlans (checked_data packed.now.checked) packed.now.plans.items }
    ensures { IsShowing (checked_data packed.now.checked) (sink_use K.taken K.faults sink.old sink.new) result }
{
    match write_packing(sink, &packed.checked, &packed.plans) {
        Ok(()) => Status::Done,
        Err(_) => Status::WriteFault,
    }
}

/// Boots the board with the images, takes the events and writes the text with which the command ends.
fn play<K: Sink, B: Board>(
    alloc: Global,
    sink: &mut K,
    board: &mut B,
    input: &Input,
    ending: Ending,
) -> Status
    requires unfitted { (B.state board.old).fitted ≡ false }
    requires ports { (B.state board.old).ports ≡ standard_ports }
    requires input { CanPlay input.now }
    ensures { IsPlayed (text_of ending) (input_data input.now) (record { before = B.state board.old; after = B.state board.new })
        (sink_use K.taken K.faults sink.old sink.new) result }
{
    let mut hyp = match start(alloc, board, input) {
        Ok(hyp) => hyp,
        Err(OutOfMemory) => return refuse(sink, Status::OutOfMemory),
    };
    run(&mut hyp, &input.packed.checked, board, &input.events);
    match write_ending(sink, board, &input.packed.checked, &hyp, ending) {
        Ok(()) => Status::Done,
        Err(_) => Status::WriteFault,
    }
}

/// Writes the text with which a command ends.
fn write_ending<K: Sink, B: Board>(
    sink: &mut K,
    board: &B,
    checked: &Checked,
    hyp: &Hyp,
    ending: Ending,
) -> Result<(), SinkFailed>
    requires fitted { (B.state board.now).fitted ≡ true }
    requires cores { length (B.state board.now).shape.cores ≡ length (checked_data checked.now).platform.cores }
    ensures taken { Takes (K.taken sink.old) (K.taken sink.new)
        (text_of ending (checked_data checked.now) (stands_for (checked_data checked.now) hyp.now (B.state board.now))) result }
    ensures cause { HasCause (K.faults sink.old) (K.faults sink.new) result }
{
    match ending {
        Ending::Report => write_report(sink, board, checked, hyp),
        Ending::Summary => write_summary(sink, board, checked, hyp),
    }
}

/// Fits the board for the events and boots it with the images. It answers the hypervisor for them.
fn start<B: Board>(alloc: Global, board: &mut B, input: &Input) -> Result<Hyp, OutOfMemory>
    requires unfitted { (B.state board.old).fitted ≡ false }
    requires ports { (B.state board.old).ports ≡ standard_ports }
    requires input { CanPlay input.now }
    ensures tidy { IfOk result (λ hyp. Tidy (input_data input.now).cfg hyp (B.state board.new)) }
    ensures state { IfOk result (λ hyp. stands_for (input_data input.now).cfg hyp (B.state board.new) ≡ booted (input_data input.now)) }
    ensures shape { OnOk result ((B.state board.new).shape
        ≡ shape_of (input_data input.now).cfg (length (input_data input.now).events)) }
    ensures counts { OnOk result (((B.state board.new).entered ≡ 0) × ((B.state board.new).spent ≡ 0)) }
    ensures unfitted { OnErr result (IsUnfitted (record { before = B.state board.old; after = B.state board.new })) }
{
    let Input {
        packed,
        images,
        events,
    } = input;
    let shape = shape_for(&packed.checked, events.len() as u32);
    board.fit(alloc, &shape)?;
    Ok(boot(board, &packed.checked, &packed.plans, images))
}

/// Writes the line of a refusal, and gives its status back. A fault at the line leaves the status.
fn refuse<K: Sink>(sink: &mut K, status: Status) -> Status
    requires { IsTrue (is_refusal status) }
    ensures status { result ≡ status }
    ensures line { IsPut (sink_use K.taken K.faults sink.old sink.new) (refusal_text status) }
{
    let _ = write_refusal(sink, &status);
    status
}
