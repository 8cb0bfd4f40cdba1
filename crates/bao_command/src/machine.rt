ghost use Rattle.std.specs.Prelude.{◌≡◌, map, string_bytes, IfErr, IfOk};
ghost use Rattle.outside.specs.Use.{shelf_use, sink_use};
ghost use Rattle.bao_command.specs.Played.{IsPlayed};

use bao_run::run_bao;
use board::{Board, CONSOLES};
use outside::{Shelf, Sink};
use port_kinds::{ConsolePort, ScratchPort, TickerPort};
use ports::Port;
use report::Status;
use sim_board::SimBoard;
use std::alloc::{AllocError, Global};

/// The ports of the standard list after the consoles, in its order.
const SCRATCH_PORTS: u8 = 4;

const TICKERS: u8 = 4;

/// What the program answered, and how often the machine was entered.
#[derive(Debug, Drop, PartialEq, Eq)]
pub struct Outcome {
    pub status: Status,
    /// The number of steps that the machine was handed.
    pub entered: u64,
}

/// What the top call answers to the words on the simulated machine with the ports of the standard list. An error says
/// that there is no memory for the ports: then nothing has been read or written.
pub fn play<S: Shelf, K: Sink>(
    alloc: Global,
    words: &[String],
    shelf: &mut S,
    sink: &mut K,
) -> Result<Outcome, AllocError>
    ensures played { IfOk result (λ outcome. IsPlayed (λ board. record {
      words = map string_bytes words.now;
      shelf = shelf_use S.held S.faults S.culprit shelf.old shelf.new;
      sink = sink_use K.taken K.faults sink.old sink.new;
      board = board;
    }) outcome.status outcome.entered) }
    ensures shelf { IfErr result (λ error. shelf.new ≡ shelf.old) }
    ensures sink { IfErr result (λ error. sink.new ≡ sink.old) }
{
    let mut ports: Vec<Box<dyn Port>> = Vec::new(alloc);
    for _ in 0..CONSOLES {
        ports.push(Box::new(alloc, ConsolePort::new(alloc))?)?;
    }
    for _ in 0..SCRATCH_PORTS {
        ports.push(Box::new(alloc, ScratchPort::new())?)?;
    }
    for _ in 0..TICKERS {
        ports.push(Box::new(alloc, TickerPort::new())?)?;
    }
    let mut board = SimBoard::new(alloc, ports);
    let status = run_bao(alloc, words, shelf, sink, &mut board);
    Ok(Outcome {
        status,
        entered: board.entered(),
    })
}
