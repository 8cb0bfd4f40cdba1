//! The machine on which the tests run.
ghost use Rattle.std.specs.Prelude.{◌≡◌, ◌≤◌, false, length};
ghost use Rattle.bao_types.specs.Shape.{shape_data};
ghost use Rattle.board.specs.Machine.{IsFittable};
ghost use Rattle.board.specs.Ports.{standard_ports};
ghost use Rattle.board_tests.specs.Bench.{bench_shape, IsBare, IsReady};

use crate::drive::{Row, first_unmet};
use bao_types::{ByteRange, CorePlace, OutOfMemory, PortSpot, Region, Shape};
use board::Board;
use port_kinds::{ConsolePort, ScratchPort, TickerPort};
use ports::Port;
use sim_board::SimBoard;
use std::alloc::{AllocError, Global};
use vgic_table::IrqTable;

/// Where guests lie and begin.
const START: u64 = 0x10_0000;

/// The first row that a guest with these bytes doesn't meet, by what it shows. It lies on a board with the ports of the standard
/// list, at which all cores begin; they may read, write and execute its memory, and reach its ports.
///
/// # Errors
///
/// There is no memory for the ports, or for the board.
pub(crate) fn unmet(
    alloc: Global,
    image: &[u8],
    rows: &[Row],
) -> Result<Result<Option<&'static str>, OutOfMemory>, AllocError>
    requires { length image.now ≤ 0x1_0000 }
{
    let mut ports: Vec<Box<dyn Port>> = Vec::new(alloc);
    for _ in 0..8u8 {
        ports.push(Box::new(alloc, ConsolePort::new(alloc))?)?;
    }
    for _ in 0..4u8 {
        ports.push(Box::new(alloc, ScratchPort::new())?)?;
    }
    for _ in 0..4u8 {
        ports.push(Box::new(alloc, TickerPort::new())?)?;
    }
    let mut board = SimBoard::new(alloc, ports);
    Ok(unmet_on(alloc, &mut board, image, rows))
}

/// The same on a board that isn't fitted.
fn unmet_on<B: Board>(
    alloc: Global,
    board: &mut B,
    image: &[u8],
    rows: &[Row],
) -> Result<Option<&'static str>, OutOfMemory>
    requires unfitted { (B.state board.old).fitted ≡ false }
    requires ports { (B.state board.old).ports ≡ standard_ports }
    requires image { length image.now ≤ 0x1_0000 }
{
    board.fit(alloc, &bench_shape())?;
    prepare(board, image);
    let mut table = IrqTable::new(2);
    Ok(first_unmet(board, &mut table, rows))
}

/// Gives a bare board a guest, and each core its entries and its beginning.
fn prepare<B: Board>(board: &mut B, image: &[u8])
    requires bare { IsBare (B.state board.old) }
    requires image { length image.now ≤ 0x1_0000 }
    ensures ready { IsReady (B.state board.new) }
    ensures spent { (B.state board.new).spent ≡ 0 }
{
    board.load(START, image);
    board.set_entry(0, 0, memory_entry());
    board.set_entry(0, 1, port_entry());
    board.set_entry(1, 0, memory_entry());
    board.set_entry(1, 1, port_entry());
    board.set_entry(2, 0, memory_entry());
    board.set_entry(2, 1, port_entry());
    board.reset_core(0, START, 0);
    board.reset_core(1, START, 0);
    board.reset_core(2, START, 0);
}

/// All of the memory in use, for reading, writing and execution.
fn memory_entry() -> Region
    ensures { result ≡ record { base = 0x10_0004; limit = 0x10_ffc1 } }
{
    Region {
        base: 0x10_0004,
        limit: 0x10_ffc1,
    }
}

/// All four ports, for reading and writing.
fn port_entry() -> Region
    ensures { result ≡ record { base = 0x9c09_0006; limit = 0x9c09_00c3 } }
{
    Region {
        base: 0x9c09_0006,
        limit: 0x9c09_00c3,
    }
}

fn bench_shape() -> Shape
    ensures shape { shape_data result ≡ bench_shape }
    ensures fittable { IsFittable (shape_data result) }
{
    let mut shape = Shape::default();
    shape.banks.push(ByteRange {
        base: 0,
        size: 0x20_0000,
    });
    shape.cores.push(core_place(0));
    shape.cores.push(core_place(1));
    shape.cores.push(core_place(0));
    shape.ports.push(port_spot(0, 0x9c09_0000, 32, 0b011));
    shape.ports.push(port_spot(12, 0x9c09_0040, 33, 0b011));
    shape.ports.push(port_spot(1, 0x9c09_0080, 34, 0b100));
    shape.ports.push(port_spot(2, 0x9c09_00c0, 35, 0));
    shape.used.push(ByteRange {
        base: START,
        size: 0x1_0000,
    });
    shape.events = 100_000;
    shape
}

fn core_place(affinity: u8) -> CorePlace
    ensures { result ≡ record { entries = 2; affinity = affinity } }
{
    CorePlace {
        entries: 2,
        affinity,
    }
}

fn port_spot(id: u8, base: u64, spi: u16, cores: u8) -> PortSpot
    ensures { result ≡ record { id = id; base = base; spi = spi; cores = cores } }
{
    PortSpot {
        id,
        base,
        spi,
        cores,
    }
}
