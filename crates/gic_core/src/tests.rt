use crate::Lines;
use arrayvec::ArrayVec;
use bao_types::PortSpot;
use std::process::Abort;

/// The cores that ports may belong to, one bit each.
const CORE_0: u8 = 0b1;

const CORES_1_AND_2: u8 = 0b110;

const NO_VM: u8 = 0;

const fn port(id: u8, spi: u16, cores: u8) -> PortSpot {
    PortSpot {
        id,
        base: 0,
        spi,
        cores,
    }
}

/// Ports 0 and 1 belong to core 0's VM, ports 2 and 3 to that of cores 1 and 2, and all others to none.
fn lines() -> Lines {
    let mut spots = [port(15, 95, NO_VM); 16];
    spots[0] = port(0, 40, CORE_0);
    spots[1] = port(1, 33, CORE_0);
    spots[2] = port(2, 32, CORES_1_AND_2);
    spots[3] = port(3, 94, CORES_1_AND_2);
    Lines::new(&ArrayVec::from_array_in((), spots))
}

/// A call, with what it is to answer.
enum Call {
    /// The port whose line is raised.
    Port(u8),
    /// The core.
    Ppi(u8),
    /// The core, and whether a line is raised for it.
    Raised(u8, bool),
    /// The core, and the interrupt that it takes.
    Ack(u8, Option<u16>),
}

use Call::{Ack, Port, Ppi, Raised};

/// Whether the call answers as it is to.
fn is_met(lines: &mut Lines, call: &Call) -> bool {
    match *call {
        Port(port) => lines.raise_port(port),
        Ppi(core) if core < 8 => lines.raise_ppi(core),
        Raised(core, wanted) => return core < 8 && lines.raised(core) == wanted,
        Ack(core, wanted) => return core < 8 && lines.ack(core) == wanted,
        Ppi(_) => return false,
    }
    true
}

fn check(rt: &impl Abort, lines: &mut Lines, row: &(&str, Call)) {
    let (shows, call) = row;
    assert!(rt; is_met(lines, call), "{shows}");
}

#[rattlefmt::skip]
static IN_ORDER: [(&str, Call); 16] = [
    // shows                                    call
    ("no line at first",                        Raised(0, false)),
    ("none to take",                            Ack(0, None)),
    ("port 0",                                  Port(0)),
    ("port 1",                                  Port(1)),
    ("port 1 again, before it is taken",        Port(1)),
    ("the timer",                               Ppi(0)),
    ("for core 0",                              Raised(0, true)),
    ("for core 0 alone",                        Raised(1, false)),
    ("the least first",                         Ack(0, Some(27))),
    ("then the next",                           Ack(0, Some(33))),
    ("each once",                               Ack(0, Some(40))),
    ("no more",                                 Ack(0, None)),
    ("none is left",                            Raised(0, false)),
    ("port 1 once more",                        Port(1)),
    ("it is taken again",                       Ack(0, Some(33))),
    ("and only once",                           Ack(0, None)),
];

#[test]
fn acknowledged_in_order(rt: HostRuntime) {
    let mut lines = lines();
    for row in IN_ORDER.as_slice() {
        check(&rt, &mut lines, row);
    }
}

#[rattlefmt::skip]
static BY_CORE: [(&str, Call); 24] = [
    // shows                                    call
    ("the timer of core 7",                     Ppi(7)),
    ("the timer of core 2",                     Ppi(2)),
    ("core 7 has its own",                      Raised(7, true)),
    ("core 2 has its own",                      Raised(2, true)),
    ("core 1 has none",                         Raised(1, false)),
    ("that of core 7",                          Ack(7, Some(27))),
    ("core 7 has none left",                    Raised(7, false)),
    ("that of core 2 stays",                    Raised(2, true)),
    ("port 3",                                  Port(3)),
    ("port 2",                                  Port(2)),
    ("a core of its VM sees it",                Raised(1, true)),
    ("a core of another VM doesn't",            Raised(0, false)),
    ("nor takes it",                            Ack(0, None)),
    ("one line for all cores of the VM",        Ack(1, Some(32))),
    ("the core's own timer comes first",        Ack(2, Some(27))),
    ("the other port's line",                   Ack(2, Some(94))),
    ("none is left for core 1",                 Raised(1, false)),
    ("none is left for core 2",                 Raised(2, false)),
    ("a port of no VM",                         Port(15)),
    ("none for core 0",                         Raised(0, false)),
    ("none for core 1",                         Raised(1, false)),
    ("none to take for core 2",                 Ack(2, None)),
    ("none for core 3",                         Raised(3, false)),
    ("none to take for core 7",                 Ack(7, None)),
];

#[test]
fn lines_by_core(rt: HostRuntime) {
    let mut lines = lines();
    for row in BY_CORE.as_slice() {
        check(&rt, &mut lines, row);
    }
}
