ghost use Rattle.std.specs.Prelude.{◌+◌, ◌≤◌};
ghost use Rattle.ports.specs.PortState.{byte_count};

use crate::{ConsolePort, ScratchPort, TickerPort};
use bao_types::OutOfMemory;
use ports::{Port, PortKind};
use std::alloc::Global;
use std::process::Abort;
use std::test::Fail;

/// A call of a port, with what it is to answer.
enum Call {
    /// Offset, width, and the value read.
    Read(u32, u32, u64),
    /// Offset, width, value, and whether the line is raised.
    Write(u32, u32, u64, bool),
    /// The byte, and whether the line is raised.
    Input(u8, bool),
}

use Call::{Input, Read, Write};

#[rattlefmt::skip]
static CONSOLE: [(&str, Call); 24] = [
    // shows                              call
    ("no byte waits",                     Read(0x4, 4, 0)),
    ("no byte is read",                   Read(0x0, 1, 0)),
    ("control clear, no line",            Input(0x41, false)),
    ("a byte waits",                      Read(0x4, 4, 1)),
    ("the byte",                          Read(0x0, 4, 0x41)),
    ("it waits no longer",                Read(0x4, 1, 0)),
    ("control takes 1 byte",              Write(0x8, 1, 0x1ff, false)),
    ("control keeps bit 0",               Read(0x8, 4, 1)),
    ("control set, the line",             Input(0x42, true)),
    ("the line again",                    Input(0x43, true)),
    ("8 bytes take none",                 Read(0x0, 8, 0)),
    ("an odd offset takes none",          Read(0x1, 1, 0)),
    ("the oldest byte",                   Read(0x0, 2, 0x42)),
    ("the next one",                      Read(0x0, 1, 0x43)),
    ("no more",                           Read(0x0, 1, 0)),
    ("the low byte is put out",           Write(0x0, 4, 0x1234, false)),
    ("8 bytes put nothing out",           Write(0x0, 8, 0x55, false)),
    ("an odd offset puts nothing out",    Write(0x2, 2, 0x55, false)),
    ("the next byte is put out",          Write(0x0, 1, 0x61, false)),
    ("what is put out isn't read",        Read(0x0, 1, 0)),
    ("0x4 ignores writes",                Write(0x4, 4, 1, false)),
    ("no byte waits still",               Read(0x4, 2, 0)),
    ("control takes an even value",       Write(0x8, 4, 0xfe, false)),
    ("control is clear",                  Read(0x8, 1, 0)),
];

#[rattlefmt::skip]
static SCRATCH: [(&str, Call); 26] = [
    // shows                              call
    ("a new word",                        Read(0x0, 4, 0)),
    ("4 bytes",                           Write(0x0, 4, 0x9_1234_5678, false)),
    ("32 bits are kept",                  Read(0x0, 4, 0x1234_5678)),
    ("the low 16 bits",                   Read(0x0, 2, 0x5678)),
    ("the low 8 bits",                    Read(0x0, 1, 0x78)),
    ("2 bytes",                           Write(0x0, 2, 0xabcd_ef01, false)),
    ("2 bytes clear the upper bits",      Read(0x0, 4, 0xef01)),
    ("1 byte",                            Write(0x0, 1, 0x1ff, false)),
    ("1 byte clears the upper bits",      Read(0x0, 4, 0xff)),
    ("another word, no line",             Write(0x38, 4, 7, false)),
    ("the other word",                    Read(0x38, 4, 7)),
    ("the last word with 0, no line",     Write(0x3c, 4, 0, false)),
    ("the last word with low bits 0",     Write(0x3c, 1, 0x100, false)),
    ("the last word, the line",           Write(0x3c, 1, 0x101, true)),
    ("4 bytes of the last word",          Write(0x3c, 4, 5, true)),
    ("the last word",                     Read(0x3c, 4, 5)),
    ("an odd offset keeps nothing",       Write(0x3e, 2, 9, false)),
    ("an odd offset reads 0",             Read(0x1, 1, 0)),
    ("3 bytes keep nothing",              Write(0x3c, 3, 9, false)),
    ("8 bytes keep nothing",              Write(0x38, 8, 9, false)),
    ("8 bytes read 0",                    Read(0x38, 8, 0)),
    ("the words stand",                   Read(0x38, 4, 7)),
    ("the last word stands",              Read(0x3c, 4, 5)),
    ("the first word stands",             Read(0x0, 4, 0xff)),
    ("an input byte does nothing",        Input(1, false)),
    ("no word has it",                    Read(0x0, 4, 0xff)),
];

#[rattlefmt::skip]
static TICKER: [(&str, Call); 19] = [
    // shows                              call
    ("a new COUNT",                       Read(0x0, 4, 0)),
    ("a new PERIOD",                      Read(0x4, 4, 0)),
    ("PERIOD 2",                          Write(0x4, 4, 2, false)),
    ("PERIOD is kept",                    Read(0x4, 4, 2)),
    ("the first input, no line",          Input(0xff, false)),
    ("COUNT 1",                           Read(0x0, 4, 1)),
    ("the second input, the line",        Input(0x0, true)),
    ("COUNT 2",                           Read(0x0, 1, 2)),
    ("COUNT ignores writes",              Write(0x0, 4, 9, false)),
    ("COUNT 2 still",                     Read(0x0, 2, 2)),
    ("8 bytes keep nothing",              Write(0x4, 8, 3, false)),
    ("an odd offset keeps nothing",       Write(0x5, 1, 3, false)),
    ("PERIOD 2 still",                    Read(0x4, 1, 2)),
    ("8 bytes read 0",                    Read(0x0, 8, 0)),
    ("PERIOD 0",                          Write(0x4, 4, 0, false)),
    ("PERIOD 0 raises no line",           Input(0x1, false)),
    ("COUNT 3",                           Read(0x0, 4, 3)),
    ("PERIOD of 2 bytes is 4",            Write(0x4, 2, 0x1_0004, false)),
    ("COUNT 4, the line",                 Input(0x1, true)),
];

/// Whether the call lies in the port's bytes, and answers as it is to.
fn is_met(port: &mut Box<dyn Port>, call: &Call) -> bool
    requires { 1 ≤ spare port.old }
    ensures { spare port.old ≤ spare port.new + 1 }
{
    match *call {
        Read(offset, width, value) if width <= 8 && offset <= 64 - width => {
            port.read(offset, width) == value
        }
        Write(offset, width, value, line) if width <= 8 && offset <= 64 - width => {
            port.write(offset, width, value) == line
        }
        Input(byte, line) => port.input(byte) == line,
        Read(..) | Write(..) => false,
    }
}

/// Makes room, and makes the calls in turn.
fn check(
    rt: &impl Abort,
    alloc: Global,
    port: &mut Box<dyn Port>,
    kind: PortKind,
    calls: &[(&str, Call)],
) -> Result<(), OutOfMemory>
    requires { byte_count (state port.old) ≤ 2000000 }
{
    assert!(rt; port.kind() == kind && calls.len() <= 200);
    port.reserve(alloc, 100)?;
    for (shows, call) in calls {
        assert!(rt; is_met(port, call), "{shows}");
    }
    Ok(())
}

/// Asks for all bytes that were put out.
fn check_output(rt: &impl Abort, port: &Box<dyn Port>, output: &[u8]) {
    assert!(rt; port.out_len() as usize == output.len());
    for (i, byte) in output.iter().enumerate() {
        assert_eq!(rt; port.out_at(i as u32), *byte);
    }
}

#[test]
fn three_kinds(rt: HostRuntime) -> Result<(), Fail> {
    let alloc = rt.alloc();
    let mut ports: Vec<Box<dyn Port>> = Vec::new(alloc);
    ports.push(Box::new(alloc, ConsolePort::new(alloc))?)?;
    ports.push(Box::new(alloc, ScratchPort::new())?)?;
    ports.push(Box::new(alloc, TickerPort::new())?)?;

    check(
        &rt,
        alloc,
        &mut ports[0],
        PortKind::Console,
        CONSOLE.as_slice(),
    )?;
    check(
        &rt,
        alloc,
        &mut ports[1],
        PortKind::Scratch,
        SCRATCH.as_slice(),
    )?;
    check(
        &rt,
        alloc,
        &mut ports[2],
        PortKind::Ticker,
        TICKER.as_slice(),
    )?;
    check_output(&rt, &ports[0], &[0x34, 0x61]);
    check_output(&rt, &ports[1], &[]);
    check_output(&rt, &ports[2], &[]);
    Ok(())
}
