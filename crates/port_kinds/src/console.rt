ghost use Rattle.std.specs.Prelude.{◌≡◌};
ghost use Rattle.ports.specs.PortState.{new_port, PortState};
ghost use Rattle.port_kinds.specs.Console.{console_state};

use crate::register::{is_register_width, low_bits};
use bao_types::OutOfMemory;
use ports::{Port, PortKind};
use std::alloc::Global;
use std::collections::VecDeque;
use std::marker::Model;

/// A write puts a byte out; a read takes a waiting one.
const DATA: u32 = 0x0;

/// Bit 0: whether a byte waits.
const STATUS: u32 = 0x4;

/// Bit 0: whether an input byte raises the line.
const CONTROL: u32 = 0x8;

/// A port that takes input bytes in and puts bytes out.
#[derive(Debug, Drop)]
pub struct ConsolePort {
    /// Bit 0 of the control register.
    control: bool,
    /// All bytes that were written, oldest first.
    output: Vec<u8>,
    /// The input bytes that weren't read yet, oldest first.
    waiting: VecDeque<u8>,
    /// How many more bytes either list has the memory for.
    room: u32,
}

impl Model for ConsolePort {
    ghost use Rattle.std.specs.Prelude.{◌+◌, ◌≤◌, length, vec_capacity};
    ghost use Rattle.std.specs.VecDeque.{deque_capacity, deque_len};
    ghost use Rattle.port_kinds.specs.Console.{ConsoleData};

    ghost Value = { ConsoleData };

    ghost view = { λ c. record {
      control = c.control;
      output = c.output.items;
      waiting = c.waiting.items;
      room = c.room;
    } };

    ghost invariant = { λ c. record {
      output_room : length c.output.items + c.room ≤ vec_capacity c.output;
      waiting_room : deque_len c.waiting + c.room ≤ deque_capacity c.waiting;
      bound : length c.output.items + length c.waiting.items + c.room ≤ 4000000;
    } };
}

impl ConsolePort {
    /// All registers are 0, and there is no byte and no room for one. This takes no memory.
    pub fn new(alloc: Global) -> Self
        ensures state { console_state result ≡ new_port PortKind.Console }
        ensures room { result.room ≡ 0 }
    {
        ConsolePort {
            control: false,
            output: Vec::new(alloc),
            waiting: VecDeque::new(alloc),
            room: 0,
        }
    }
}

impl Port for ConsolePort {
    ghost state = { console_state };

    ghost spare = { λ c. c.room };

    fn kind(&self) -> PortKind {
        PortKind::Console
    }

    fn reserve(&mut self, _alloc: Global, events: u32) -> Result<(), OutOfMemory> {
        let room = 2 * events;
        if self.room < room {
            self.output.reserve(room as usize)?;
            self.waiting.reserve(room as usize)?;
            self.room = room;
        }
        Ok(())
    }

    fn read(&mut self, offset: u32, width: u32) -> u64 {
        if !is_register_width(width) {
            return 0;
        }
        let value = match offset {
            DATA => u64::from(self.waiting.pop_front().unwrap_or(0)),
            STATUS => u64::from(!self.waiting.is_empty()),
            CONTROL => u64::from(self.control),
            _ => 0,
        };
        u64::from(low_bits(width, value))
    }

    fn write(&mut self, offset: u32, width: u32, value: u64) -> bool {
        if is_register_width(width) {
            match offset {
                DATA => {
                    self.room -= 1;
                    self.output.push_reserved((value % 256) as u8);
                }
                CONTROL => self.control = value % 2 == 1,
                _ => {}
            }
        }
        false
    }

    fn input(&mut self, byte: u8) -> bool {
        self.room -= 1;
        self.waiting.push_back_reserved(byte);
        self.control
    }

    fn out_len(&self) -> u32 {
        self.output.len() as u32
    }

    fn out_at(&self, i: u32) -> u8 {
        self.output[i as usize]
    }
}
