ghost use Rattle.std.specs.Prelude.{◌≡◌, List, ℕ};
ghost use Rattle.ports.specs.PortState.{new_port, PortState, Scratch};

use crate::register::{is_register_width, low_bits};
use bao_types::OutOfMemory;
use ports::{Port, PortKind};
use std::alloc::Global;
use std::marker::Model;

/// The word whose writes may raise the line.
const LINE: u32 = 0x3c;

/// A port of sixteen words of 32 bits that keep what is written.
#[derive(Debug, Drop)]
pub struct ScratchPort {
    words: [u32; 16],
}

impl Model for ScratchPort {
    ghost use Rattle.std.specs.Prelude.{List, ℕ};

    ghost Value = { List ℕ };

    ghost view = { λ s. s.words };

    ghost inverse = { λ words. record { words = words } };
}

impl ScratchPort {
    /// All words are 0.
    pub fn new() -> Self
        ensures { Scratch result ≡ new_port PortKind.Scratch }
    {
        ScratchPort { words: [0; 16] }
    }
}

impl Port for ScratchPort {
    ghost state = { λ s. Scratch s };

    // a scratch port needs no room, so there is always as much as `reserve` is asked for at most
    ghost spare = { λ _. 2000000 };

    fn kind(&self) -> PortKind {
        PortKind::Scratch
    }

    fn reserve(&mut self, _alloc: Global, _events: u32) -> Result<(), OutOfMemory> {
        Ok(())
    }

    fn read(&mut self, offset: u32, width: u32) -> u64 {
        if offset % 4 != 0 || !is_register_width(width) {
            return 0;
        }
        u64::from(low_bits(width, u64::from(self.words[offset as usize / 4])))
    }

    fn write(&mut self, offset: u32, width: u32, value: u64) -> bool {
        if offset % 4 != 0 || !is_register_width(width) {
            return false;
        }
        let taken = low_bits(width, value);
        self.words[offset as usize / 4] = taken;
        offset == LINE && taken != 0
    }

    fn input(&mut self, _byte: u8) -> bool {
        false
    }

    fn out_len(&self) -> u32 {
        0
    }

    // Nothing is ever put out, so no caller of the trait gets here.
    fn out_at(&self, _i: u32) -> u8
        ensures { result ≡ 0 }
    {
        0
    }
}
