ghost use Rattle.std.specs.Prelude.{◌≡◌};
ghost use Rattle.ports.specs.PortState.{new_port, PortState, Ticker};

use crate::register::{is_register_width, low_bits};
use bao_types::OutOfMemory;
use ports::{Port, PortKind};
use std::alloc::Global;
use std::marker::Model;

/// COUNT, read only.
const COUNT: u32 = 0x0;

const PERIOD: u32 = 0x4;

/// A port that counts input bytes, and raises its line at each PERIOD of them.
#[derive(Debug, Drop)]
pub struct TickerPort {
    /// The number of input bytes, modulo 2^32.
    count: u32,
    /// 0 for no line at all.
    period: u32,
}

impl Model for TickerPort {
    ghost use Rattle.ports.specs.PortState.{TickerState};

    ghost Value = { TickerState };

    ghost view = { λ t. record { count = t.count; period = t.period } };

    ghost inverse = { λ t. record { count = t.count; period = t.period } };
}

impl TickerPort {
    /// COUNT and PERIOD are 0.
    pub fn new() -> Self
        ensures { Ticker result ≡ new_port PortKind.Ticker }
    {
        TickerPort {
            count: 0,
            period: 0,
        }
    }
}

impl Port for TickerPort {
    ghost state = { λ t. Ticker t };

    // a ticker needs no room, so there is always as much as `reserve` is asked for at most
    ghost spare = { λ _. 2000000 };

    fn kind(&self) -> PortKind {
        PortKind::Ticker
    }

    fn reserve(&mut self, _alloc: Global, _events: u32) -> Result<(), OutOfMemory> {
        Ok(())
    }

    fn read(&mut self, offset: u32, width: u32) -> u64 {
        if !is_register_width(width) {
            return 0;
        }
        match offset {
            COUNT => u64::from(low_bits(width, u64::from(self.count))),
            PERIOD => u64::from(low_bits(width, u64::from(self.period))),
            _ => 0,
        }
    }

    fn write(&mut self, offset: u32, width: u32, value: u64) -> bool {
        if offset == PERIOD && is_register_width(width) {
            self.period = low_bits(width, value);
        }
        false
    }

    fn input(&mut self, _byte: u8) -> bool {
        self.count = self.count.wrapping_add(1);
        self.period != 0 && self.count % self.period == 0
    }

    fn out_len(&self) -> u32 {
        0
    }

    // Nothing is ever put out, so no caller of the trait gets here.
    fn out_at(&self, _i: u32) -> u8
        ensures { result ≡ 0 }
    {
        0
    }
}

#[cfg(test)]
mod tests {
    use super::TickerPort;
    use ports::Port;

    #[test]
    fn count_wraps(rt: HostRuntime) {
        #[rattlefmt::skip]
        const ROWS: [(&str, u32, bool); 3] = [
            // shows                      PERIOD    line
            ("PERIOD 0, no line",         0,        false),
            ("every PERIOD divides 0",    7,        true),
            ("the greatest PERIOD",       u32::MAX, true),
        ];
        for (shows, period, line) in ROWS {
            let mut ticker = TickerPort {
                count: u32::MAX,
                period,
            };
            assert_eq!(rt; ticker.input(0), line, "{shows}");
            assert_eq!(rt; ticker.read(0x0, 4), 0, "{shows}");
        }
    }
}
