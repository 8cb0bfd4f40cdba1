//! A gap between the ports, in which an access needs no look at each port.
ghost use Rattle.std.specs.Prelude.{◌≡◌, ℕ, ◌+◌, ◌≤◌, ◌<◌, ◌^◌, ◌&&◌, nat_le, false};
ghost use Rattle.bao_types.specs.ByteRange.{is_within};
ghost use Rattle.bao_types.specs.Shape.{is_port_of, port_range};
ghost use Rattle.std.specs.Bool.{OnTrue};
ghost use Rattle.sim_board.specs.Gap.{IsGap, IsBeside};

use bao_types::{PORT_SIZE, PortSpot};

/// The addresses from `first` to `last`, both included. Contracts ask that none of them is a port's.
#[derive(Clone, Copy)]
pub struct Gap {
    pub first: u64,
    pub last: u64,
}

impl Gap {
    /// No addresses.
    pub const NONE: Gap = Gap {
        first: u64::MAX,
        last: 0,
    };

    /// A gap that has the byte at `at`; one of no addresses where a port has that byte.
    pub fn around(ports: &[PortSpot], at: u64) -> Gap
        ensures free { IsGap ports.now result }
        ensures around { is_port_of ports.now at ≡ false → (result.first ≤ at) × (at ≤ result.last) }
    {
        let mut gap = Gap {
            first: 0,
            last: u64::MAX,
        };
        for port in ports {
            gap = gap.beside(port.base, at);
        }
        gap
    }

    /// What of the gap lies on the side of a port on which `at` is.
    fn beside(self, port: u64, at: u64) -> Gap
        ensures first { self.first ≤ result.first }
        ensures last { result.last ≤ self.last }
        ensures apart { IsBeside port result }
        ensures around { is_within (port_range port) at ≡ false → self.first ≤ at → at ≤ self.last →
            (result.first ≤ at) × (at ≤ result.last) }
    {
        if at < port {
            return Gap {
                first: self.first,
                last: self.last.min(port - 1),
            };
        }
        if at - port < PORT_SIZE {
            return Gap::NONE;
        }
        Gap {
            first: self.first.max(port + PORT_SIZE),
            last: self.last,
        }
    }

    /// Whether this many bytes from `at` on and the one after them lie in the gap.
    #[inline(always)]
    pub fn has_all(&self, at: u64, count: u8) -> bool
        ensures value { result ≡ (nat_le self.now.first at && nat_le (at + count) self.now.last) }
        ensures first { OnTrue result (self.now.first ≤ at) }
        ensures last { OnTrue result (at + count ≤ self.now.last) }
        ensures fits { OnTrue result (at + count < 2 ^ 64) }
    {
        self.first <= at && at <= self.last && u64::from(count) <= self.last - at
    }
}
