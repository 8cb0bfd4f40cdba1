ghost use Rattle.std.specs.Prelude.{◌≡◌};
ghost use Rattle.bao_types.specs.Shape.{is_port_of};

use crate::ByteRange;
use arrayvec::ArrayVec;

/// The number of bytes of a device port.
pub const PORT_SIZE: u64 = 64;

/// The most events that a board takes.
pub const EVENT_LIMIT: u32 = 1_000_000;

/// The most memory that the banks may have together: 64 MiB.
pub const MEMORY_LIMIT: u64 = 0x400_0000;

/// One physical core of the board.
#[derive(Clone, Copy, Debug, Default, PartialEq, Eq)]
pub struct CorePlace {
    /// How many EL2 protection regions the core has, 1 to 32.
    pub entries: u8,
    /// The number that the core's guest sees as its own: the virtual core number, 0 for a core of no VM.
    pub affinity: u8,
}

/// One device port as the board has it, `PORT_SIZE` bytes from `base` on. Unlike a port of the configuration, which
/// names none of its users, it says which cores its line reaches.
#[derive(Clone, Copy, Debug, Default, PartialEq, Eq)]
pub struct PortSpot {
    /// 0 to 15: the place in the standard list of ports.
    pub id: u8,
    /// The address of the port's first byte, a multiple of 64.
    pub base: u64,
    /// The interrupt number of the port's line, 32 to 95.
    pub spi: u16,
    /// The cores of the VM that owns the port, one bit each; 0 for a port of no VM.
    pub cores: u8,
}

impl PortSpot {
    ghost use Rattle.bao_types.specs.Shape.{port_range};

    /// The bytes of the port.
    pub fn range(&self) -> ByteRange
        ensures { result ≡ port_range self.now.base }
    {
        ByteRange {
            base: self.base,
            size: PORT_SIZE,
        }
    }
}

/// Whether the byte at `at` is one of a port's.
pub fn is_port(ports: &[PortSpot], at: u64) -> bool
    ensures { result ≡ is_port_of ports.now at }
{
    ports.iter().any(|port| port.range().contains(at))
}

/// What a board is to be fitted with.
#[derive(Clone, Debug, Default, PartialEq, Eq, Drop)]
pub struct Shape {
    /// The memory banks.
    pub banks: ArrayVec<ByteRange, 8>,
    /// The cores, by their number.
    pub cores: ArrayVec<CorePlace, 8>,
    pub ports: ArrayVec<PortSpot, 16>,
    /// The ranges that hold memory in use: the VMs' regions, then the shared windows.
    pub used: ArrayVec<ByteRange, 136>,
    /// How many events the board is to take, at most `EVENT_LIMIT`.
    pub events: u32,
}
