//! The bounds of the integers of a configuration.
ghost use Rattle.std.specs.Prelude.{◌≡◌, ◌<◌, pos};

use bao_types::{ADDRESS_SPACE_END, FRAME_SIZE, GRANULE, ID_END, PORT_SIZE};

/// The bytes of an instruction.
pub const INSTRUCTION_SIZE: u64 = 4;

/// Which integers may stand at a row of the key table: those from `least` to `most`, both included, that are
/// multiples of `multiple`.
#[derive(Clone, Copy, Debug, PartialEq, Eq)]
pub struct Bounds {
    pub least: u64,
    pub most: u64,
    /// Above 0.
    pub multiple: u64,
}

impl Bounds {
    ghost use Rattle.bao_config.specs.Bounds.{is_in_bounds};

    /// Whether the number is within the bounds, both included, and a multiple of the stated one.
    pub fn admits(&self, n: u64) -> bool
        requires { 0 < self.now.multiple }
        ensures { result ≡ is_in_bounds self.now (pos n) }
    {
        self.least <= n && n <= self.most && n % self.multiple == 0
    }
}

/// The versions of the key table that there are.
pub const VERSION: Bounds = Bounds {
    least: 1,
    most: 1,
    multiple: 1,
};

/// The first address of a range, which is a number of granules.
pub const BASE: Bounds = Bounds {
    least: 0,
    most: ADDRESS_SPACE_END - GRANULE,
    multiple: GRANULE,
};

/// The number of bytes of a range, which is a number of granules.
pub const SIZE: Bounds = Bounds {
    least: GRANULE,
    most: ADDRESS_SPACE_END,
    multiple: GRANULE,
};

/// The number of EL2 protection regions of a core.
pub const ENTRIES: Bounds = Bounds {
    least: 1,
    most: 32,
    multiple: 1,
};

/// The address of a frame of the interrupt controller.
pub const FRAME: Bounds = Bounds {
    least: FRAME_SIZE,
    most: ADDRESS_SPACE_END - FRAME_SIZE,
    multiple: FRAME_SIZE,
};

/// A place in the standard list of ports.
pub const PORT_ID: Bounds = Bounds {
    least: 0,
    most: 15,
    multiple: 1,
};

/// The address of a port.
pub const PORT_BASE: Bounds = Bounds {
    least: 0,
    most: ADDRESS_SPACE_END - PORT_SIZE,
    multiple: PORT_SIZE,
};

/// An interrupt number that is shared by all cores.
pub const INTERRUPT: Bounds = Bounds {
    least: 32,
    most: ID_END as u64 - 1,
    multiple: 1,
};

/// How many events a shared memory has.
pub const EVENTS: Bounds = Bounds {
    least: 1,
    most: 8,
    multiple: 1,
};

/// The address of an instruction.
pub const INSTRUCTION: Bounds = Bounds {
    least: 0,
    most: ADDRESS_SPACE_END - INSTRUCTION_SIZE,
    multiple: INSTRUCTION_SIZE,
};

/// A place in the list of cores.
pub const CORE: Bounds = Bounds {
    least: 0,
    most: 7,
    multiple: 1,
};

/// A place in the list of shared memories.
pub const SHARED: Bounds = Bounds {
    least: 0,
    most: 7,
    multiple: 1,
};
