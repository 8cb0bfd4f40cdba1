//! A configuration, as the crates above read it.
ghost use Rattle.std.specs.Prelude.{map};
ghost use Rattle.bao_config.specs.Data.{platform_data, vm_data};
ghost use Rattle.bao_config.specs.Fits.{ConfigFits};

use arrayvec::ArrayVec;
use bao_types::{ByteRange, Label};

/// What the machine has.
#[derive(Debug, PartialEq, Eq, Drop)]
pub struct Platform {
    /// The memory banks.
    pub banks: ArrayVec<ByteRange, 8>,
    /// For each core its number of EL2 protection regions, 1 to 32.
    pub cores: ArrayVec<u8, 8>,
    /// Where a VM finds the emulated interrupt distributor.
    pub gicd: u64,
    /// Where a VM finds the first of its emulated redistributors.
    pub gicr: u64,
    pub ports: ArrayVec<PortPlace, 16>,
}

/// A device port as the configuration lists it, 64 bytes from `base` on. Which cores its line reaches follows from the
/// VMs; the board's `PortSpot` says that too.
#[derive(Clone, Copy, Debug, Default, PartialEq, Eq)]
pub struct PortPlace {
    /// 0 to 15: the place in the standard list of ports.
    pub id: u8,
    /// The address of the port's first byte.
    pub base: u64,
    /// The interrupt number of the port's line, 32 to 95.
    pub spi: u16,
}

/// Memory that several VMs may share.
#[derive(Clone, Copy, Debug, Default, PartialEq, Eq)]
pub struct Shmem {
    pub range: ByteRange,
    /// How many events its users can ring, 1 to 8.
    pub events: u8,
}

/// Memory of one VM.
#[derive(Clone, Copy, Debug, Default, PartialEq, Eq)]
pub struct MapRegion {
    pub range: ByteRange,
    pub write: bool,
    pub exec: bool,
}

/// A port that a VM is given.
#[derive(Clone, Copy, Debug, Default, PartialEq, Eq)]
pub struct Dev {
    /// The port's id, 0 to 15.
    pub port: u8,
    /// The interrupt number that the port's line has in the VM, 32 to 95.
    pub irq: u16,
}

/// A VM's window on a shared memory.
#[derive(Debug, Default, PartialEq, Eq, Drop)]
pub struct Ipc {
    /// The place of the shared memory in the configuration's list, 0 to 7.
    pub shmem: u8,
    pub write: bool,
    /// The VM's interrupt number for each event, 32 to 95.
    pub irqs: ArrayVec<u16, 8>,
}

/// A virtual machine.
#[derive(Debug, PartialEq, Eq, Drop)]
pub struct Vm {
    /// 1 to 16 bytes of `a` to `z`, `0` to `9`, `_` and `-`.
    pub name: Label,
    /// The name of the image's file, 1 to 255 bytes.
    pub image: Label,
    /// Where the image is loaded, and how many bytes it may have.
    pub place: ByteRange,
    /// The address of the first instruction.
    pub start: u64,
    /// The physical core of each virtual core, 0 to 7.
    pub cores: ArrayVec<u8, 8>,
    pub regions: ArrayVec<MapRegion, 16>,
    pub devs: ArrayVec<Dev, 16>,
    pub ipcs: ArrayVec<Ipc, 8>,
    /// Ranges that the VM has no access to, whatever else gives it.
    pub guards: ArrayVec<ByteRange, 16>,
}

/// A configuration. Each of its numbers, texts and lists is one that the key table allows.
#[derive(Debug, PartialEq, Eq, Drop)]
pub struct Config {
    /// The version of the key table: 1.
    pub version: u8,
    pub platform: Platform,
    /// The memory of the hypervisor.
    pub hyp: ByteRange,
    pub shmems: ArrayVec<Shmem, 8>,
    pub vms: Vec<Vm>,
    pub ghost fits: { ConfigFits (record {
      version = version;
      platform = platform_data platform;
      hyp = hyp;
      shmems = shmems.items;
      vms = map vm_data vms.items;
    }) },
}
