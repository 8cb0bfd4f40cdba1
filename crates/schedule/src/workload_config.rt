//! The configuration of a generated workload.
ghost use Rattle.std.specs.Prelude.{◌≡◌, ◌<◌, ◌≤◌, ◌+◌, ◌*◌, IfOk};
ghost use Rattle.bao_config.specs.Config.{config_data};
ghost use Rattle.bao_config.specs.Data.{platform_data, vm_data};
ghost use Rattle.schedule.specs.Workload.{config_of, platform_of, port_at, vm_at, load_at};

use arrayvec::ArrayVec;
use bao_config::{Config, Dev, MapRegion, Platform, PortPlace, Vm};
use bao_types::{ByteRange, Label, OutOfMemory, PORT_SIZE};
use std::alloc::Global;

/// How many bytes the only bank has.
const BANK_SIZE: u64 = 0x100_0000;
/// The number of EL2 protection regions of a core.
const ENTRIES: u8 = 16;
/// Where a VM finds the emulated interrupt distributor.
const GICD: u64 = 0xaf00_0000;
/// Where a VM finds the first of its emulated redistributors.
const GICR: u64 = 0xaf10_0000;
/// The address of the first port; the others follow it.
const FIRST_PORT: u64 = 0x9c09_0000;
/// The interrupt number of the first port; the others have the next ones.
const FIRST_SPI: u16 = 32;
/// The interrupt number that a port has in its VM.
const IRQ: u16 = 40;
/// How many bytes the hypervisor has, from address 0 on.
const HYPERVISOR_SIZE: u64 = 0x1_0000;
/// How far the memory of a VM is from that of the one before, and that of the first VM from address 0.
const STRIDE: u64 = 0x10_0000;
/// How many bytes of memory a VM has.
const MEMORY_SIZE: u64 = 0x1_0000;
/// How many of them are for its image.
const ROOM: u64 = 0x1000;

/// The configuration of this many VMs, each with a core and a port of its own.
pub(crate) fn make_config(alloc: Global, count: u8) -> Result<Config, OutOfMemory>
    requires few { 2 ≤ count }
    requires many { count ≤ 4 }
    ensures { IfOk result (λ config. config_data config ≡ config_of count) }
{
    let mut vms = Vec::new(alloc);
    for v in 0..count {
        let vm = make_vm(alloc, v)?;
        if vms.push(vm).is_err() {
            return Err(OutOfMemory);
        }
    }
    Ok(Config {
        version: 1,
        platform: make_platform(count),
        hyp: ByteRange {
            base: 0,
            size: HYPERVISOR_SIZE,
        },
        shmems: ArrayVec::new(),
        vms,
    })
}

/// A platform with this many cores and ports.
fn make_platform(count: u8) -> Platform
    requires { count ≤ 4 }
    ensures { platform_data result ≡ platform_of count }
{
    let mut banks = ArrayVec::new();
    banks.push(ByteRange {
        base: 0,
        size: BANK_SIZE,
    });
    let mut cores = ArrayVec::new();
    let mut ports = ArrayVec::new();
    for v in 0..count {
        cores.push(ENTRIES);
        ports.push(port_at(v));
    }
    Platform {
        banks,
        cores,
        gicd: GICD,
        gicr: GICR,
        ports,
    }
}

/// The port of the VM at a place.
fn port_at(v: u8) -> PortPlace
    requires { v < 4 }
    ensures { result ≡ port_at v }
{
    PortPlace {
        id: v,
        base: FIRST_PORT + PORT_SIZE * u64::from(v),
        spi: FIRST_SPI + u16::from(v),
    }
}

/// The VM at a place.
fn make_vm(alloc: Global, v: u8) -> Result<Vm, OutOfMemory>
    requires { v < 4 }
    ensures { IfOk result (λ vm. vm_data vm ≡ vm_at v) }
{
    let name = format!(in alloc; "g{v}")?;
    let image = format!(in alloc; "g{v}.bin")?;
    let load = STRIDE * (u64::from(v) + 1);
    let mut cores = ArrayVec::new();
    cores.push(v);
    let mut regions = ArrayVec::new();
    regions.push(MapRegion {
        range: ByteRange {
            base: load,
            size: MEMORY_SIZE,
        },
        write: true,
        exec: true,
    });
    let mut devs = ArrayVec::new();
    devs.push(Dev { port: v, irq: IRQ });
    Ok(Vm {
        name: Label::new(name),
        image: Label::new(image),
        place: ByteRange {
            base: load,
            size: ROOM,
        },
        start: load,
        cores,
        regions,
        devs,
        ipcs: ArrayVec::new(),
        guards: ArrayVec::new(),
    })
}
