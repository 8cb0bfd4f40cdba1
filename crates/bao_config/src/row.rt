//! The rows of the key table by name, as a `Spot` tells them. A row `BANKS` is the array, and `BANK` one item of it.

pub const DOCUMENT: u8 = 1;

pub const VERSION: u8 = 2;

pub const PLATFORM: u8 = 3;

pub const BANKS: u8 = 4;

pub const BANK: u8 = 5;

pub const BANK_BASE: u8 = 6;

pub const BANK_SIZE: u8 = 7;

pub const PLATFORM_CORES: u8 = 8;

pub const PLATFORM_CORE: u8 = 9;

pub const GICD: u8 = 10;

pub const GICR: u8 = 11;

pub const PORTS: u8 = 12;

pub const PORT: u8 = 13;

pub const PORT_ID: u8 = 14;

pub const PORT_BASE: u8 = 15;

pub const PORT_SPI: u8 = 16;

pub const HYPERVISOR: u8 = 17;

pub const HYPERVISOR_BASE: u8 = 18;

pub const HYPERVISOR_SIZE: u8 = 19;

pub const SHMEMS: u8 = 20;

pub const SHMEM: u8 = 21;

pub const SHMEM_BASE: u8 = 22;

pub const SHMEM_SIZE: u8 = 23;

pub const SHMEM_EVENTS: u8 = 24;

pub const VMS: u8 = 25;

pub const VM: u8 = 26;

pub const VM_NAME: u8 = 27;

pub const VM_IMAGE: u8 = 28;

pub const VM_LOAD: u8 = 29;

pub const VM_ROOM: u8 = 30;

pub const VM_ENTRY: u8 = 31;

pub const VM_CORES: u8 = 32;

pub const VM_CORE: u8 = 33;

pub const REGIONS: u8 = 34;

pub const REGION: u8 = 35;

pub const REGION_BASE: u8 = 36;

pub const REGION_SIZE: u8 = 37;

pub const REGION_ACCESS: u8 = 38;

pub const DEVS: u8 = 39;

pub const DEV: u8 = 40;

pub const DEV_PORT: u8 = 41;

pub const DEV_IRQ: u8 = 42;

pub const IPCS: u8 = 43;

pub const IPC: u8 = 44;

pub const IPC_SHMEM: u8 = 45;

pub const IPC_ACCESS: u8 = 46;

pub const IRQS: u8 = 47;

pub const IRQ: u8 = 48;

pub const GUARDS: u8 = 49;

pub const GUARD: u8 = 50;

pub const GUARD_BASE: u8 = 51;

pub const GUARD_SIZE: u8 = 52;
