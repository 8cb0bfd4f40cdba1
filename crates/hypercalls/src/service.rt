ghost use Rattle.std.specs.Prelude.{◌≡◌};
ghost use Rattle.hypercalls.specs.Calls.{service_of};

/// What a VM may ask for.
#[derive(Clone, Copy, Debug, PartialEq, Eq)]
pub enum Service {
    /// Rings an event of a shared memory: its window's place in the VM's list and the event. No call of PSCI.
    Ring,
    /// PSCI_VERSION
    Version,
    /// CPU_OFF: turns the calling core off.
    CpuOff,
    /// CPU_ON: target, entry and argument.
    CpuOn,
    /// AFFINITY_INFO: target and lowest affinity level.
    AffinityInfo,
    /// SYSTEM_OFF: turns all cores of the VM off.
    SystemOff,
}

/// The id of the doorbell, in the range that SMCCC (Arm DEN 0028) leaves to the hypervisor's vendor.
const RING: u64 = 0xc600_0001;

/// The ids of PSCI's functions, those of 32-bit calls from 0x8400_0000 on, those of 64-bit calls from 0xc400_0000 on.
const PSCI_VERSION: u64 = 0x8400_0000;

const CPU_OFF: u64 = 0x8400_0002;

const SYSTEM_OFF: u64 = 0x8400_0008;

const CPU_ON: u64 = 0xc400_0003;

const AFFINITY_INFO: u64 = 0xc400_0004;

/// The service that an id names, None exactly where it names none.
pub fn service_of(id: u64) -> Option<Service>
    ensures { result ≡ service_of id }
{
    match id {
        RING => Some(Service::Ring),
        PSCI_VERSION => Some(Service::Version),
        CPU_OFF => Some(Service::CpuOff),
        CPU_ON => Some(Service::CpuOn),
        AFFINITY_INFO => Some(Service::AffinityInfo),
        SYSTEM_OFF => Some(Service::SystemOff),
        _ => None,
    }
}
