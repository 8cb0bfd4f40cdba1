ghost use Rattle.std.specs.Prelude.{◌≡◌, ◌<◌, Some, length, slice_get};
ghost use Rattle.bao_config.specs.Config.{config_data};
ghost use Rattle.bao_config.specs.Data.{vm_data};
ghost use Rattle.hypercalls.specs.Calls.{affinity_info, call_of, cpu_on, doorbell, power_in};

use crate::{Outcome, Power, Service, service_of};
use bao_config::{Config, Vm};

/// The version of PSCI: 1.0, the major version in bits 31 to 16.
const VERSION: u64 = 0x1_0000;

/// The answer to a call that asks for nothing that is known: NOT_SUPPORTED of PSCI, -1 as 64-bit two's complement.
pub const NOT_SUPPORTED: u64 = u64::MAX;

/// Errors of PSCI, as 64-bit two's complement: -2 and -4.
const INVALID_PARAMETERS: u64 = u64::MAX - 1;

const ALREADY_ON: u64 = u64::MAX - 3;

/// What AFFINITY_INFO tells of a core. One that is parked isn't off.
const IS_ON: u64 = 0;

const IS_OFF: u64 = 1;

/// What comes of a call of the VM at a place, whose virtual cores have these powers, with x0 to x3 of the calling core. The
/// low 32 bits of x0 are the id of what is asked for.
pub fn call(config: &Config, vm: u8, power: &[Power; 8], regs: [u64; 4]) -> Outcome
    requires vm { vm < length (config_data config.now).vms }
    ensures { result ≡ call_of (config_data config.now) vm power.now regs }
{
    let own = &config.vms[usize::from(vm)];
    match service_of(regs[0] % 0x1_0000_0000) {
        Some(Service::Ring) => doorbell(config, own, regs[1], regs[2]),
        Some(Service::Version) => Outcome::Answer(VERSION),
        Some(Service::CpuOff) => Outcome::Off,
        Some(Service::CpuOn) => cpu_on(own, power, regs[1], regs[2], regs[3]),
        Some(Service::AffinityInfo) => affinity_info(own, power, regs[1], regs[2]),
        Some(Service::SystemOff) => Outcome::SystemOff,
        None => Outcome::Answer(NOT_SUPPORTED),
    }
}

/// Rings an event of the shared memory on which the VM has the window at a place.
fn doorbell(config: &Config, vm: &Vm, place: u64, event: u64) -> Outcome
    ensures { result ≡ doorbell (config_data config.now) (slice_get (vm_data vm.now).ipcs place) event }
{
    if place >= vm.ipcs.len() as u64 {
        return Outcome::Answer(INVALID_PARAMETERS);
    }
    let shmem = vm.ipcs[place as usize].shmem;
    match config.shmems.as_slice().get(usize::from(shmem)) {
        Some(memory) if event < u64::from(memory.events) => Outcome::Ring {
            shmem,
            event: event as u8,
        },
        _ => Outcome::Answer(INVALID_PARAMETERS),
    }
}

/// The power of the VM's core of this number, None exactly where the VM has no such core.
fn power_in(vm: &Vm, power: &[Power; 8], core: u64) -> Option<Power>
    ensures { result ≡ power_in (vm_data vm.now) power.now core }
{
    if core >= vm.cores.len() as u64 {
        return None;
    }
    Some(power[core as usize])
}

/// Turns a core on, if it is off.
fn cpu_on(vm: &Vm, power: &[Power; 8], core: u64, start: u64, arg: u64) -> Outcome
    ensures { result ≡ cpu_on (power_in (vm_data vm.now) power.now core) core start arg }
{
    match power_in(vm, power, core) {
        None => Outcome::Answer(INVALID_PARAMETERS),
        Some(Power::Off) => Outcome::On {
            core: core as u8,
            start,
            arg,
        },
        Some(Power::On | Power::Parked { .. }) => Outcome::Answer(ALREADY_ON),
    }
}

/// Tells whether a core is on. Affinity levels above 0 would be of groups of cores, which a VM doesn't have.
fn affinity_info(vm: &Vm, power: &[Power; 8], core: u64, level: u64) -> Outcome
    ensures { result ≡ affinity_info (power_in (vm_data vm.now) power.now core) level }
{
    if level != 0 {
        return Outcome::Answer(INVALID_PARAMETERS);
    }
    match power_in(vm, power, core) {
        None => Outcome::Answer(INVALID_PARAMETERS),
        Some(Power::Off) => Outcome::Answer(IS_OFF),
        Some(Power::On | Power::Parked { .. }) => Outcome::Answer(IS_ON),
    }
}
