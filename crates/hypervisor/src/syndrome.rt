//! What an exception comes to that goes to EL2, by its syndrome (ARM DDI 0487, "ESR_EL2").
ghost use Rattle.std.specs.Prelude.{◌≡◌, ◌<◌, ◌≤◌, ◌%◌, Some, IfSome};
ghost use Rattle.std.specs.Option.{option_map};
ghost use Rattle.bao_types.specs.Bits.{field};
ghost use Rattle.bao_types.specs.Controller.{frame_size};
ghost use Rattle.bao_config.specs.Config.{config_data};
ghost use Rattle.bao_config.specs.Data.{vm_data};
ghost use Rattle.vgic_emul.specs.Registers.{core_of, offset_of};
ghost use Rattle.vm_model.specs.Duty.{immediate, is_call, is_smc};
ghost use Rattle.vm_model.specs.Frames.{described, frame_access, frame_of, is_described, width_of};
ghost use Rattle.vm_model.specs.Sent.{is_send, is_target, sent_id};
ghost use Rattle.vm_model.specs.Syndrome.{is_of_class};
ghost use Rattle.hypervisor.specs.Access.{access_of, IsAccess};

use bao_config::{Config, Vm};
use exceptions::Class;
use vgic_emul::{FramePlace, frame};

/// An access to a frame of a VM's interrupt controller.
#[derive(Clone, Copy, Debug, PartialEq, Eq)]
pub(crate) struct FrameAccess {
    /// The frame with the byte in it.
    pub place: FramePlace,
    /// In bytes.
    pub width: u32,
    /// The register that is loaded or stored, by its number; 31 is zero.
    pub register: u8,
    /// Whether it stores.
    pub stores: bool,
    /// Whether what is loaded is extended with its sign.
    pub signed: bool,
    /// Whether a load is to a register of 64 bits.
    pub wide: bool,
}

/// Whether the exception is a call, by HVC or SMC.
pub(crate) fn is_call(esr: u64) -> bool
    ensures { result ≡ is_call esr }
{
    if is_of_class(Class::Hvc, esr) {
        return true;
    }
    is_smc(esr)
}

/// Whether it is a call by SMC.
pub(crate) fn is_smc(esr: u64) -> bool
    ensures { result ≡ is_smc esr }
{
    is_of_class(Class::Smc, esr)
}

/// The immediate of the instruction that called.
pub(crate) fn immediate(esr: u64) -> u64
    ensures { result ≡ immediate esr }
{
    esr % (1 << 16)
}

/// Whether the exception is a write of ICC_SGI1R_EL1, which sends interrupts.
pub(crate) fn is_send(esr: u64) -> bool
    ensures { result ≡ is_send esr }
{
    is_of_class(Class::SystemRegister, esr)
}

/// The register whose value such a write has, by its number; 31 is zero.
pub(crate) fn sent_register(esr: u64) -> u8
    ensures value { result ≡ field esr 9 5 }
    ensures bound { result < 32 }
{
    (esr / (1 << 5) % (1 << 5)) as u8
}

/// The id that a value sends.
pub(crate) fn sent_id(value: u64) -> u16
    ensures value { result ≡ sent_id value }
    ensures bound { result < 16 }
{
    (value / (1 << 24) % (1 << 4)) as u16
}

/// Whether a core of a VM is a target of a value that another core sends, or it itself.
pub(crate) fn is_target(own: u8, value: u64, core: u8) -> bool
    requires { core < 8 }
    ensures { result ≡ is_target own value core }
{
    if value / (1 << 40) % 2 == 1 {
        return core != own;
    }
    if value / (1 << 48) % (1 << 8) != 0 || value / (1 << 44) % (1 << 4) != 0 {
        return false;
    }
    if value / (1 << 32) % (1 << 8) != 0 || value / (1 << 16) % (1 << 8) != 0 {
        return false;
    }
    value / (1 << core) % 2 == 1
}

/// The access of a core of a VM that the VM's interrupt controller answers, by the data abort that it made: one that is
/// described, at a multiple of its width in a frame.
pub(crate) fn frame_access(config: &Config, vm: &Vm, esr: u64, far: u64) -> Option<FrameAccess>
    ensures value { option_map access_of result ≡ frame_access (config_data config.now) (Some (vm_data vm.now)) esr far }
    ensures is { IfSome result (λ access. IsAccess (access_of access)) }
{
    if !is_of_class(Class::DataAbortLower, esr) {
        return None;
    }
    if !is_described(esr) {
        return None;
    }
    if far % u64::from(width_of(esr)) != 0 {
        return None;
    }
    match frame_of(config, vm, far) {
        Some(place) => Some(described(esr, place)),
        None => None,
    }
}

/// Whether the syndrome is of this class.
fn is_of_class(class: Class, esr: u64) -> bool
    ensures { result ≡ is_of_class class esr }
{
    esr / (1 << 26) % (1 << 6) == u64::from(class.number())
}

/// Whether the syndrome describes its access: ISV.
fn is_described(esr: u64) -> bool
    ensures { result ≡ is_described esr }
{
    esr / (1 << 24) % 2 == 1
}

/// The width of the access, in bytes: SAS.
fn width_of(esr: u64) -> u32
    ensures value { result ≡ width_of esr }
    ensures least { 1 ≤ result }
    ensures most { result ≤ 8 }
{
    match esr / (1 << 22) % 4 {
        0 => 1,
        1 => 2,
        2 => 4,
        _ => 8,
    }
}

/// The frame of a VM's controller in which the byte lies.
fn frame_of(config: &Config, vm: &Vm, at: u64) -> Option<FramePlace>
    ensures value { result ≡ frame_of (config_data config.now) (Some (vm_data vm.now)) at }
    ensures core { IfSome result (λ place. core_of place < 8) }
    ensures offset { IfSome result (λ place. offset_of place % frame_size ≡ at % frame_size) }
{
    let cores = vm.cores.as_slice().len() as u8;
    frame(config.platform.gicd, config.platform.gicr, cores, at)
}

/// The access that a syndrome describes, in a frame: SRT, WnR, SSE and SF.
fn described(esr: u64, place: FramePlace) -> FrameAccess
    ensures value { access_of result ≡ described esr place }
    ensures register { result.register < 32 }
    ensures place { result.place ≡ place }
    ensures least { 1 ≤ result.width }
    ensures most { result.width ≤ 8 }
{
    FrameAccess {
        place,
        width: width_of(esr),
        register: (esr / (1 << 16) % (1 << 5)) as u8,
        stores: esr / (1 << 6) % 2 == 1,
        signed: esr / (1 << 21) % 2 == 1,
        wide: esr / (1 << 15) % 2 == 1,
    }
}
