ghost use Rattle.std.specs.Prelude.{◌≡◌, ◌<◌, ◌≤◌, ◌+◌, ◌*◌, ◌%◌, ◌^◌, IfSome};
ghost use Rattle.std.specs.Option.{option_map};
ghost use Rattle.vgic_emul.specs.Effects.{first_flagged, part, prioritised, type_of};
ghost use Rattle.vgic_emul.specs.Reached.{effect_of, Fits};
ghost use Rattle.vgic_emul.specs.Registers.{after, answer, core_of, effect_at, offset_of};

use crate::FramePlace;
use crate::register::{Register, of_distributor, of_private_ids, of_redistributor};
use crate::words::{flag_bits, priority_bytes, write_flags, write_priorities};
use vgic_table::IrqTable;

/// GICD_TYPER: 96 ids, in numbers of 10 bits.
const DISTRIBUTOR_TYPE: u64 = 0x0048_0002;

/// GICD_CTLR.DS and ARE, which read as 1.
const ALWAYS_ON: u64 = 0x50;

/// An access to an emulated frame, of `width` bytes at a multiple of it: a write of a value, or a read. It answers what
/// is read, 0 for a write. An access that reaches no register reads 0 and changes nothing.
///
/// It is handed one VM's table, and both clauses speak of that alone; what this means among several VMs is
/// [`an_access_is_its_vms_alone`](crate::an_access_is_its_vms_alone).
pub fn emulate(table: &mut IrqTable, place: FramePlace, width: u32, write: Option<u64>) -> u64
    requires core { core_of place < 8 }
    requires aligned { offset_of place % width ≡ 0 }
    ensures value { result ≡ answer table.old place width write }
    ensures bound { result < 2 ^ (8 * width) }
    ensures after { table.new ≡ after table.old place width write }
{
    let Some(register) = register_at(place, width) else {
        return 0;
    };
    let core = core_of(place);
    let offset = offset_of(place);
    match write {
        Some(value) => {
            write_register(table, core, offset, width, register, value);
            0
        }
        None => read_register(table, core, offset, width, register),
    }
}

/// The virtual core whose private ids a frame has; 0 for the distributor.
fn core_of(place: FramePlace) -> u8
    ensures { result ≡ core_of place }
{
    match place {
        FramePlace::Dist { .. } => 0,
        FramePlace::Redist { core, .. } | FramePlace::Sgi { core, .. } => core,
    }
}

/// The offset of a byte in its frame.
fn offset_of(place: FramePlace) -> u32
    ensures { result ≡ offset_of place }
{
    match place {
        FramePlace::Dist { offset }
        | FramePlace::Redist { offset, .. }
        | FramePlace::Sgi { offset, .. } => offset,
    }
}

/// The register that an access reaches; None where there is none at its offset, or none of its width.
fn register_at(place: FramePlace, width: u32) -> Option<Register>
    requires { offset_of place % width ≡ 0 }
    ensures effect { option_map effect_of result ≡ effect_at place width }
    ensures fits { IfSome result (Fits (offset_of place) width) }
{
    match place {
        FramePlace::Dist { offset } => of_distributor(offset, width),
        FramePlace::Redist { offset, .. } => of_redistributor(offset, width),
        FramePlace::Sgi { offset, .. } => of_private_ids(offset, width),
    }
}

/// What a read of a register gives.
fn read_register(table: &IrqTable, core: u8, offset: u32, width: u32, register: Register) -> u64
    requires core { core < 8 }
    requires fits { Fits offset width register }
    ensures value { result ≡ (effect_of register).reads table.now core offset width }
    ensures bound { result < 2 ^ (8 * width) }
{
    match register {
        Register::Control => ALWAYS_ON + if table.on() { 2 } else { 0 },
        Register::DistributorType => DISTRIBUTOR_TYPE,
        Register::CoreType => part(core_type(table, core), offset - 8, width),
        Register::Flags { flag, .. } => flag_bits(table, core, flag, first_flagged(offset)),
        Register::Priorities => priority_bytes(table, core, prioritised(offset), width as u16),
    }
}

/// What a write of a register keeps.
fn write_register(
    table: &mut IrqTable,
    core: u8,
    offset: u32,
    width: u32,
    register: Register,
    value: u64,
)
    requires core { core < 8 }
    requires fits { Fits offset width register }
    ensures { table.new ≡ (effect_of register).keeps table.old core offset width value }
{
    match register {
        Register::Control => table.set_on(value / 2 % 2 == 1),
        Register::DistributorType | Register::CoreType => {}
        Register::Flags { flag, sets } => {
            let first = first_flagged(offset);
            write_flags(table, core, flag, sets, value, first);
        }
        Register::Priorities => {
            let first = prioritised(offset);
            write_priorities(table, core, value, first, width as u16);
        }
    }
}

/// GICR_TYPER: the core's affinity, its number, and whether it is the VM's last.
fn core_type(table: &IrqTable, core: u8) -> u64
    requires { core < 8 }
    ensures { result ≡ type_of table.now core }
{
    let number = u64::from(core);
    let last = if core + 1 == table.cores() { 16 } else { 0 };
    number * (1 << 32) + number * (1 << 8) + last
}

/// This many bytes of a register, from one on.
fn part(register: u64, first: u32, width: u32) -> u64
    requires first { first < 8 }
    requires last { first + width ≤ 8 }
    ensures value { result ≡ part register first width }
    ensures bound { result < 2 ^ (8 * width) }
{
    let above = register >> (8 * first);
    if width < 8 {
        above % (1 << (8 * width))
    } else {
        above
    }
}

/// The id of bit 0 of a register of flags.
fn first_flagged(offset: u32) -> u16
    ensures { result ≡ first_flagged offset }
{
    (32 * (offset % 0x80 / 4)) as u16
}

/// The id whose priority a byte is.
fn prioritised(offset: u32) -> u16
    requires at { 0x400 ≤ offset }
    requires id { offset < 0x460 }
    ensures { result ≡ prioritised offset }
{
    (offset - 0x400) as u16
}
