ghost use Rattle.std.specs.Prelude.{◌≡◌, ◌<◌, ◌≤◌, ◌+◌, ◌*◌, ◌^◌};
ghost use Rattle.bao_types.specs.Controller.{id_end};
ghost use Rattle.vgic_emul.specs.Effects.{changed, changed_by_bits, flag_bits, priority_bytes, with_priorities};
ghost use Rattle.vgic_emul.specs.Reached.{has, with_flag};

use crate::register::Flag;
use vgic_table::{IdState, IrqTable};

/// The word whose bits tell which of 32 ids from the first on have the flag.
pub(crate) fn flag_bits(table: &IrqTable, core: u8, flag: Flag, first: u16) -> u64
    requires core { core < 8 }
    requires first { first ≤ 64 }
    ensures value { result ≡ flag_bits table.now core (has flag) first 32 }
    ensures bound { result < 2 ^ 32 }
{
    let mut value = 0;
    for bit in 0..32u16 {
        if flag.is_on(table.look(core, first + bit)) {
            value += 1 << bit;
        }
    }
    value
}

/// Turns the flag on or off for those of 32 ids from the first on whose bit is set.
pub(crate) fn write_flags(
    table: &mut IrqTable,
    core: u8,
    flag: Flag,
    on: bool,
    value: u64,
    first: u16,
)
    requires core { core < 8 }
    requires first { first ≤ 64 }
    ensures { table.new ≡ changed_by_bits (λ id vm. changed vm core id (with_flag flag on)) table.old value first 32 }
{
    for bit in 0..32u16 {
        if (value >> bit) % 2 == 1 {
            let state = table.look(core, first + bit);
            table.put(core, first + bit, flag.turned(on, state));
        }
    }
}

/// The priorities of this many ids from the first on, a byte each.
pub(crate) fn priority_bytes(table: &IrqTable, core: u8, first: u16, count: u16) -> u64
    requires core { core < 8 }
    requires count { count ≤ 4 }
    requires first { first + count ≤ id_end }
    ensures value { result ≡ priority_bytes table.now core first count }
    ensures bound { result < 2 ^ (8 * count) }
{
    let mut value = 0;
    for byte in 0..count {
        value += u64::from(table.look(core, first + byte).priority) << (8 * byte);
    }
    value
}

/// Gives this many ids from the first on the value's bytes as priorities.
pub(crate) fn write_priorities(table: &mut IrqTable, core: u8, value: u64, first: u16, count: u16)
    requires core { core < 8 }
    requires count { count ≤ 4 }
    requires first { first + count ≤ id_end }
    ensures { table.new ≡ with_priorities table.old core value first count }
{
    for byte in 0..count {
        let state = table.look(core, first + byte);
        let priority = ((value >> (8 * byte)) % 256) as u8;
        table.put(core, first + byte, IdState { priority, ..state });
    }
}
