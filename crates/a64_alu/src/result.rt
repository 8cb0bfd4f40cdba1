//! What an instruction reads of a core, and where its result goes.

ghost use Rattle.std.specs.Prelude.{◌≡◌, ◌≤◌, ◌<◌, ◌^◌};
ghost use Rattle.a64_decode.specs.Lawful.{IsReg};
ghost use Rattle.a64_state.specs.Registers.{with_x, with_x_or_sp};
ghost use Rattle.a64_alu.specs.Results.{low_x as low_x_of, with_nzcv, with_x_and_flags, ChangesOnlyResults};

use a64_decode::{Reg, low};
use a64_state::Core;

/// The lowest bits of a register; register 31 reads as zero.
pub fn low_x(core: &Core, width: u32, r: Reg) -> u64
    requires reg { IsReg r }
    requires width { width ≤ 64 }
    ensures value { result ≡ low_x_of core.now width r }
    ensures bound { result < 2 ^ width }
{
    low(core.read_x(r.0), width)
}

/// Writes a register; a write of register 31 is ignored.
pub(crate) fn write_x(core: &mut Core, r: Reg, value: u64)
    requires { IsReg r }
    ensures write { core.new ≡ with_x core.old r.0 value }
    ensures frame { ChangesOnlyResults core.old core.new }
{
    core.write_x(r.0, value);
}

/// Writes a register, or SP for register 31.
pub(crate) fn write_x_or_sp(core: &mut Core, r: Reg, value: u64)
    requires { IsReg r }
    ensures write { core.new ≡ with_x_or_sp core.old r.0 value }
    ensures frame { ChangesOnlyResults core.old core.new }
{
    core.write_x_or_sp(r.0, value);
}

/// Writes the flags.
pub(crate) fn write_flags(core: &mut Core, flags: u32)
    requires { flags < 16 }
    ensures write { core.new ≡ with_nzcv core.old flags }
    ensures frame { ChangesOnlyResults core.old core.new }
{
    core.set_flags(flags);
}

/// Writes a register, and the flags where they are set.
pub(crate) fn write_x_and_flags(core: &mut Core, r: Reg, value: u64, set: bool, flags: u32)
    requires reg { IsReg r }
    requires flags { flags < 16 }
    ensures write { core.new ≡ with_x_and_flags core.old r value set flags }
    ensures frame { ChangesOnlyResults core.old core.new }
{
    if set {
        write_flags(core, flags);
    }
    write_x(core, r, value);
}
