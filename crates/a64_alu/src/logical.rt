//! The logical operations.
#![tactic(auto, unfolding(crate::specs::Logical::combined, crate::specs::Logical::with_logical, crate::specs::Logical::with_logical_or_sp, crate::specs::Logical::mask_of))]

ghost use Rattle.std.specs.Prelude.{◌≡◌, ◌≤◌, ◌<◌, ◌^◌};
ghost use Rattle.a64_decode.specs.Lawful.{IsReg};
ghost use Rattle.a64_alu.specs.Results.{ChangesOnlyResults};
ghost use Rattle.a64_alu.specs.Logical.{combined as combined_by, sets_flags as sets_flags_of, logical_flags as logical_flags_of, with_logical, with_logical_or_sp, mask_of, inverted_if as inverted_where};

use crate::number::inverted;
use crate::result::{write_x_and_flags, write_x_or_sp};
use a64_decode::{LogicalKind, Reg};
use a64_state::Core;
use a64_state::pstate::nzcv;
use bao_types::bitmask;

/// Two numbers, combined bit by bit.
pub(crate) fn combined(kind: LogicalKind, x: u64, y: u64) -> u64
    ensures { result ≡ combined_by kind x y }
{
    match kind {
        LogicalKind::And | LogicalKind::Ands => x & y,
        LogicalKind::Orr => x | y,
        LogicalKind::Eor => x ^ y,
    }
}

/// Whether the operation sets the flags.
fn sets_flags(kind: LogicalKind) -> bool
    ensures { result ≡ sets_flags_of kind }
{
    match kind {
        LogicalKind::And | LogicalKind::Orr | LogicalKind::Eor => false,
        LogicalKind::Ands => true,
    }
}

/// The flags of a result: C and V are clear.
fn logical_flags(width: u32, value: u64) -> u32
    requires some { 0 < width }
    requires width { width ≤ 64 }
    ensures value { result ≡ logical_flags_of width value }
    ensures bound { result < 16 }
{
    nzcv(value >= 1 << (width - 1), value == 0, false, false)
}

/// Writes a result to a register, and its flags where the operation sets them.
pub(crate) fn write_logical(core: &mut Core, width: u32, kind: LogicalKind, rd: Reg, value: u64)
    requires some { 0 < width }
    requires width { width ≤ 64 }
    requires reg { IsReg rd }
    ensures write { core.new ≡ with_logical core.old width kind rd value }
    ensures frame { ChangesOnlyResults core.old core.new }
{
    write_x_and_flags(
        core,
        rd,
        value,
        sets_flags(kind),
        logical_flags(width, value),
    );
}

/// The same, but without flags register 31 is SP.
pub(crate) fn write_logical_or_sp(
    core: &mut Core,
    width: u32,
    kind: LogicalKind,
    rd: Reg,
    value: u64,
)
    requires some { 0 < width }
    requires width { width ≤ 64 }
    requires reg { IsReg rd }
    ensures write { core.new ≡ with_logical_or_sp core.old width kind rd value }
    ensures frame { ChangesOnlyResults core.old core.new }
{
    if sets_flags(kind) {
        write_logical(core, width, kind, rd, value);
    } else {
        write_x_or_sp(core, rd, value);
    }
}

/// A mask that isn't reserved.
pub(crate) fn mask(n: u8, immr: u8, imms: u8, wide: bool) -> u64
    requires bit { n < 2 }
    requires rotation { immr < 64 }
    requires size { imms < 64 }
    ensures { result ≡ mask_of n immr imms wide }
{
    bitmask(u32::from(n), u32::from(immr), u32::from(imms), wide).unwrap_or(0)
}

/// A second operand, with each bit inverted where the instruction asks for it.
pub(crate) fn inverted_if(invert: bool, width: u32, value: u64) -> u64
    requires width { width ≤ 64 }
    requires value { value < 2 ^ width }
    ensures { result ≡ inverted_where invert width value }
{
    if invert {
        inverted(width, value)
    } else {
        value
    }
}
