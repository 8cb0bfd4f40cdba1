//! The rows of "Data processing -- immediate" (ARM DDI 0487, "A64 instruction set encoding"): what each reads, and where
//! its result goes.
#![tactic(auto, unfolding(crate::specs::Computed::computed))]

ghost use Rattle.std.specs.Prelude.{◌≡◌};
ghost use Rattle.a64_decode.specs.Lawful.{IsLawful};
ghost use Rattle.a64_decode.specs.declared.instr.Instr.TheVariants as variant;
ghost use Rattle.a64_alu.specs.Results.{ChangesOnlyResults};
ghost use Rattle.a64_alu.specs.Computed.{computed};

use crate::add::{Form, number, total, write_sum_or_sp};
use crate::logical::{combined, mask as bits, write_logical_or_sp};
use crate::moves::{address, extracted, field_of, moved, placed};
use crate::result::{low_x, write_x};
use a64_decode::{BitfieldKind, LogicalKind, MoveKind, Reg, width};
use a64_state::Core;

/// How a logical immediate spells its bitmask.
#[derive(Clone, Copy)]
pub(crate) struct Mask {
    pub(crate) n: u8,
    pub(crate) immr: u8,
    pub(crate) imms: u8,
}

/// ADR and ADRP.
pub(crate) fn pc_relative(core: &mut Core, page: bool, offset: u64, rd: Reg)
    requires lawful { IsLawful (variant.Address page offset rd) }
    ensures meaning { core.new ≡ computed (variant.Address page offset rd) core.old }
    ensures frame { ChangesOnlyResults core.old core.new }
{
    write_x(core, rd, address(page, core.pc, offset));
}

/// ADD, ADDS, SUB and SUBS of a number.
pub(crate) fn add_sub_immediate(
    core: &mut Core,
    form: Form,
    shifted: bool,
    imm12: u16,
    rn: Reg,
    rd: Reg,
)
    requires lawful { IsLawful (variant.AddSubImmediate form.wide form.subtract form.flags shifted imm12 rn rd) }
    ensures meaning { core.new
        ≡ computed (variant.AddSubImmediate form.wide form.subtract form.flags shifted imm12 rn rd) core.old }
    ensures frame { ChangesOnlyResults core.old core.new }
{
    let operand = number(shifted, imm12);
    let sum = total(form, core.read_x_or_sp(rn.0), operand, form.subtract);
    write_sum_or_sp(core, rd, form.flags, &sum);
}

/// AND, ORR, EOR and ANDS of a bitmask.
pub(crate) fn logical_immediate(
    core: &mut Core,
    wide: bool,
    kind: LogicalKind,
    mask: Mask,
    rn: Reg,
    rd: Reg,
)
    requires lawful { IsLawful (variant.LogicalImmediate wide kind mask.n mask.immr mask.imms rn rd) }
    ensures meaning { core.new
        ≡ computed (variant.LogicalImmediate wide kind mask.n mask.immr mask.imms rn rd) core.old }
    ensures frame { ChangesOnlyResults core.old core.new }
{
    let width = width(wide);
    let operand = bits(mask.n, mask.immr, mask.imms, wide);
    let value = combined(kind, low_x(core, width, rn), operand);
    write_logical_or_sp(core, width, kind, rd, value);
}

/// MOVN, MOVZ and MOVK.
pub(crate) fn move_wide(core: &mut Core, wide: bool, kind: MoveKind, hw: u8, imm16: u16, rd: Reg)
    requires lawful { IsLawful (variant.MoveWide wide kind hw imm16 rd) }
    ensures meaning { core.new ≡ computed (variant.MoveWide wide kind hw imm16 rd) core.old }
    ensures frame { ChangesOnlyResults core.old core.new }
{
    let width = width(wide);
    let value = moved(
        width,
        kind,
        low_x(core, width, rd),
        16 * u32::from(hw),
        imm16,
    );
    write_x(core, rd, value);
}

/// SBFM, BFM and UBFM.
pub(crate) fn bitfield(
    core: &mut Core,
    wide: bool,
    kind: BitfieldKind,
    immr: u8,
    imms: u8,
    rn: Reg,
    rd: Reg,
)
    requires lawful { IsLawful (variant.Bitfield wide kind immr imms rn rd) }
    ensures meaning { core.new ≡ computed (variant.Bitfield wide kind immr imms rn rd) core.old }
    ensures frame { ChangesOnlyResults core.old core.new }
{
    let width = width(wide);
    let old = low_x(core, width, rd);
    let value = low_x(core, width, rn);
    let field = field_of(width, u32::from(immr), u32::from(imms), value);
    write_x(core, rd, placed(width, kind, old, field));
}

/// EXTR.
pub(crate) fn extract(core: &mut Core, wide: bool, rm: Reg, imms: u8, rn: Reg, rd: Reg)
    requires lawful { IsLawful (variant.Extract wide rm imms rn rd) }
    ensures meaning { core.new ≡ computed (variant.Extract wide rm imms rn rd) core.old }
    ensures frame { ChangesOnlyResults core.old core.new }
{
    let width = width(wide);
    let high = low_x(core, width, rn);
    let low = low_x(core, width, rm);
    write_x(core, rd, extracted(width, high, low, u32::from(imms)));
}
