//! The rows of "Data processing -- register" (ARM DDI 0487, "A64 instruction set encoding"): what each reads, and where
//! its result goes.
#![tactic(auto, unfolding(crate::specs::Computed::computed))]

ghost use Rattle.std.specs.Prelude.{◌≡◌};
ghost use Rattle.a64_decode.specs.Lawful.{IsLawful};
ghost use Rattle.a64_decode.specs.declared.instr.Instr.TheVariants as variant;
ghost use Rattle.a64_alu.specs.Results.{ChangesOnlyResults};
ghost use Rattle.a64_alu.specs.Computed.{computed};

use crate::add::{Form, extended_left, flags_of, total, write_sum, write_sum_or_sp};
use crate::condition::{changed, holds, operand_value};
use crate::logical::{combined, inverted_if, write_logical};
use crate::product::product;
use crate::quotient::two_sources as quotient_or_shift;
use crate::result::{low_x, write_flags, write_x};
use crate::reversal::one_source as reversed_or_counted;
use crate::shift::shifted;
use a64_decode::{
    Condition, Extend, LogicalKind, OneSourceKind, Operand, ProductKind, Reg, SelectKind, Shift,
    TwoSourceKind, width,
};
use a64_state::{Core, pstate};

/// A register as an operand that is shifted.
#[derive(Clone, Copy)]
pub(crate) struct ShiftedReg {
    pub(crate) rm: Reg,
    pub(crate) shift: Shift,
    pub(crate) amount: u8,
}

/// AND, ORR, EOR and ANDS, and BIC, ORN, EON and BICS, of a shifted register.
pub(crate) fn logical_shifted(
    core: &mut Core,
    wide: bool,
    kind: LogicalKind,
    invert: bool,
    operand: ShiftedReg,
    rn: Reg,
    rd: Reg,
)
    requires lawful { IsLawful (variant.LogicalShifted wide kind operand.shift invert operand.rm operand.amount rn rd) }
    ensures meaning { core.new
        ≡ computed (variant.LogicalShifted wide kind operand.shift invert operand.rm operand.amount rn rd) core.old }
    ensures frame { ChangesOnlyResults core.old core.new }
{
    let width = width(wide);
    let value = shifted(
        width,
        operand.shift,
        low_x(core, width, operand.rm),
        u32::from(operand.amount),
    );
    let value = combined(
        kind,
        low_x(core, width, rn),
        inverted_if(invert, width, value),
    );
    write_logical(core, width, kind, rd, value);
}

/// ADD, ADDS, SUB and SUBS of a shifted register.
pub(crate) fn add_sub_shifted(core: &mut Core, form: Form, operand: ShiftedReg, rn: Reg, rd: Reg)
    requires lawful { IsLawful
        (variant.AddSubShifted form.wide form.subtract form.flags operand.shift operand.rm operand.amount rn rd) }
    ensures meaning { core.new
        ≡ computed
        (variant.AddSubShifted form.wide form.subtract form.flags operand.shift operand.rm operand.amount rn rd) core.old }
    ensures frame { ChangesOnlyResults core.old core.new }
{
    let width = width(form.wide);
    let value = shifted(
        width,
        operand.shift,
        low_x(core, width, operand.rm),
        u32::from(operand.amount),
    );
    let sum = total(form, core.read_x(rn.0), value, form.subtract);
    write_sum(core, rd, form.flags, &sum);
}

/// ADD, ADDS, SUB and SUBS of an extended register.
pub(crate) fn add_sub_extended(
    core: &mut Core,
    form: Form,
    rm: Reg,
    extend: Extend,
    amount: u8,
    rn: Reg,
    rd: Reg,
)
    requires lawful { IsLawful (variant.AddSubExtended form.wide form.subtract form.flags rm extend amount rn rd) }
    ensures meaning { core.new
        ≡ computed (variant.AddSubExtended form.wide form.subtract form.flags rm extend amount rn rd) core.old }
    ensures frame { ChangesOnlyResults core.old core.new }
{
    let value = extended_left(extend, core.read_x(rm.0), amount);
    let sum = total(form, core.read_x_or_sp(rn.0), value, form.subtract);
    write_sum_or_sp(core, rd, form.flags, &sum);
}

/// ADC, ADCS, SBC and SBCS.
pub(crate) fn add_sub_carry(core: &mut Core, form: Form, rm: Reg, rn: Reg, rd: Reg)
    requires lawful { IsLawful (variant.AddSubCarry form.wide form.subtract form.flags rm rn rd) }
    ensures meaning { core.new ≡ computed (variant.AddSubCarry form.wide form.subtract form.flags rm rn rd) core.old }
    ensures frame { ChangesOnlyResults core.old core.new }
{
    let carry = pstate::carry(core.pstate);
    let sum = total(form, core.read_x(rn.0), core.read_x(rm.0), carry);
    write_sum(core, rd, form.flags, &sum);
}

/// CCMN and CCMP.
pub(crate) fn conditional_compare(
    core: &mut Core,
    wide: bool,
    subtract: bool,
    operand: Operand,
    condition: Condition,
    rn: Reg,
    nzcv: u8,
)
    requires lawful { IsLawful (variant.ConditionalCompare wide subtract operand condition rn nzcv) }
    ensures meaning { core.new
        ≡ computed (variant.ConditionalCompare wide subtract operand condition rn nzcv) core.old }
    ensures frame { ChangesOnlyResults core.old core.new }
{
    let form = Form {
        wide,
        subtract,
        flags: true,
    };
    let flags = if holds(condition, core.pstate) {
        let operand = operand_value(core, operand);
        flags_of(&total(form, core.read_x(rn.0), operand, subtract))
    } else {
        u32::from(nzcv)
    };
    write_flags(core, flags);
}

/// CSEL, CSINC, CSINV and CSNEG.
pub(crate) fn conditional_select(
    core: &mut Core,
    wide: bool,
    kind: SelectKind,
    rm: Reg,
    condition: Condition,
    rn: Reg,
    rd: Reg,
)
    requires lawful { IsLawful (variant.ConditionalSelect wide kind rm condition rn rd) }
    ensures meaning { core.new ≡ computed (variant.ConditionalSelect wide kind rm condition rn rd) core.old }
    ensures frame { ChangesOnlyResults core.old core.new }
{
    let width = width(wide);
    let value = if holds(condition, core.pstate) {
        low_x(core, width, rn)
    } else {
        changed(width, kind, low_x(core, width, rm))
    };
    write_x(core, rd, value);
}

/// MADD and MSUB, the products of 32-bit registers, and the high halves of products.
pub(crate) fn three_sources(
    core: &mut Core,
    wide: bool,
    kind: ProductKind,
    rm: Reg,
    ra: Reg,
    rn: Reg,
    rd: Reg,
)
    requires lawful { IsLawful (variant.ThreeSources wide kind rm ra rn rd) }
    ensures meaning { core.new ≡ computed (variant.ThreeSources wide kind rm ra rn rd) core.old }
    ensures frame { ChangesOnlyResults core.old core.new }
{
    let width = width(wide);
    let added = low_x(core, width, ra);
    let value = product(
        width,
        kind,
        added,
        low_x(core, width, rn),
        low_x(core, width, rm),
    );
    write_x(core, rd, value);
}

/// UDIV, SDIV, and shifts by a register.
pub(crate) fn two_sources(
    core: &mut Core,
    wide: bool,
    kind: TwoSourceKind,
    rm: Reg,
    rn: Reg,
    rd: Reg,
)
    requires lawful { IsLawful (variant.TwoSources wide kind rm rn rd) }
    ensures meaning { core.new ≡ computed (variant.TwoSources wide kind rm rn rd) core.old }
    ensures frame { ChangesOnlyResults core.old core.new }
{
    let width = width(wide);
    let value = quotient_or_shift(width, kind, low_x(core, width, rn), low_x(core, width, rm));
    write_x(core, rd, value);
}

/// RBIT, REV16, REV32, REV, CLZ and CLS.
pub(crate) fn one_source(core: &mut Core, wide: bool, kind: OneSourceKind, rn: Reg, rd: Reg)
    requires lawful { IsLawful (variant.OneSource wide kind rn rd) }
    ensures meaning { core.new ≡ computed (variant.OneSource wide kind rn rd) core.old }
    ensures frame { ChangesOnlyResults core.old core.new }
{
    let value = low_x(core, width(wide), rn);
    write_x(core, rd, reversed_or_counted(wide, kind, value));
}
