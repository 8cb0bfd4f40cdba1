//! Addition and subtraction.
#![tactic(auto, unfolding(crate::specs::Add::total, crate::specs::Add::with_sum, crate::specs::Add::with_sum_or_sp, crate::specs::Add::extended_left))]

ghost use Rattle.std.specs.Prelude.{◌≡◌, ◌≤◌, ◌<◌, ◌^◌};
ghost use Rattle.a64_decode.specs.Lawful.{IsReg};
ghost use Rattle.a64_alu.specs.Results.{ChangesOnlyResults};
ghost use Rattle.a64_alu.specs.Add.{total as total_of, flags_of as flags_of_sum, with_sum, with_sum_or_sp, number_of, extended_left as extended_left_of};

use crate::number::inverted;
use crate::result::{write_x_and_flags, write_x_or_sp};
use a64_decode::{Extend, Reg, extended};
use a64_state::Core;
use a64_state::pstate::nzcv;
use bao_types::{Sum, add_carry};

/// The form of an addition or a subtraction.
#[derive(Clone, Copy)]
pub(crate) struct Form {
    pub(crate) wide: bool,
    pub(crate) subtract: bool,
    /// Whether it sets the flags.
    pub(crate) flags: bool,
}

/// A sum, or a difference as the sum with the inverted number.
pub(crate) fn total(form: Form, x: u64, y: u64, carry: bool) -> Sum
    ensures { result ≡ total_of form.wide form.subtract x y carry }
{
    let y = if form.subtract { inverted(64, y) } else { y };
    add_carry(x, y, carry, form.wide)
}

/// The flags of an addition.
pub(crate) fn flags_of(sum: &Sum) -> u32
    ensures value { result ≡ flags_of_sum sum.now }
    ensures bound { result < 16 }
{
    nzcv(sum.n, sum.z, sum.c, sum.v)
}

/// Writes a sum to a register, and its flags where they are set.
pub(crate) fn write_sum(core: &mut Core, rd: Reg, set: bool, sum: &Sum)
    requires { IsReg rd }
    ensures write { core.new ≡ with_sum core.old rd set sum.now }
    ensures frame { ChangesOnlyResults core.old core.new }
{
    write_x_and_flags(core, rd, sum.value, set, flags_of(sum));
}

/// The same, but without flags register 31 is SP.
pub(crate) fn write_sum_or_sp(core: &mut Core, rd: Reg, set: bool, sum: &Sum)
    requires { IsReg rd }
    ensures write { core.new ≡ with_sum_or_sp core.old rd set sum.now }
    ensures frame { ChangesOnlyResults core.old core.new }
{
    if set {
        write_sum(core, rd, true, sum);
    } else {
        write_x_or_sp(core, rd, sum.value);
    }
}

/// A number of 12 bits, or 4096 times as much.
pub(crate) fn number(shifted: bool, imm12: u16) -> u64
    requires { imm12 < 2 ^ 12 }
    ensures { result ≡ number_of shifted imm12 }
{
    let imm12 = u64::from(imm12);
    if shifted { imm12 * (1 << 12) } else { imm12 }
}

/// An extended number, shifted left.
pub(crate) fn extended_left(extend: Extend, value: u64, amount: u8) -> u64
    requires { amount ≤ 4 }
    ensures { result ≡ extended_left_of extend value amount }
{
    extended(extend, value) << amount
}
