//! Conditions, and what depends on them.
#![tactic(auto, unfolding(crate::specs::Conditions::holds, crate::specs::Conditions::changed))]

ghost use Rattle.std.specs.Prelude.{◌≡◌, ◌≤◌, ◌<◌, ◌^◌};
ghost use Rattle.a64_decode.specs.Lawful.{IsOperand};
ghost use Rattle.a64_alu.specs.Conditions.{holds as holds_in, operand_of, changed as changed_by};

use crate::number::inverted;
use a64_decode::{Condition, Operand, SelectKind, low};
use a64_state::{Core, pstate};

/// Whether a condition holds by the flags in PSTATE, which are its bits 31 to 28: N, Z, C and V (ARM DDI 0487,
/// "ConditionHolds").
pub fn holds(condition: Condition, pstate: u32) -> bool
    ensures { result ≡ holds_in condition pstate }
{
    let negative = pstate::negative(pstate);
    let zero = pstate::zero(pstate);
    let carry = pstate::carry(pstate);
    let overflow = pstate::overflow(pstate);
    match condition {
        Condition::Eq => zero,
        Condition::Ne => !zero,
        Condition::Cs => carry,
        Condition::Cc => !carry,
        Condition::Mi => negative,
        Condition::Pl => !negative,
        Condition::Vs => overflow,
        Condition::Vc => !overflow,
        Condition::Hi => carry && !zero,
        Condition::Ls => !(carry && !zero),
        Condition::Ge => negative == overflow,
        Condition::Lt => negative != overflow,
        Condition::Gt => negative == overflow && !zero,
        Condition::Le => !(negative == overflow && !zero),
        Condition::Al | Condition::Nv => true,
    }
}

/// The second operand of a conditional compare.
pub(crate) fn operand_value(core: &Core, operand: Operand) -> u64
    requires { IsOperand operand }
    ensures { result ≡ operand_of core.now operand }
{
    match operand {
        Operand::Register(r) => core.read_x(r.0),
        Operand::Immediate(number) => u64::from(number),
    }
}

/// What a conditional select makes of the other register.
pub(crate) fn changed(width: u32, kind: SelectKind, value: u64) -> u64
    requires width { width ≤ 64 }
    requires value { value < 2 ^ width }
    ensures { result ≡ changed_by width kind value }
{
    match kind {
        SelectKind::Csel => value,
        SelectKind::Csinc => low(value.wrapping_add(1), width),
        SelectKind::Csinv => inverted(width, value),
        SelectKind::Csneg => low(inverted(width, value).wrapping_add(1), width),
    }
}
