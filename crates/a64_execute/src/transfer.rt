//! The registers that a load or a store leaves.

ghost use Rattle.std.specs.Prelude.{◌≡◌, ◌*◌, ◌^◌, ◌<◌, ◌-◌, Some};
ghost use Rattle.bao_types.specs.Bytes.{IsWidth};
ghost use Rattle.a64_decode.specs.Lawful.{IsLawful, IsReg};
ghost use Rattle.a64_execute.specs.Transfer.{first_element, second_element, with_element, with_half, with_back, transferred};

use a64_address::MemShape;
use a64_decode::{Instr, LiteralKind, PairKind, Reg, Transfer, loaded};
use a64_state::Core;
use bao_types::weight_after;

/// Writes what was loaded to its registers, and the base back, where the instruction does so.
#[rattlefmt::skip]
#[tactic(auto, unfolding(crate::specs::Transfer::transferred))]
#[inline(always)]
pub(crate) fn transfer(core: &mut Core, instr: &Instr, shape: &MemShape, got: u128)
    requires lawful { IsLawful instr.now }
    requires width { IsWidth shape.now.width }
    ensures { core.new ≡ transferred instr.now shape.now got core.old }
{
    match *instr {
        Instr::LoadLiteral { kind, rt, .. } => {
            let signed = kind == LiteralKind::SignedWord;
            let element = first(got, shape.width);
            let value = loaded(signed, kind != LiteralKind::Word, 8 * shape.width, element);
            core.write_x(rt.0, value);
        }
        Instr::Pair { kind, load, rt2, rn, rt, .. } => {
            if load {
                load_half(core, kind, shape.width, rt, first(got, shape.width));
                load_half(core, kind, shape.width, rt2, second(got, shape.width));
            }
            write_back(core, rn, shape.back);
        }
        Instr::LoadStoreUnsigned { transfer, rt, .. } | Instr::LoadStoreRegister { transfer, rt, .. } => {
            load(core, transfer, shape.width, rt, first(got, shape.width));
        }
        Instr::LoadStoreIndexed { transfer, rn, rt, .. } => {
            load(core, transfer, shape.width, rt, first(got, shape.width));
            write_back(core, rn, shape.back);
        }
        // These have no access.
        Instr::Address { .. } | Instr::AddSubImmediate { .. } | Instr::LogicalImmediate { .. } | Instr::MoveWide { .. }
        | Instr::Bitfield { .. } | Instr::Extract { .. } | Instr::Branch { .. } | Instr::BranchConditional { .. }
        | Instr::CompareBranch { .. } | Instr::TestBranch { .. } | Instr::BranchRegister { .. }
        | Instr::ExceptionReturn | Instr::Exception { .. } | Instr::Hint { .. } | Instr::Barrier { .. }
        | Instr::MsrImmediate { .. } | Instr::System { .. } | Instr::SystemRegister { .. } | Instr::LogicalShifted { .. }
        | Instr::AddSubShifted { .. } | Instr::AddSubExtended { .. } | Instr::AddSubCarry { .. }
        | Instr::ConditionalCompare { .. } | Instr::ConditionalSelect { .. } | Instr::ThreeSources { .. }
        | Instr::TwoSources { .. } | Instr::OneSource { .. } | Instr::Undefined => {}
    }
}

/// The element of `width` bytes at the lowest address.
#[inline(always)]
fn first(got: u128, width: u32) -> u64
    requires { IsWidth width }
    ensures value { result ≡ first_element (8 * width) got }
    ensures bound { result < 2 ^ (8 * width) }
{
    (got % weight_after(width)) as u64
}

/// The element after it.
#[inline(always)]
fn second(got: u128, width: u32) -> u64
    requires { IsWidth width }
    ensures value { result ≡ second_element (8 * width) got }
    ensures bound { result < 2 ^ (8 * width) }
{
    (got / weight_after(width) % weight_after(width)) as u64
}

/// Writes a loaded element to a register.
#[inline(always)]
fn load(core: &mut Core, transfer: Transfer, width: u32, rt: Reg, element: u64)
    requires reg { IsReg rt }
    requires width { IsWidth width }
    requires value { element < 2 ^ (8 * width) }
    ensures { core.new ≡ with_element transfer (8 * width) rt element core.old }
{
    match transfer {
        Transfer::Store => {}
        Transfer::Load => core.write_x(rt.0, element),
        Transfer::LoadSigned => core.write_x(rt.0, loaded(true, true, 8 * width, element)),
        Transfer::LoadSignedWord => core.write_x(rt.0, loaded(true, false, 8 * width, element)),
    }
}

/// Writes a loaded element of a pair to its register.
#[inline(always)]
fn load_half(core: &mut Core, kind: PairKind, width: u32, rt: Reg, element: u64)
    requires reg { IsReg rt }
    requires width { IsWidth width }
    requires value { element < 2 ^ (8 * width) }
    ensures { core.new ≡ with_half kind (8 * width) rt element core.old }
{
    let signed = kind == PairKind::SignedWord;
    let wide = kind != PairKind::Word;
    core.write_x(rt.0, loaded(signed, wide, 8 * width, element));
}

/// Writes the base back, where it is written back. Register 31 is SP.
#[inline(always)]
fn write_back(core: &mut Core, rn: Reg, back: Option<u64>)
    requires { IsReg rn }
    ensures { core.new ≡ with_back back rn core.old }
{
    match back {
        None => {}
        Some(base) => core.write_x_or_sp(rn.0, base),
    }
}
