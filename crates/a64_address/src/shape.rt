ghost use Rattle.std.specs.Prelude.{◌≡◌, ◌^◌, ◌&&◌, ◌==◌, ◌↔◌, if◌then◌else◌, true, false, IsTrue, IsSome, IfSome, is_none, not};
ghost use Rattle.bao_types.specs.Bytes.{IsWidth};
ghost use Rattle.a64_state.specs.Registers.{x_or_sp, is_sp};
ghost use Rattle.a64_decode.specs.Lawful.{IsLawful, IsReg, is_prefetch as prefetches, writes_back};
ghost use Rattle.a64_decode.specs.Access.{scale_of, pair_size, literal_size, is_literal_prefetch, is_store, access_of};
ghost use Rattle.a64_address.specs.Address.{plus, shifted_left, address_of, back_of};
ghost use Rattle.a64_address.specs.Shape.{IsCount, memory_shape, ShapesAgree};

use crate::address::{address, back};
use a64_decode::{
    Extend, IndexMode, Instr, LiteralKind, PairKind, Reg, Size, Transfer, extended, is_prefetch,
};
use a64_state::Core;

/// What a load or a store asks of memory: `count` elements of `width` bytes, one after the other from `at` on.
/// Addresses wrap at 2^64.
#[derive(Clone, Copy, Debug, PartialEq, Eq)]
pub struct MemShape {
    /// The address of the first byte.
    pub at: u64,
    /// The bytes of an element: 1, 2, 4 or 8.
    pub width: u32,
    /// 1, or 2 for a pair.
    pub count: u8,
    /// Whether the access is a store.
    pub store: bool,
    /// Whether the base register is SP, whose alignment is then checked.
    pub base_sp: bool,
    /// What the base register becomes once the access has succeeded, where it is written back.
    pub back: Option<u64>,
    /// Whether the syndrome of an abort that stage 2 takes would describe the access (ISV): one register, and no
    /// write-back.
    pub isv: bool,
}

/// What an instruction asks of memory, or None where it is no load or store. A prefetch is neither (ARM DDI 0487,
/// "Loads and stores").
#[tactic(auto, unfolding(crate::specs::Shape::memory_shape, a64_decode::specs::Access::access_of))]
#[rattlefmt::skip]
#[inline(always)]
pub fn shape_of(core: &Core, instr: &Instr) -> Option<MemShape>
    requires { IsLawful instr.now }
    ensures shape { result ≡ memory_shape core.now instr.now }
    ensures access { IsSome result ↔ IsSome (access_of instr.now) }
    ensures width { IfSome result (λ s. IsWidth s.width) }
    ensures count { IfSome result (λ s. IsCount s.count) }
    ensures syndrome { IfSome result (λ s. s.isv ≡ (s.count == 1 && is_none s.back)) }
{
    match *instr {
        Instr::LoadLiteral { kind, offset, .. } => literal(core, kind, offset),
        Instr::Pair { kind, mode, load, offset, rn, .. } => Some(pair(core, kind, mode, load, rn, offset)),
        Instr::LoadStoreUnsigned { size, transfer, imm12, rn, .. } => {
            let offset = scaled_by(size, true, u64::from(imm12));
            single(core, size, transfer, IndexMode::Offset, rn, offset)
        }
        Instr::LoadStoreIndexed { size, transfer, offset, mode, rn, .. } =>
            single(core, size, transfer, mode, rn, offset),
        Instr::LoadStoreRegister { size, transfer, rm, extend, scaled, rn, .. } => {
            let offset = scaled_by(size, scaled, extended(extend, core.read_x(rm.0)));
            single(core, size, transfer, IndexMode::Offset, rn, offset)
        }
        Instr::Address { .. } | Instr::AddSubImmediate { .. } | Instr::LogicalImmediate { .. }
        | Instr::MoveWide { .. } | Instr::Bitfield { .. } | Instr::Extract { .. } | Instr::Branch { .. }
        | Instr::BranchConditional { .. } | Instr::CompareBranch { .. } | Instr::TestBranch { .. }
        | Instr::BranchRegister { .. } | Instr::ExceptionReturn | Instr::Exception { .. } | Instr::Hint { .. }
        | Instr::Barrier { .. } | Instr::MsrImmediate { .. } | Instr::System { .. } | Instr::SystemRegister { .. }
        | Instr::LogicalShifted { .. } | Instr::AddSubShifted { .. } | Instr::AddSubExtended { .. }
        | Instr::AddSubCarry { .. } | Instr::ConditionalCompare { .. } | Instr::ConditionalSelect { .. }
        | Instr::ThreeSources { .. } | Instr::TwoSources { .. } | Instr::OneSource { .. } | Instr::Undefined => None,
    }
}

/// What an instruction asks of memory agrees with what its word says of the access: its width, whether it stores, and
/// whether the syndrome of an abort describes it. The function does nothing; its contract is the law.
pub fn shapes_agree()
    ensures { ShapesAgree }
{}

/// An offset that counts elements, where it is scaled, in bytes.
#[inline(always)]
fn scaled_by(size: Size, scaled: bool, offset: u64) -> u64
    ensures { result ≡ shifted_left offset (if scaled then scale_of size else 0) }
{
    if scaled {
        offset.wrapping_mul(u64::from(size.bytes()))
    } else {
        offset
    }
}

/// A load of a literal at an offset in words from the instruction itself.
fn literal(core: &Core, kind: LiteralKind, offset: u64) -> Option<MemShape>
    ensures shape { result ≡ (if is_literal_prefetch kind then None else Some (record {
      at = plus core.now.pc (shifted_left offset 2);
      width = 2 ^ scale_of (literal_size kind);
      count = 1;
      store = false;
      base_sp = false;
      back = None;
      isv = true;
    })) }
    ensures access { IsSome result ↔ IsTrue (not (is_literal_prefetch kind)) }
    ensures width { IfSome result (λ s. IsWidth s.width) }
    ensures count { IfSome result (λ s. IsCount s.count) }
    ensures syndrome { IfSome result (λ s. s.isv ≡ (s.count == 1 && is_none s.back)) }
{
    if kind == LiteralKind::Prefetch {
        return None;
    }
    Some(MemShape {
        at: core.pc.wrapping_add(offset.wrapping_mul(4)),
        width: kind.size().bytes(),
        count: 1,
        store: false,
        base_sp: false,
        back: None,
        isv: true,
    })
}

/// A load or store of one register at an offset in bytes from its base.
#[inline(always)]
fn single(
    core: &Core,
    size: Size,
    transfer: Transfer,
    mode: IndexMode,
    rn: Reg,
    offset: u64,
) -> Option<MemShape>
    requires { IsReg rn }
    ensures shape { result ≡ (if prefetches size transfer then None else Some (record {
      at = address_of mode (x_or_sp core.now rn.0) offset;
      width = 2 ^ scale_of size;
      count = 1;
      store = is_store transfer;
      base_sp = is_sp rn.0;
      back = back_of mode (x_or_sp core.now rn.0) offset;
      isv = not (writes_back mode);
    })) }
    ensures access { IsSome result ↔ IsTrue (not (prefetches size transfer)) }
    ensures width { IfSome result (λ s. IsWidth s.width) }
    ensures count { IfSome result (λ s. IsCount s.count) }
    ensures syndrome { IfSome result (λ s. s.isv ≡ (s.count == 1 && is_none s.back)) }
{
    if is_prefetch(size, transfer) {
        return None;
    }
    let base = core.read_x_or_sp(rn.0);
    Some(MemShape {
        at: address(mode, base, offset),
        width: size.bytes(),
        count: 1,
        store: transfer == Transfer::Store,
        base_sp: rn.0 == 31,
        back: back(mode, base, offset),
        isv: mode == IndexMode::Offset,
    })
}

/// A load or store of two registers at an offset from their base, which counts elements.
#[inline(always)]
fn pair(core: &Core, kind: PairKind, mode: IndexMode, load: bool, rn: Reg, offset: u64) -> MemShape
    requires { IsReg rn }
    ensures shape { result ≡ record {
      at = address_of mode (x_or_sp core.now rn.0) (shifted_left offset (scale_of (pair_size kind)));
      width = 2 ^ scale_of (pair_size kind);
      count = 2;
      store = not load;
      base_sp = is_sp rn.0;
      back = back_of mode (x_or_sp core.now rn.0) (shifted_left offset (scale_of (pair_size kind)));
      isv = false;
    } }
    ensures width { IsWidth result.width }
    ensures count { IsCount result.count }
    ensures syndrome { result.isv ≡ (result.count == 1 && is_none result.back) }
{
    let width = kind.size().bytes();
    let base_sp = rn.0 == 31;
    let base = core.read_x_or_sp(rn.0);
    let offset = offset.wrapping_mul(u64::from(width));
    MemShape {
        at: address(mode, base, offset),
        width,
        count: 2,
        store: !load,
        base_sp,
        back: back(mode, base, offset),
        isv: false,
    }
}
