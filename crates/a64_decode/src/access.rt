//! What the word of a load or a store says of it by itself.

ghost use Rattle.std.specs.Prelude.{◌≡◌, ◌<◌, ◌^◌};
ghost use Rattle.a64_decode.specs.Access.{scale_of, pair_size, literal_size, literal_access, single_access, access_of as access_in};

use crate::load_store::is_prefetch;
use crate::{IndexMode, Instr, LiteralKind, PairKind, Reg, Size, Transfer};

/// What the word of a load or a store says of it by itself, wherever its registers point (ARM DDI 0487, "Loads and
/// stores").
#[derive(Clone, Copy, Debug, PartialEq, Eq)]
pub struct MemAccess {
    /// The width of an element in memory.
    pub size: Size,
    /// Whether it stores, and doesn't load.
    pub store: bool,
    /// Whether what is loaded is extended with its sign.
    pub signed: bool,
    /// Whether the register is one of 64 bits.
    pub wide: bool,
    /// The register that is loaded or stored, of a pair the first.
    pub rt: Reg,
    /// Whether it is one register, and the base isn't written back. The syndrome of an abort describes no other access
    /// ("ISS encoding for an exception from a Data Abort", ISV).
    pub described: bool,
}

impl Size {
    /// The bytes of an element: 1, 2, 4 or 8.
    pub fn bytes(self) -> u32
        ensures { result ≡ 2 ^ scale_of self }
    {
        match self {
            Size::Byte => 1,
            Size::Half => 2,
            Size::Word => 4,
            Size::Double => 8,
        }
    }

    /// The logarithm of that, which is the field `size` of a load's or a store's word.
    pub fn scale(self) -> u32
        ensures value { result ≡ scale_of self }
        ensures bound { result < 4 }
    {
        match self {
            Size::Byte => 0,
            Size::Half => 1,
            Size::Word => 2,
            Size::Double => 3,
        }
    }
}

impl PairKind {
    /// The width of an element.
    pub fn size(self) -> Size
        ensures { result ≡ pair_size self }
    {
        match self {
            PairKind::Word | PairKind::SignedWord => Size::Word,
            PairKind::Double => Size::Double,
        }
    }
}

impl LiteralKind {
    /// The width of a literal; that of a prefetch means nothing.
    pub fn size(self) -> Size
        ensures { result ≡ literal_size self }
    {
        match self {
            LiteralKind::Word | LiteralKind::SignedWord => Size::Word,
            LiteralKind::Double | LiteralKind::Prefetch => Size::Double,
        }
    }
}

/// The access of a load or a store; None where an instruction is neither. A prefetch is neither.
#[rattlefmt::skip]
#[tactic(auto, unfolding(crate::specs::Access::access_of))]
pub fn access_of(instr: &Instr) -> Option<MemAccess>
    ensures { result ≡ access_in instr.now }
{
    match *instr {
        Instr::LoadLiteral { kind, rt, .. } => literal(kind, rt),
        Instr::Pair { kind, load, rt, .. } => Some(MemAccess {
            size: kind.size(),
            store: !load,
            signed: kind == PairKind::SignedWord,
            wide: kind != PairKind::Word,
            rt,
            described: false,
        }),
        Instr::LoadStoreUnsigned { size, transfer, rt, .. } | Instr::LoadStoreRegister { size, transfer, rt, .. } =>
            single(size, transfer, rt, true),
        Instr::LoadStoreIndexed { size, transfer, mode, rt, .. } =>
            single(size, transfer, rt, mode == IndexMode::Offset),
        Instr::Address { .. } | Instr::AddSubImmediate { .. } | Instr::LogicalImmediate { .. }
        | Instr::MoveWide { .. } | Instr::Bitfield { .. } | Instr::Extract { .. } | Instr::Branch { .. }
        | Instr::BranchConditional { .. } | Instr::CompareBranch { .. } | Instr::TestBranch { .. }
        | Instr::BranchRegister { .. } | Instr::ExceptionReturn | Instr::Exception { .. } | Instr::Hint { .. }
        | Instr::Barrier { .. } | Instr::MsrImmediate { .. } | Instr::System { .. } | Instr::SystemRegister { .. }
        | Instr::LogicalShifted { .. } | Instr::AddSubShifted { .. } | Instr::AddSubExtended { .. }
        | Instr::AddSubCarry { .. } | Instr::ConditionalCompare { .. } | Instr::ConditionalSelect { .. }
        | Instr::ThreeSources { .. } | Instr::TwoSources { .. } | Instr::OneSource { .. } | Instr::Undefined => None,
    }
}

/// The load of a literal.
fn literal(kind: LiteralKind, rt: Reg) -> Option<MemAccess>
    ensures { result ≡ literal_access kind rt }
{
    if kind == LiteralKind::Prefetch {
        return None;
    }
    Some(MemAccess {
        size: kind.size(),
        store: false,
        signed: kind == LiteralKind::SignedWord,
        wide: kind != LiteralKind::Word,
        rt,
        described: true,
    })
}

/// The load or store of one register at a base.
fn single(size: Size, transfer: Transfer, rt: Reg, described: bool) -> Option<MemAccess>
    ensures { result ≡ single_access size transfer rt described }
{
    if is_prefetch(size, transfer) {
        return None;
    }
    Some(MemAccess {
        size,
        store: transfer == Transfer::Store,
        signed: transfer == Transfer::LoadSigned || transfer == Transfer::LoadSignedWord,
        wide: size == Size::Double || transfer == Transfer::LoadSigned,
        rt,
        described,
    })
}
