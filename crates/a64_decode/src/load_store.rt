//! Loads and stores.
#![tactic(auto, unfolding(crate::specs::Table::load_store_rows, crate::specs::Table::load_literal_row, crate::specs::Table::pair_row, crate::specs::Table::load_store_unsigned_row, crate::specs::Table::load_store_indexed_row, crate::specs::Table::load_store_register_row))]

ghost use Rattle.std.specs.Prelude.{◌≡◌};
ghost use Rattle.a64_decode.specs.Pattern.{reading_of, first_reading};
ghost use Rattle.a64_decode.specs.Table.{load_literal_row, pair_row, load_store_unsigned_row, load_store_indexed_row, load_store_register_row, load_store_rows};
ghost use Rattle.a64_decode.specs.Lawful.{IsLawful, is_overwritten as is_overwritten_by, has_no_transfer as lacks_transfer, is_prefetch as prefetches};

use crate::field::{flag, reg, size, transfer};
use crate::number::sign_extend;
use crate::{Extend, IndexMode, Instr, LiteralKind, PairKind, Reg, Size, Transfer};
use bao_types::field;

/// The table from the loads of a literal on.
#[inline(always)]
pub(crate) fn decode_load_store(word: u32) -> Instr
    ensures row { result ≡ first_reading load_store_rows word }
    ensures lawful { IsLawful result }
{
    if field(word, 29, 24) == 0b011000 {
        load_literal(word)
    } else if field(word, 29, 26) == 0b1010 {
        pair(word)
    } else if field(word, 29, 24) == 0b111001 {
        load_store_unsigned(word)
    } else if field(word, 29, 24) == 0b111000 && field(word, 21, 21) == 0 {
        load_store_indexed(word)
    } else if field(word, 29, 24) == 0b111000
        && field(word, 21, 21) == 1
        && field(word, 11, 10) == 0b10
    {
        load_store_register(word)
    } else {
        Instr::Undefined
    }
}

#[inline(always)]
fn load_literal(word: u32) -> Instr
    ensures row { result ≡ reading_of load_literal_row word }
    ensures lawful { IsLawful result }
{
    let kind = match field(word, 31, 30) {
        0 => LiteralKind::Word,
        1 => LiteralKind::Double,
        2 => LiteralKind::SignedWord,
        _ => LiteralKind::Prefetch,
    };
    Instr::LoadLiteral {
        kind,
        offset: sign_extend(19, u64::from(field(word, 23, 5))),
        rt: reg(word, 0),
    }
}

#[inline(always)]
fn pair(word: u32) -> Instr
    ensures row { result ≡ reading_of pair_row word }
    ensures lawful { IsLawful result }
{
    let load = flag(word, 22);
    let kind = match (field(word, 31, 30), load) {
        (0, _) => PairKind::Word,
        (1, true) => PairKind::SignedWord,
        (2, _) => PairKind::Double,
        _ => return Instr::Undefined,
    };
    let mode = match field(word, 25, 23) {
        1 => IndexMode::Post,
        2 => IndexMode::Offset,
        3 => IndexMode::Pre,
        _ => return Instr::Undefined,
    };
    let (rt2, rn, rt) = (reg(word, 10), reg(word, 5), reg(word, 0));
    if load && rt == rt2 || is_overwritten(mode, rn, rt) || is_overwritten(mode, rn, rt2) {
        return Instr::Undefined;
    }
    Instr::Pair {
        kind,
        mode,
        load,
        offset: sign_extend(7, u64::from(field(word, 21, 15))),
        rt2,
        rn,
        rt,
    }
}

#[inline(always)]
fn load_store_unsigned(word: u32) -> Instr
    ensures row { result ≡ reading_of load_store_unsigned_row word }
    ensures lawful { IsLawful result }
{
    let size = size(field(word, 31, 30));
    let transfer = transfer(field(word, 23, 22));
    if has_no_transfer(size, transfer) {
        return Instr::Undefined;
    }
    Instr::LoadStoreUnsigned {
        size,
        transfer,
        imm12: field(word, 21, 10) as u16,
        rn: reg(word, 5),
        rt: reg(word, 0),
    }
}

#[inline(always)]
fn load_store_indexed(word: u32) -> Instr
    ensures row { result ≡ reading_of load_store_indexed_row word }
    ensures lawful { IsLawful result }
{
    let size = size(field(word, 31, 30));
    let transfer = transfer(field(word, 23, 22));
    let mode = match field(word, 11, 10) {
        0 => IndexMode::Offset,
        1 => IndexMode::Post,
        3 => IndexMode::Pre,
        _ => return Instr::Undefined,
    };
    let (rn, rt) = (reg(word, 5), reg(word, 0));
    if has_no_transfer(size, transfer) || is_overwritten(mode, rn, rt) {
        return Instr::Undefined;
    }
    if mode != IndexMode::Offset && is_prefetch(size, transfer) {
        return Instr::Undefined;
    }
    Instr::LoadStoreIndexed {
        size,
        transfer,
        offset: sign_extend(9, u64::from(field(word, 20, 12))),
        mode,
        rn,
        rt,
    }
}

#[inline(always)]
fn load_store_register(word: u32) -> Instr
    ensures row { result ≡ reading_of load_store_register_row word }
    ensures lawful { IsLawful result }
{
    let size = size(field(word, 31, 30));
    let transfer = transfer(field(word, 23, 22));
    let extend = match field(word, 15, 13) {
        2 => Extend::Uxtw,
        3 => Extend::Uxtx,
        6 => Extend::Sxtw,
        7 => Extend::Sxtx,
        _ => return Instr::Undefined,
    };
    if has_no_transfer(size, transfer) {
        return Instr::Undefined;
    }
    Instr::LoadStoreRegister {
        size,
        transfer,
        rm: reg(word, 16),
        extend,
        scaled: flag(word, 12),
        rn: reg(word, 5),
        rt: reg(word, 0),
    }
}

/// Whether a write-back goes to the register that is transferred; SP is no such register.
fn is_overwritten(mode: IndexMode, base: Reg, transferred: Reg) -> bool
    ensures { result ≡ is_overwritten_by mode base transferred }
{
    mode != IndexMode::Offset && base.0 != 31 && base.0 == transferred.0
}

/// Whether the word asks for a signed load to 32 bits of a word or a double word.
fn has_no_transfer(size: Size, transfer: Transfer) -> bool
    ensures { result ≡ lacks_transfer size transfer }
{
    transfer == Transfer::LoadSignedWord && (size == Size::Word || size == Size::Double)
}

/// Whether a load or store of one register is a signed load of a double word, which is a prefetch and does nothing.
pub fn is_prefetch(size: Size, transfer: Transfer) -> bool
    ensures { result ≡ prefetches size transfer }
{
    size == Size::Double && transfer == Transfer::LoadSigned
}
