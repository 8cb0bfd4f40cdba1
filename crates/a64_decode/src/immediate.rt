//! The rows with an immediate operand.
#![tactic(auto, unfolding(crate::specs::Table::table, crate::specs::Table::address_row, crate::specs::Table::add_sub_immediate_row, crate::specs::Table::logical_immediate_row, crate::specs::Table::move_wide_row, crate::specs::Table::bitfield_row, crate::specs::Table::extract_row))]

ghost use Rattle.std.specs.Prelude.{◌≡◌};
ghost use Rattle.a64_decode.specs.Pattern.{reading_of, first_reading};
ghost use Rattle.a64_decode.specs.Table.{address_row, add_sub_immediate_row, logical_immediate_row, move_wide_row, bitfield_row, extract_row, table};
ghost use Rattle.a64_decode.specs.Lawful.{IsLawful};

use crate::field::{flag, logical, reg, small};
use crate::number::sign_extend;
use crate::{BitfieldKind, Instr, MoveKind, branch};
use bao_types::{bitmask, field};

/// The whole table.
#[inline(always)]
pub(crate) fn decode_immediate(word: u32) -> Instr
    ensures row { result ≡ first_reading table word }
    ensures lawful { IsLawful result }
{
    if field(word, 28, 24) == 0b10000 {
        address(word)
    } else if field(word, 28, 23) == 0b100010 {
        add_sub_immediate(word)
    } else if field(word, 28, 23) == 0b100100 {
        logical_immediate(word)
    } else if field(word, 28, 23) == 0b100101 {
        move_wide(word)
    } else if field(word, 28, 23) == 0b100110 {
        bitfield(word)
    } else if field(word, 30, 23) == 0b00100111 && field(word, 21, 21) == 0 {
        extract(word)
    } else {
        branch::decode_branch(word)
    }
}

#[inline(always)]
fn address(word: u32) -> Instr
    ensures row { result ≡ reading_of address_row word }
    ensures lawful { IsLawful result }
{
    Instr::Address {
        page: flag(word, 31),
        offset: sign_extend(21, u64::from(field(word, 23, 5) * 4 + field(word, 30, 29))),
        rd: reg(word, 0),
    }
}

#[inline(always)]
fn add_sub_immediate(word: u32) -> Instr
    ensures row { result ≡ reading_of add_sub_immediate_row word }
    ensures lawful { IsLawful result }
{
    Instr::AddSubImmediate {
        wide: flag(word, 31),
        subtract: flag(word, 30),
        flags: flag(word, 29),
        shifted: flag(word, 22),
        imm12: field(word, 21, 10) as u16,
        rn: reg(word, 5),
        rd: reg(word, 0),
    }
}

#[inline(always)]
fn logical_immediate(word: u32) -> Instr
    ensures row { result ≡ reading_of logical_immediate_row word }
    ensures lawful { IsLawful result }
{
    let wide = flag(word, 31);
    let n = field(word, 22, 22);
    let immr = field(word, 21, 16);
    let imms = field(word, 15, 10);
    if bitmask(n, immr, imms, wide).is_none() {
        return Instr::Undefined;
    }
    Instr::LogicalImmediate {
        wide,
        kind: logical(field(word, 30, 29)),
        n: n as u8,
        immr: immr as u8,
        imms: imms as u8,
        rn: reg(word, 5),
        rd: reg(word, 0),
    }
}

#[inline(always)]
fn move_wide(word: u32) -> Instr
    ensures row { result ≡ reading_of move_wide_row word }
    ensures lawful { IsLawful result }
{
    let wide = flag(word, 31);
    let kind = match field(word, 30, 29) {
        0 => MoveKind::Movn,
        2 => MoveKind::Movz,
        3 => MoveKind::Movk,
        _ => return Instr::Undefined,
    };
    let hw = small(word, 22, 21);
    if !wide && hw > 1 {
        return Instr::Undefined;
    }
    Instr::MoveWide {
        wide,
        kind,
        hw,
        imm16: field(word, 20, 5) as u16,
        rd: reg(word, 0),
    }
}

#[inline(always)]
fn bitfield(word: u32) -> Instr
    ensures row { result ≡ reading_of bitfield_row word }
    ensures lawful { IsLawful result }
{
    let wide = flag(word, 31);
    let kind = match field(word, 30, 29) {
        0 => BitfieldKind::Sbfm,
        1 => BitfieldKind::Bfm,
        2 => BitfieldKind::Ubfm,
        _ => return Instr::Undefined,
    };
    let immr = small(word, 21, 16);
    let imms = small(word, 15, 10);
    if flag(word, 22) != wide || !wide && (immr > 31 || imms > 31) {
        return Instr::Undefined;
    }
    Instr::Bitfield {
        wide,
        kind,
        immr,
        imms,
        rn: reg(word, 5),
        rd: reg(word, 0),
    }
}

#[inline(always)]
fn extract(word: u32) -> Instr
    ensures row { result ≡ reading_of extract_row word }
    ensures lawful { IsLawful result }
{
    let wide = flag(word, 31);
    let imms = small(word, 15, 10);
    if flag(word, 22) != wide || !wide && imms > 31 {
        return Instr::Undefined;
    }
    Instr::Extract {
        wide,
        rm: reg(word, 16),
        imms,
        rn: reg(word, 5),
        rd: reg(word, 0),
    }
}
