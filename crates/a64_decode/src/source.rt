//! Conditional instructions, and operations on one to three registers.
#![tactic(auto, unfolding(crate::specs::Table::source_rows, crate::specs::Table::conditional_compare_row, crate::specs::Table::conditional_select_row, crate::specs::Table::three_sources_row, crate::specs::Table::two_sources_row, crate::specs::Table::one_source_row))]

ghost use Rattle.std.specs.Prelude.{◌≡◌};
ghost use Rattle.a64_decode.specs.Pattern.{reading_of, first_reading};
ghost use Rattle.a64_decode.specs.Table.{conditional_compare_row, conditional_select_row, three_sources_row, two_sources_row, one_source_row, source_rows};
ghost use Rattle.a64_decode.specs.Lawful.{IsLawful};

use crate::field::{condition, flag, reg, small};
use crate::{Instr, OneSourceKind, Operand, ProductKind, SelectKind, TwoSourceKind, load_store};
use bao_types::field;

/// The table from the conditional compares on.
#[inline(always)]
pub(crate) fn decode_source(word: u32) -> Instr
    ensures row { result ≡ first_reading source_rows word }
    ensures lawful { IsLawful result }
{
    if field(word, 29, 21) == 0b111010010 && field(word, 10, 10) == 0 && field(word, 4, 4) == 0 {
        conditional_compare(word)
    } else if field(word, 29, 21) == 0b011010100 && field(word, 11, 11) == 0 {
        conditional_select(word)
    } else if field(word, 30, 24) == 0b0011011 {
        three_sources(word)
    } else if field(word, 30, 21) == 0b0011010110 {
        two_sources(word)
    } else if field(word, 30, 16) == 0b101101011000000 {
        one_source(word)
    } else {
        load_store::decode_load_store(word)
    }
}

#[inline(always)]
fn conditional_compare(word: u32) -> Instr
    ensures row { result ≡ reading_of conditional_compare_row word }
    ensures lawful { IsLawful result }
{
    let operand = if flag(word, 11) {
        Operand::Immediate(small(word, 20, 16))
    } else {
        Operand::Register(reg(word, 16))
    };
    Instr::ConditionalCompare {
        wide: flag(word, 31),
        subtract: flag(word, 30),
        operand,
        condition: condition(field(word, 15, 12)),
        rn: reg(word, 5),
        nzcv: small(word, 3, 0),
    }
}

#[inline(always)]
fn conditional_select(word: u32) -> Instr
    ensures row { result ≡ reading_of conditional_select_row word }
    ensures lawful { IsLawful result }
{
    let kind = match (flag(word, 30), flag(word, 10)) {
        (false, false) => SelectKind::Csel,
        (false, true) => SelectKind::Csinc,
        (true, false) => SelectKind::Csinv,
        (true, true) => SelectKind::Csneg,
    };
    Instr::ConditionalSelect {
        wide: flag(word, 31),
        kind,
        rm: reg(word, 16),
        condition: condition(field(word, 15, 12)),
        rn: reg(word, 5),
        rd: reg(word, 0),
    }
}

#[inline(always)]
fn three_sources(word: u32) -> Instr
    ensures row { result ≡ reading_of three_sources_row word }
    ensures lawful { IsLawful result }
{
    let wide = flag(word, 31);
    let kind = match (wide, field(word, 23, 21), flag(word, 15)) {
        (_, 0, false) => ProductKind::Madd,
        (_, 0, true) => ProductKind::Msub,
        (true, 1, false) => ProductKind::Smaddl,
        (true, 1, true) => ProductKind::Smsubl,
        (true, 2, false) => ProductKind::Smulh,
        (true, 5, false) => ProductKind::Umaddl,
        (true, 5, true) => ProductKind::Umsubl,
        (true, 6, false) => ProductKind::Umulh,
        _ => return Instr::Undefined,
    };
    Instr::ThreeSources {
        wide,
        kind,
        rm: reg(word, 16),
        ra: reg(word, 10),
        rn: reg(word, 5),
        rd: reg(word, 0),
    }
}

#[inline(always)]
fn two_sources(word: u32) -> Instr
    ensures row { result ≡ reading_of two_sources_row word }
    ensures lawful { IsLawful result }
{
    let kind = match field(word, 15, 10) {
        2 => TwoSourceKind::Udiv,
        3 => TwoSourceKind::Sdiv,
        8 => TwoSourceKind::Lslv,
        9 => TwoSourceKind::Lsrv,
        10 => TwoSourceKind::Asrv,
        11 => TwoSourceKind::Rorv,
        _ => return Instr::Undefined,
    };
    Instr::TwoSources {
        wide: flag(word, 31),
        kind,
        rm: reg(word, 16),
        rn: reg(word, 5),
        rd: reg(word, 0),
    }
}

#[inline(always)]
fn one_source(word: u32) -> Instr
    ensures row { result ≡ reading_of one_source_row word }
    ensures lawful { IsLawful result }
{
    let wide = flag(word, 31);
    let kind = match (wide, field(word, 15, 10)) {
        (_, 0) => OneSourceKind::Rbit,
        (_, 1) => OneSourceKind::Rev16,
        (_, 2) => OneSourceKind::Rev32,
        (true, 3) => OneSourceKind::Rev64,
        (_, 4) => OneSourceKind::Clz,
        (_, 5) => OneSourceKind::Cls,
        _ => return Instr::Undefined,
    };
    Instr::OneSource {
        wide,
        kind,
        rn: reg(word, 5),
        rd: reg(word, 0),
    }
}
