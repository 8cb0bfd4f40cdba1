//! Logic and sums of shifted and extended registers.
#![tactic(auto, unfolding(crate::specs::Table::register_rows, crate::specs::Table::logical_shifted_row, crate::specs::Table::add_sub_shifted_row, crate::specs::Table::add_sub_extended_row, crate::specs::Table::add_sub_carry_row))]

ghost use Rattle.std.specs.Prelude.{◌≡◌};
ghost use Rattle.a64_decode.specs.Pattern.{reading_of, first_reading};
ghost use Rattle.a64_decode.specs.Table.{logical_shifted_row, add_sub_shifted_row, add_sub_extended_row, add_sub_carry_row, register_rows};
ghost use Rattle.a64_decode.specs.Lawful.{IsLawful};

use crate::field::{extend, flag, logical, reg, shift, small};
use crate::{Instr, Shift, source};
use bao_types::field;

/// The table from the shifted registers on.
#[inline(always)]
pub(crate) fn decode_register(word: u32) -> Instr
    ensures row { result ≡ first_reading register_rows word }
    ensures lawful { IsLawful result }
{
    if field(word, 28, 24) == 0b01010 {
        logical_shifted(word)
    } else if field(word, 28, 24) == 0b01011 && field(word, 21, 21) == 0 {
        add_sub_shifted(word)
    } else if field(word, 28, 21) == 0b01011001 {
        add_sub_extended(word)
    } else if field(word, 28, 21) == 0b11010000 && field(word, 15, 10) == 0 {
        add_sub_carry(word)
    } else {
        source::decode_source(word)
    }
}

#[inline(always)]
fn logical_shifted(word: u32) -> Instr
    ensures row { result ≡ reading_of logical_shifted_row word }
    ensures lawful { IsLawful result }
{
    let wide = flag(word, 31);
    let amount = small(word, 15, 10);
    if amount > 31 && !wide {
        return Instr::Undefined;
    }
    Instr::LogicalShifted {
        wide,
        kind: logical(field(word, 30, 29)),
        shift: shift(field(word, 23, 22)),
        invert: flag(word, 21),
        rm: reg(word, 16),
        amount,
        rn: reg(word, 5),
        rd: reg(word, 0),
    }
}

#[inline(always)]
fn add_sub_shifted(word: u32) -> Instr
    ensures row { result ≡ reading_of add_sub_shifted_row word }
    ensures lawful { IsLawful result }
{
    let wide = flag(word, 31);
    let amount = small(word, 15, 10);
    let shift = match field(word, 23, 22) {
        0 => Shift::Lsl,
        1 => Shift::Lsr,
        2 => Shift::Asr,
        _ => return Instr::Undefined,
    };
    if !wide && amount > 31 {
        return Instr::Undefined;
    }
    Instr::AddSubShifted {
        wide,
        subtract: flag(word, 30),
        flags: flag(word, 29),
        shift,
        rm: reg(word, 16),
        amount,
        rn: reg(word, 5),
        rd: reg(word, 0),
    }
}

#[inline(always)]
fn add_sub_extended(word: u32) -> Instr
    ensures row { result ≡ reading_of add_sub_extended_row word }
    ensures lawful { IsLawful result }
{
    let amount = small(word, 12, 10);
    if amount > 4 {
        return Instr::Undefined;
    }
    Instr::AddSubExtended {
        wide: flag(word, 31),
        subtract: flag(word, 30),
        flags: flag(word, 29),
        rm: reg(word, 16),
        extend: extend(field(word, 15, 13)),
        amount,
        rn: reg(word, 5),
        rd: reg(word, 0),
    }
}

#[inline(always)]
fn add_sub_carry(word: u32) -> Instr
    ensures row { result ≡ reading_of add_sub_carry_row word }
    ensures lawful { IsLawful result }
{
    Instr::AddSubCarry {
        wide: flag(word, 31),
        subtract: flag(word, 30),
        flags: flag(word, 29),
        rm: reg(word, 16),
        rn: reg(word, 5),
        rd: reg(word, 0),
    }
}
