//! Addresses, wide moves, and the moves of fields.
#![tactic(auto, unfolding(crate::specs::Moves::address_of, crate::specs::Moves::moved, crate::specs::Moves::placed, crate::specs::Moves::field_of, crate::specs::Moves::extracted))]

ghost use Rattle.std.specs.Prelude.{◌≡◌, ◌≤◌, ◌<◌, ◌+◌, ◌^◌};
ghost use Rattle.a64_alu.specs.Moves.{address_of, moved as moved_by, placed as placed_by, field_of as field_in, extracted as extracted_from};

use crate::number::{at, inverted, with_bits};
use a64_decode::{BitfieldKind, MoveKind, low, sign_extend};

/// PC plus bytes, or the start of PC's page of 4096 bytes plus pages.
pub(crate) fn address(page: bool, pc: u64, offset: u64) -> u64
    ensures { result ≡ address_of page pc offset }
{
    if page {
        (pc / 4096 * 4096).wrapping_add(offset.wrapping_mul(4096))
    } else {
        pc.wrapping_add(offset)
    }
}

/// 16 bits at their place with zeros around them, all that inverted, or in the old value.
pub(crate) fn moved(width: u32, kind: MoveKind, old: u64, place: u32, imm16: u16) -> u64
    requires width { width ≤ 64 }
    requires place { place + 16 ≤ width }
    requires number { imm16 < 2 ^ 16 }
    ensures { result ≡ moved_by width kind old place imm16 }
{
    match kind {
        MoveKind::Movn => inverted(width, at(u64::from(imm16), place, 16)),
        MoveKind::Movz => at(u64::from(imm16), place, 16),
        MoveKind::Movk => with_bits(old, place, 16, u64::from(imm16)),
    }
}

/// A field that is moved: its bits, how many there are, and the place where the lowest of them goes.
#[derive(Clone, Copy)]
pub struct Field {
    pub place: u32,
    pub count: u32,
    pub part: u64,
}

/// Bits `imms` down to `immr`, or to 0 where that is above, which go to the bottom, or to `width` minus `immr`.
pub(crate) fn field_of(width: u32, immr: u32, imms: u32, value: u64) -> Field
    requires width { width ≤ 64 }
    requires rotation { immr < width }
    requires last { imms < width }
    ensures field { result ≡ field_in width immr imms value }
    ensures some { 0 < result.count }
    ensures room { result.place + result.count ≤ width }
    ensures part { result.part < 2 ^ result.count }
{
    if immr <= imms {
        let count = imms + 1 - immr;
        Field {
            place: 0,
            count,
            part: low(value >> immr, count),
        }
    } else {
        Field {
            place: width - immr,
            count: imms + 1,
            part: low(value, imms + 1),
        }
    }
}

/// A field at its place: with copies of its highest bit above it and zeros below, in the old value, or with zeros around it.
pub(crate) fn placed(width: u32, kind: BitfieldKind, old: u64, field: Field) -> u64
    requires width { width ≤ 64 }
    requires some { 0 < field.count }
    requires room { field.place + field.count ≤ width }
    requires part { field.part < 2 ^ field.count }
    ensures { result ≡ placed_by width kind old field }
{
    match kind {
        BitfieldKind::Sbfm => low(sign_extend(field.count, field.part) << field.place, width),
        BitfieldKind::Bfm => with_bits(old, field.place, field.count, field.part),
        BitfieldKind::Ubfm => at(field.part, field.place, field.count),
    }
}

/// The lowest bits of two numbers, one above the other, shifted right.
pub(crate) fn extracted(width: u32, high: u64, low: u64, amount: u32) -> u64
    requires width { width ≤ 64 }
    requires amount { amount < width }
    ensures { result ≡ extracted_from width high low amount }
{
    let end = 1u128 << width;
    let pair = u128::from(high) * end + u128::from(low);
    ((pair >> amount) % end) as u64
}
