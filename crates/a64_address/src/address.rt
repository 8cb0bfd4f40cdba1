//! The parts of an address.

ghost use Rattle.std.specs.Prelude.{◌≡◌};
ghost use Rattle.a64_address.specs.Address.{address_of, back_of};

use a64_decode::IndexMode;

/// The address of an access by its base and offset.
#[inline(always)]
pub(crate) fn address(mode: IndexMode, base: u64, offset: u64) -> u64
    ensures { result ≡ address_of mode base offset }
{
    match mode {
        IndexMode::Post => base,
        IndexMode::Offset | IndexMode::Pre => base.wrapping_add(offset),
    }
}

/// What is written back to the base.
#[inline(always)]
pub(crate) fn back(mode: IndexMode, base: u64, offset: u64) -> Option<u64>
    ensures { result ≡ back_of mode base offset }
{
    match mode {
        IndexMode::Offset => None,
        IndexMode::Post | IndexMode::Pre => Some(base.wrapping_add(offset)),
    }
}
