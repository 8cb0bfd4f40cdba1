//! A bank, with the place of its pages.
ghost use Rattle.std.specs.Prelude.{◌≤◌};
ghost use Rattle.bao_types.specs.ByteRange.{address_space_end, end};

use bao_types::ByteRange;

/// A bank, and the place of its first page in the directory.
#[derive(Clone, Copy)]
pub struct BankPlace {
    pub(crate) range: ByteRange,
    pub(crate) first: usize,
    ghost space: { end range ≤ address_space_end },
    /// So no sum of places wraps.
    ghost low: { first ≤ 0x10000 },
}

impl Default for BankPlace {
    fn default() -> BankPlace {
        BankPlace {
            range: ByteRange { base: 0, size: 0 },
            first: 0,
        }
    }
}
