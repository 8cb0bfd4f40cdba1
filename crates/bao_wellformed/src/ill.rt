//! What is said of a configuration that isn't well formed.

use bao_types::ByteRange;

/// What stands in `vm` and `item` of an `Ill` where the rule names none.
pub const NONE: u8 = 255;

/// What stands in `first` and `second` of an `Ill` where the rule names none.
pub const NO_RANGE: ByteRange = ByteRange { base: 0, size: 0 };

/// A break of a rule. The page `docs/configuration.md` says what each rule names.
#[derive(Clone, Copy, Debug, PartialEq, Eq)]
pub struct Ill {
    /// The number of the rule, 1 to 22.
    pub rule: u8,
    /// The place of the VM in the configuration, or `NONE`.
    pub vm: u8,
    /// The place of the item in its list, or `NONE`.
    pub item: u8,
    pub first: ByteRange,
    pub second: ByteRange,
}

impl Ill {
    ghost use Rattle.std.specs.Prelude.{◌≡◌};
    ghost use Rattle.bao_wellformed.specs.Break.{broken};

    /// A break of the rule that names nothing.
    pub(crate) fn of(rule: u8) -> Ill
        ensures { result ≡ broken rule }
    {
        Ill {
            rule,
            vm: NONE,
            item: NONE,
            first: NO_RANGE,
            second: NO_RANGE,
        }
    }
}
