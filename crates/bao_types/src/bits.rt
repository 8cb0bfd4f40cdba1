ghost use Rattle.std.specs.Prelude.{◌≡◌, ◌≤◌};
ghost use Rattle.bao_types.specs.Bits.{field};

/// The bits `high` down to `low` of an instruction word, both ends included, as a number.
#[inline]
pub fn field(word: u32, high: u32, low: u32) -> u32
    requires order { low ≤ high }
    requires bound { high ≤ 31 }
    ensures { result ≡ field word high low }
{
    let above_low = u64::from(word) / (1 << low);
    (above_low % (1 << (high + 1 - low))) as u32
}
