ghost use Rattle.std.specs.Prelude.{◌≡◌, ◌^◌, ◌<◌};

/// The end of the address space, 2^48: no address of a byte is as high.
pub const ADDRESS_SPACE_END: u64 = 0x1_0000_0000_0000;

/// The bytes from `base` on, `size` of them. `base + size` is the first byte after the range.
#[derive(Clone, Copy, Debug, Default, PartialEq, Eq)]
pub struct ByteRange {
    /// The address of the first byte.
    pub base: u64,
    /// The number of bytes.
    pub size: u64,
}

impl ByteRange {
    ghost use Rattle.bao_types.specs.ByteRange.{end, is_within, lies_in, overlaps};

    /// The first byte after the range.
    pub fn end(&self) -> u64
        requires { end self.now < 2 ^ 64 }
        ensures { result ≡ end self.now }
    {
        self.base + self.size
    }

    /// Whether the byte at `at` is in the range.
    pub fn contains(&self, at: u64) -> bool
        ensures { result ≡ is_within self.now at }
    {
        self.base <= at && at - self.base < self.size
    }

    /// Whether some byte is in both ranges. A range of no bytes overlaps none.
    pub fn overlaps(&self, other: &ByteRange) -> bool
        ensures { result ≡ overlaps self.now other.now }
    {
        if self.base <= other.base {
            other.size > 0 && other.base - self.base < self.size
        } else {
            self.size > 0 && self.base - other.base < other.size
        }
    }

    /// Whether the range begins and ends between the ends of `outer`, which so has all its bytes.
    pub fn lies_in(&self, outer: &ByteRange) -> bool
        ensures { result ≡ lies_in self.now outer.now }
    {
        outer.base <= self.base
            && self.size <= outer.size
            && self.base - outer.base <= outer.size - self.size
    }
}
