ghost use Rattle.std.specs.Prelude.{◌≡◌, ℕ, max, true, false};
ghost use Rattle.bao_types.specs.declared.range.ByteRange.{ByteRange};
ghost use Rattle.bao_types.specs.ByteRange.{is_within, lies_in, overlaps};

/// The laws of ranges, byte by byte: two that overlap have a byte in common and two others none, and a range that lies
/// in another has all its bytes there.
pub fn laws_of_ranges()
    ensures shared { (one other : ByteRange) → overlaps one other ≡ true →
        (is_within one (max one.base other.base) ≡ true) × (is_within other (max one.base other.base) ≡ true) }
    ensures apart { (one other : ByteRange) (at : ℕ) → overlaps one other ≡ false →
        is_within one at ≡ true → is_within other at ≡ false }
    ensures inside { (inner outer : ByteRange) (at : ℕ) → lies_in inner outer ≡ true →
        is_within inner at ≡ true → is_within outer at ≡ true }
{}
