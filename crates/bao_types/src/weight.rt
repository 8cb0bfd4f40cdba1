ghost use Rattle.std.specs.Prelude.{◌≡◌, ◌*◌, ◌^◌, ◌≤◌};
ghost use Rattle.bao_types.specs.Bytes.{IsWidth};

/// The weight, in a number whose least byte comes first, of what stands after an element of `width` bytes: one more
/// than the largest number of this many bytes.
#[inline]
pub fn weight_after(width: u32) -> u128
    requires { IsWidth width }
    ensures bits { result ≡ 2 ^ (8 * width) }
    ensures bytes { result ≡ 256 ^ width }
    ensures bound { result ≤ 2 ^ 64 }
    ensures some { 1 ≤ result }
{
    match width {
        1 => 1 << 8,
        2 => 1 << 16,
        4 => 1 << 32,
        _ => 1 << 64,
    }
}
