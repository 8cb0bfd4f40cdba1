ghost use Rattle.std.specs.Prelude.{◌≡◌, ◌^◌, ◌<◌, ◌≤◌, ◌↔◌, IsTrue, IsNone, if◌then◌else◌};
ghost use Rattle.bao_types.specs.Bitmask.{element_log as element_log_of, is_reserved, rotated as rotated_by, filled as filled_with, bitmask_of};

/// The mask of a logical immediate, from the fields N, immr and imms of its word; in the 32-bit form the upper half is
/// zero. None for the reserved encodings (ARM DDI 0487, "DecodeBitMasks").
#[tactic(auto, unfolding(crate::specs::Bitmask::is_reserved, crate::specs::Bitmask::bitmask_of))]
pub fn bitmask(n: u32, immr: u32, imms: u32, wide: bool) -> Option<u64>
    requires bit { n < 2 }
    requires rotation { immr < 64 }
    requires size { imms < 64 }
    ensures mask { result ≡ bitmask_of n immr imms wide }
    ensures reserved { IsNone result ↔ IsTrue (is_reserved n imms wide) }
{
    let log = element_log(n, imms);
    if log == 0 || n == 1 && !wide {
        return None;
    }
    let size = 1 << log;
    let last = imms % size;
    if last == size - 1 {
        return None;
    }
    let ones = weight(last + 1) - 1;
    Some(filled(log, wide, rotated(size, ones, immr % size)))
}

/// The logarithm of the element's size, 0 where there is none.
fn element_log(n: u32, imms: u32) -> u32
    requires bit { n < 2 }
    requires size { imms < 64 }
    ensures value { result ≡ element_log_of n imms }
    ensures bound { result ≤ 6 }
{
    match 64 * n + (63 - imms) {
        64.. => 6,
        32.. => 5,
        16.. => 4,
        8.. => 3,
        4.. => 2,
        2.. => 1,
        _ => 0,
    }
}

/// An element of `size` bits, rotated right.
fn rotated(size: u32, element: u64, places: u32) -> u64
    requires size { size ≤ 64 }
    requires element { element < 2 ^ size }
    requires places { places < size }
    ensures rotated { result ≡ rotated_by size element places }
    ensures bound { result < 2 ^ size }
{
    if places == 0 {
        return element;
    }
    let below = weight(places);
    let above = weight(size - places);
    element / below + element % below * above
}

/// The weight of a bit.
fn weight(place: u32) -> u64
    requires { place < 64 }
    ensures { result ≡ 2 ^ place }
{
    1 << place
}

/// Copies of an element of `1 << log` bits, in all bits of the form.
fn filled(log: u32, wide: bool, element: u64) -> u64
    requires log { 0 < log }
    requires room { log ≤ (if wide then 6 else 5) }
    requires element { element < 2 ^ (2 ^ log) }
    ensures { result ≡ filled_with log wide element }
{
    element * filled_with_ones(log, wide)
}

/// The lowest bits of each element of `1 << log` bits.
#[tactic(auto, unfolding(crate::specs::Bitmask::repeated))]
fn filled_with_ones(log: u32, wide: bool) -> u64
    requires log { 0 < log }
    requires room { log ≤ (if wide then 6 else 5) }
    ensures { result ≡ filled_with log wide 1 }
{
    match (log, wide) {
        (1, true) => 0x5555_5555_5555_5555,
        (2, true) => 0x1111_1111_1111_1111,
        (3, true) => 0x0101_0101_0101_0101,
        (4, true) => 0x0001_0001_0001_0001,
        (5, true) => 0x0000_0001_0000_0001,
        (1, false) => 0x5555_5555,
        (2, false) => 0x1111_1111,
        (3, false) => 0x0101_0101,
        (4, false) => 0x0001_0001,
        _ => 1,
    }
}
