ghost use Rattle.std.specs.Prelude.{◌≡◌, ◌+◌, ◌*◌, ◌%◌, ◌<◌, ◌≤◌, ◌^◌, ◌+ℤ◌, pos, not, if◌then◌else◌};
ghost use Rattle.std.specs.Ordering.{int_eq};
ghost use Rattle.bao_types.specs.Sum.{signed, sum_of, add_carry_of};

use crate::Sum;

/// Addition with carry, of all 64 bits of the operands where `wide` is set, else of their lowest 32 bits (ARM DDI 0487,
/// "AddWithCarry").
pub fn add_carry(x: u64, y: u64, carry: bool, wide: bool) -> Sum
    ensures { result ≡ add_carry_of x y carry wide }
{
    if wide {
        sum(1 << 63, x, y, carry)
    } else {
        sum(1 << 31, x % (1 << 32), y % (1 << 32), carry)
    }
}

/// The sum of two numbers whose sign bits have the weight `half`.
fn sum(half: u64, x: u64, y: u64, carry: bool) -> Sum
    requires sign { 0 < half }
    requires half { half ≤ 2 ^ 63 }
    requires x { x < 2 * half }
    requires y { y < 2 * half }
    ensures { result ≡ sum_of half x y (if carry then 1 else 0) }
{
    let carry = u64::from(carry);
    let total = u128::from(x) + u128::from(y) + u128::from(carry);
    let value = remainder(total, 2 * u128::from(half));
    Sum {
        value,
        n: value >= half,
        z: value == 0,
        c: u128::from(value) != total,
        v: overflows(half, x, y, carry, value),
    }
}

/// A number below twice `end`, modulo `end`.
fn remainder(total: u128, end: u128) -> u64
    requires end { end ≤ 2 ^ 64 }
    requires total { total < 2 * end }
    ensures { result ≡ total % end }
{
    if total >= end {
        (total - end) as u64
    } else {
        total as u64
    }
}

/// Whether the sum of the signed numbers isn't the signed value: the operands have one sign and the value the other.
fn overflows(half: u64, x: u64, y: u64, carry: u64, value: u64) -> bool
    requires half { 0 < half }
    requires x { x < 2 * half }
    requires y { y < 2 * half }
    requires carry { carry ≤ 1 }
    requires value { value ≡ (x + y + carry) % (2 * half) }
    ensures { result ≡ not (int_eq (signed half value) (signed half x +ℤ signed half y +ℤ pos carry)) }
{
    (x >= half) == (y >= half) && (value >= half) != (x >= half)
}
