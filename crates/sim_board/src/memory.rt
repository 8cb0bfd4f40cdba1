//! Numbers and images in a board's memory, by address.

ghost use Rattle.std.specs.Prelude.{◌≡◌, ℕ, ◌+◌, ◌≤◌, ◌<◌, ◌^◌, length, IsTrue};
ghost use Rattle.bao_types.specs.Bytes.{IsWidth};
ghost use Rattle.board.specs.Judge.{all_from};
ghost use Rattle.board.specs.Ports.{number_at as number_from, stores_from};
ghost use Rattle.board.specs.Machine.{over, with_byte, written};
ghost use Rattle.phys_bank.specs.Banks.{byte_at, is_kept};
ghost use Rattle.sim_board.specs.Memory.{IsSpanned};

use phys_bank::Banks;

/// 2^64, above which the second element of a pair of doublewords lies.
const HALF: u128 = 1 << 64;

/// The number that the bytes of an access from `at` on are, the least byte first. Addresses wrap at 2^64.
#[inline(always)]
pub(crate) fn number_at(memory: &Banks, at: u64, count: u32) -> u128
    requires { IsSpanned count }
    ensures value { result ≡ number_from (byte_at memory.now) at count }
    ensures bound { result < 256 ^ count }
{
    if count == 16 {
        let low = word_at(memory, at, 8);
        let high = word_at(memory, at.wrapping_add(8), 8);
        return u128::from(high) * HALF + u128::from(low);
    }
    u128::from(word_at(memory, at, count))
}

/// The number that one element is.
#[inline(always)]
pub(crate) fn word_at(memory: &Banks, at: u64, width: u32) -> u64
    requires { IsWidth width }
    ensures value { result ≡ number_from (byte_at memory.now) at width }
    ensures bound { result < 256 ^ width }
{
    memory.read_le(at, width)
}

/// Stores the lowest bytes of a value, as many as an access has, from `at` on, in address order. All of them are kept.
#[inline(always)]
pub(crate) fn store(memory: &mut Banks, at: u64, count: u32, value: u128)
    requires count { IsSpanned count }
    requires used { IsTrue (all_from (is_kept memory.old) at count) }
    ensures kept { is_kept memory.new ≡ is_kept memory.old }
    ensures bytes { byte_at memory.new ≡ written (stores_from at count value) (byte_at memory.old) }
{
    if count == 16 {
        store_word(memory, at, 8, (value % HALF) as u64);
        store_word(memory, at.wrapping_add(8), 8, (value / HALF) as u64);
    } else {
        store_word(memory, at, count, (value % HALF) as u64);
    }
}

/// Stores one element.
#[inline(always)]
fn store_word(memory: &mut Banks, at: u64, width: u32, value: u64)
    requires width { IsWidth width }
    requires used { IsTrue (all_from (is_kept memory.old) at width) }
    ensures kept { is_kept memory.new ≡ is_kept memory.old }
    ensures bytes { byte_at memory.new ≡ written (stores_from at width value) (byte_at memory.old) }
{
    memory.write_le(at, width, value);
}

/// Copies bytes into memory, from the address `at` on. All of them are kept.
pub(crate) fn copy_in(memory: &mut Banks, at: u64, bytes: &[u8])
    requires { (a : ℕ) → at ≤ a → a < at + length bytes.now → IsTrue (is_kept memory.old a) }
    ensures kept { is_kept memory.new ≡ is_kept memory.old }
    ensures bytes { byte_at memory.new ≡ over at bytes.now (byte_at memory.old) }
{
    for (k, byte) in bytes.iter().enumerate() {
        set(memory, at + k as u64, *byte);
    }
}

/// Sets the byte at an address, which is kept.
fn set(memory: &mut Banks, at: u64, byte: u8)
    requires { IsTrue (is_kept memory.old at) }
    ensures kept { is_kept memory.new ≡ is_kept memory.old }
    ensures bytes { byte_at memory.new ≡ with_byte at byte (byte_at memory.old) }
{
    memory.set(at, byte);
}
