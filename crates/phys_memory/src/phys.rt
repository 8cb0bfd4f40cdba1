//! `Phys` and its calls. A clause sees a block as the list of its bytes.
ghost use Rattle.std.specs.Prelude.{◌≡◌, ℕ, ◌+◌, ◌^◌, ◌<◌, ◌≤◌, ◌++◌, length, take, drop, slice_index, slice_set, slice_range, IfOk};
ghost use Rattle.bao_types.specs.Bytes.{IsWidth, little_endian, low_bytes};
ghost use Rattle.bao_types.specs.Shape.{memory_limit};

use crate::block::{allocate, deallocate};
use crate::cells::{Base, Cells, Deed};
use bao_types::OutOfMemory;
use std::alloc::Global;
use std::marker::Model;

/// One block of at most 64 MiB of raw memory, freed when it is dropped. A contract sees it as the list of its
/// bytes; places count from 0.
pub struct Phys {
    base: Base,
    len: usize,
    cells: Cells,
    deed: Deed<Global>,
    alloc: Global,
}

impl Model for Phys {
    ghost use Rattle.std.specs.Prelude.{ℕ, List};

    ghost Value = { List ℕ };

    ghost use Rattle.phys_memory.specs.Phys.{bytes_of, IsPhys};

    ghost view = { bytes_of };

    ghost invariant = { IsPhys };
}

impl Drop for Phys {
    fn drop(self) {
        let Phys {
            base,
            len,
            cells,
            deed,
            alloc,
        } = self;
        deallocate(&alloc, base, len, cells, deed);
    }
}

impl Phys {
    /// A block of `len` bytes, all of them 0, or `OutOfMemory` where the allocator has none left. A block of no
    /// bytes works like any other.
    pub fn new(alloc: Global, len: u64) -> Result<Phys, OutOfMemory>
        requires { len ≤ memory_limit }
        ensures size { IfOk result (λ phys. length phys ≡ len) }
        ensures zero { IfOk result (λ phys. (at : ℕ) → slice_index phys at ≡ 0) }
    {
        let len = len as usize;
        let (base, mut cells, deed) = allocate(&alloc, len)?;
        cells.clear(base, len);
        Ok(Phys {
            base,
            len,
            cells,
            deed,
            alloc,
        })
    }

    /// How many bytes the block has.
    pub fn len(&self) -> u64
        ensures value { result ≡ length self.now }
        ensures bound { result ≤ memory_limit }
    {
        self.len as u64
    }

    /// The byte at `at`.
    pub fn get(&self, at: u64) -> u8
        requires { at < length self.now }
        ensures { result ≡ slice_index self.now at }
    {
        *self.cells.get(self.base, at as usize)
    }

    /// Gives the byte at `at` the value.
    pub fn set(&mut self, at: u64, value: u8)
        requires { at < length self.old }
        ensures { self.new ≡ slice_set self.old at value }
    {
        self.cells.set(self.base, at as usize, value);
    }

    /// The `width` bytes from `at` on, as a number whose least byte comes first.
    #[inline(always)]
    pub fn read_le(&self, at: u64, width: u32) -> u64
        requires width { IsWidth width }
        requires range { at + width ≤ length self.now }
        ensures value { result ≡ little_endian (slice_range self.now at (at + width)) }
        ensures bound { result < 256 ^ width }
    {
        // With a width that is known, the loop becomes a load or a few.
        match width {
            1 => self.number(at, 1),
            2 => self.number(at, 2),
            4 => self.number(at, 4),
            _ => self.number(at, 8),
        }
    }

    /// The same number, byte by byte.
    #[inline(always)]
    fn number(&self, at: u64, width: u32) -> u64
        requires width { IsWidth width }
        requires range { at + width ≤ length self.now }
        ensures value { result ≡ little_endian (slice_range self.now at (at + width)) }
        ensures bound { result < 256 ^ width }
    {
        // So no sum of places wraps.
        prove!(at <= self.len());
        let mut value = 0;
        for k in (0..u64::from(width)).rev() {
            value = value * 256 + u64::from(self.get(at + k));
        }
        value
    }

    /// Puts the lowest `width` bytes of the value at `at`, the least byte first. All other bytes stay.
    #[inline(always)]
    pub fn write_le(&mut self, at: u64, width: u32, value: u64)
        requires width { IsWidth width }
        requires range { at + width ≤ length self.old }
        ensures { self.new ≡ take at self.old ++ low_bytes width value ++ drop (at + width) self.old }
    {
        match width {
            1 => self.put_number(at, 1, value),
            2 => self.put_number(at, 2, value),
            4 => self.put_number(at, 4, value),
            _ => self.put_number(at, 8, value),
        }
    }

    /// Puts the same bytes one by one.
    #[inline(always)]
    fn put_number(&mut self, at: u64, width: u32, value: u64)
        requires width { IsWidth width }
        requires range { at + width ≤ length self.old }
        ensures { self.new ≡ take at self.old ++ low_bytes width value ++ drop (at + width) self.old }
    {
        prove!(at <= self.len());
        let mut rest = value;
        for k in 0..u64::from(width) {
            self.set(at + k, (rest % 256) as u8);
            rest /= 256;
        }
    }

    /// Puts the bytes at `at`. All other bytes stay.
    pub fn copy_in(&mut self, at: u64, bytes: &[u8])
        requires { at + length bytes.now ≤ length self.old }
        ensures { self.new ≡ take at self.old ++ bytes.now ++ drop (at + length bytes.now) self.old }
    {
        prove!(at <= self.len());
        for (k, byte) in bytes.iter().enumerate() {
            self.set(at + k as u64, *byte);
        }
    }
}
