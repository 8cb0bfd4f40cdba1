//! `Banks` and its calls.
ghost use Rattle.std.specs.Prelude.{◌≡◌, ℕ, ◌+◌, ◌^◌, ◌<◌, ◌≤◌, [], ◌∷◌, All, Some, map, length, sum, IsTrue, IsFalse, IfOk};
ghost use Rattle.std.specs.List.{AllPairs, list_any};
ghost use Rattle.bao_types.specs.ByteRange.{address_space_end, end, is_in_one, lies_in, overlaps};
ghost use Rattle.bao_types.specs.Bytes.{IsWidth, little_endian, low_bytes, bytes_from};
ghost use Rattle.bao_types.specs.Shape.{memory_limit};
ghost use Rattle.phys_bank.specs.Banks.{byte_at, is_kept, IsWritten};
ghost use Rattle.phys_bank.specs.Directory.{is_page};
ghost use Rattle.phys_bank.specs.Pages.{shares_page};
ghost use Rattle.phys_bank.specs.Places.{spot_of};

use crate::bank_place::BankPlace;
use crate::directory::Directory;
use crate::fill::fill;
use crate::layout::lay_out;
use crate::place::{Spot, find};
use arrayvec::ArrayVec;
use bao_types::{ByteRange, OutOfMemory};
use std::alloc::Global;
use std::marker::Model;

/// The memory of a board's banks. Bytes are kept in pages of 4096, which count from their bank's base; there are pages where
/// some byte is in use, and all other bytes are 0.
#[derive(Drop)]
pub struct Banks {
    places: ArrayVec<BankPlace, 8>,
    directory: Directory,
}

impl Model for Banks {
    ghost use Rattle.phys_bank.specs.Banks.{BanksData, IsBanks};

    ghost Value = { BanksData };

    ghost view = { λ banks. record { places = banks.places.items; pages = banks.directory } };

    ghost invariant = { λ banks. IsBanks (record { places = banks.places.items; pages = banks.directory }) };
}

impl Banks {
    /// Banks of zeros, with the pages in which a byte of the used ranges lies, or `OutOfMemory` where the allocator has none
    /// left. The banks are at most eight, end at or below 2^48, don't overlap and have at most 64 MiB together.
    pub fn new(alloc: Global, banks: &[ByteRange], used: &[ByteRange]) -> Result<Banks, OutOfMemory>
        requires count { length banks.now ≤ 8 }
        requires ends { All (λ bank. end bank ≤ address_space_end) banks.now }
        requires apart { AllPairs (λ one other. IsFalse (overlaps one other)) banks.now }
        requires total { sum (map (λ bank. bank.size) banks.now) ≤ memory_limit }
        ensures zero { IfOk result (λ made. byte_at made ≡ (λ at. 0)) }
        ensures pages { IfOk result (λ made. is_kept made ≡ shares_page banks.now used.now) }
        ensures used { IfOk result (λ made. All (λ range. IsTrue (list_any (lies_in range) banks.now)) used.now
            → (at : ℕ) → IsTrue (is_in_one (λ range. range) used.now at) → IsTrue (is_kept made at)) }
    {
        let (places, count) = lay_out(banks);
        let mut directory = Directory::new(alloc, count)?;
        fill(&mut directory, alloc, &places, used)?;
        Ok(Banks { places, directory })
    }

    /// The byte at an address, 0 outside the pages.
    pub fn get(&self, at: u64) -> u8
        ensures { result ≡ byte_at self.now at }
    {
        let Some(spot) = find(&self.places, at) else {
            return 0;
        };
        match self.directory.get(spot.entry) {
            Some(page) => page.get(spot.offset),
            None => 0,
        }
    }

    /// Whether the byte at an address has a page.
    pub fn keeps(&self, at: u64) -> bool
        ensures { result ≡ is_kept self.now at }
    {
        match find(&self.places, at) {
            Some(spot) => self.directory.get(spot.entry).is_some(),
            None => false,
        }
    }

    /// Gives the byte at an address the value. The byte has a page.
    pub fn set(&mut self, at: u64, value: u8)
        requires { IsTrue (is_kept self.old at) }
        ensures { IsWritten self.old self.new at (value ∷ []) }
    {
        let Some(spot) = find(&self.places, at) else {
            unreachable!()
        };
        self.write_within(at, spot, 1, u64::from(value));
    }

    /// The `width` bytes from `at` on, as a number whose least byte comes first. Addresses wrap at 2^64.
    #[inline(always)]
    pub fn read_le(&self, at: u64, width: u32) -> u64
        requires { IsWidth width }
        ensures value { result ≡ little_endian (bytes_from (byte_at self.now) at width) }
        ensures bound { result < 256 ^ width }
    {
        if let Some(spot) = find(&self.places, at) {
            if u64::from(width) <= spot.room {
                return self.read_within(at, spot, width);
            }
        }
        self.read_across(at, width)
    }

    /// Puts the lowest `width` bytes of the value at `at`, the least byte first. All these bytes have pages.
    #[inline(always)]
    pub fn write_le(&mut self, at: u64, width: u32, value: u64)
        requires width { IsWidth width }
        requires kept { (k : ℕ) → k < width → IsTrue (is_kept self.old (at + k)) }
        ensures { IsWritten self.old self.new at (low_bytes width value) }
    {
        let Some(spot) = find(&self.places, at) else {
            unreachable!()
        };
        if u64::from(width) <= spot.room {
            self.write_within(at, spot, width, value);
        } else {
            self.write_across(at, width, value);
        }
    }

    /// A number that lies in one page of a bank.
    #[inline(always)]
    fn read_within(&self, _at: u64, spot: Spot, width: u32) -> u64
        requires width { IsWidth width }
        requires spot { spot_of self.now.places _at ≡ Some spot }
        requires room { width ≤ spot.room }
        ensures value { result ≡ little_endian (bytes_from (byte_at self.now) _at width) }
        ensures bound { result < 256 ^ width }
    {
        match self.directory.get(spot.entry) {
            Some(page) => page.read_le(spot.offset, width),
            None => 0,
        }
    }

    /// A number, byte by byte.
    #[inline(never)]
    fn read_across(&self, at: u64, width: u32) -> u64
        requires { IsWidth width }
        ensures value { result ≡ little_endian (bytes_from (byte_at self.now) at width) }
        ensures bound { result < 256 ^ width }
    {
        let mut value = 0;
        for k in (0..u64::from(width)).rev() {
            value = value * 256 + u64::from(self.get(at.wrapping_add(k)));
        }
        value
    }

    /// Writes a number that lies in one page of a bank.
    #[inline(always)]
    fn write_within(&mut self, _at: u64, spot: Spot, width: u32, value: u64)
        requires width { IsWidth width }
        requires spot { spot_of self.old.places _at ≡ Some spot }
        requires room { width ≤ spot.room }
        requires page { IsTrue (is_page self.old.pages spot.entry) }
        ensures { IsWritten self.old self.new _at (low_bytes width value) }
    {
        self.directory.write(spot.entry, spot.offset, width, value);
    }

    /// Writes a number byte by byte.
    #[inline(never)]
    fn write_across(&mut self, at: u64, width: u32, value: u64)
        requires width { IsWidth width }
        requires kept { (k : ℕ) → k < width → IsTrue (is_kept self.old (at + k)) }
        requires end { at + width ≤ address_space_end }
        ensures { IsWritten self.old self.new at (low_bytes width value) }
    {
        let mut rest = value;
        for k in 0..u64::from(width) {
            self.set(at + k, (rest % 256) as u8);
            rest /= 256;
        }
    }
}
