//! Which page has a byte.
ghost use Rattle.std.specs.Prelude.{◌≡◌, ◌<◌, true};
ghost use Rattle.bao_types.specs.ByteRange.{is_within};
ghost use Rattle.phys_bank.specs.Places.{page_count, spot_in, spot_of};
ghost use Rattle.phys_bank.specs.Pages.{page_number};

use crate::bank_place::BankPlace;
use bao_types::ByteRange;

/// The number of bytes of a page.
pub(crate) const PAGE_SIZE: u64 = 4096;

/// Where a byte lies.
#[derive(Clone, Copy)]
pub struct Spot {
    /// The page's place in the directory.
    pub(crate) entry: usize,
    /// The byte's place in the page.
    pub(crate) offset: u64,
    /// How many bytes from this one on are in the same page and in the bank.
    pub(crate) room: u64,
}

impl BankPlace {
    /// How many pages have the bank's bytes.
    pub(crate) fn pages(&self) -> usize
        ensures { result ≡ page_count self.now.range }
    {
        ((self.range.size + (PAGE_SIZE - 1)) / PAGE_SIZE) as usize
    }

    /// The addresses of a page of the bank; the last page ends where the bank does.
    pub(crate) fn page(&self, number: usize) -> ByteRange
        requires { number < page_count self.now.range }
        ensures { result ≡ page_number self.now.range number }
    {
        let from = number as u64 * PAGE_SIZE;
        ByteRange {
            base: self.range.base + from,
            size: PAGE_SIZE.min(self.range.size - from),
        }
    }

    /// Where a byte of the bank lies.
    #[inline(always)]
    fn spot(&self, at: u64) -> Spot
        requires { is_within self.now.range at ≡ true }
        ensures { result ≡ spot_in self.now at }
    {
        let from = at - self.range.base;
        let offset = from % PAGE_SIZE;
        Spot {
            entry: self.first + (from / PAGE_SIZE) as usize,
            offset,
            room: (PAGE_SIZE - offset).min(self.range.size - from),
        }
    }
}

/// Where the byte at an address lies, if a bank has it.
#[inline(always)]
pub(crate) fn find(places: &[BankPlace], at: u64) -> Option<Spot>
    ensures { result ≡ spot_of places.now at }
{
    for place in places {
        if place.range.contains(at) {
            return Some(place.spot(at));
        }
    }
    None
}
