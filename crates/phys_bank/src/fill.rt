//! The pages that the used ranges ask for.
ghost use Rattle.std.specs.Prelude.{◌≡◌, ℕ, ◌+◌, ◌<◌, ◌≤◌, ◌≢◌, true, None, Some, length, slice_get, IfOk};
ghost use Rattle.phys_bank.specs.Directory.{page_at, is_page};
ghost use Rattle.phys_bank.specs.Filled.{HasZeroPages, IsFilled, IsEmptyFrom};
ghost use Rattle.phys_bank.specs.Places.{AreLaid, page_count, total_pages};
ghost use Rattle.phys_bank.specs.Pages.{is_in_use};

use crate::bank_place::BankPlace;
use crate::directory::Directory;
use crate::place::PAGE_SIZE;
use bao_types::{ByteRange, OutOfMemory};
use phys_memory::Phys;
use std::alloc::Global;

/// Makes a page of zeros, at a place that has none.
fn make(directory: &mut Directory, alloc: Global, entry: usize) -> Result<(), OutOfMemory>
    requires range { entry < length directory.old }
    requires empty { page_at directory.old entry ≡ None }
    requires zero { HasZeroPages directory.old }
    ensures len { length directory.new ≡ length directory.old }
    ensures zero { HasZeroPages directory.new }
    ensures made { IfOk result (λ _. is_page directory.new entry ≡ true) }
    ensures others { (other : ℕ) → other ≢ entry → page_at directory.new other ≡ page_at directory.old other }
{
    let page = Phys::new(alloc, PAGE_SIZE)?;
    match Box::new(alloc, page) {
        Ok(page) => {
            directory.insert(entry, page);
            Ok(())
        }
        Err(_) => Err(OutOfMemory),
    }
}

/// Whether some byte of the page is in a used range.
fn is_used(used: &[ByteRange], page: ByteRange) -> bool
    ensures { result ≡ is_in_use used.now page }
{
    used.iter().any(|range| page.overlaps(range))
}

/// Makes the pages of a bank in which some byte is in use.
fn fill_bank(
    directory: &mut Directory,
    alloc: Global,
    place: &BankPlace,
    used: &[ByteRange],
) -> Result<(), OutOfMemory>
    requires range { place.now.first + page_count place.now.range ≤ length directory.old }
    requires empty { IsEmptyFrom place.now.first directory.old }
    requires zero { HasZeroPages directory.old }
    ensures len { length directory.new ≡ length directory.old }
    ensures zero { HasZeroPages directory.new }
    ensures filled { IfOk result (λ _. IsFilled used.now directory.new place.now) }
    ensures before { (other : ℕ) → other < place.now.first → page_at directory.new other ≡ page_at directory.old other }
    ensures behind { IsEmptyFrom (place.now.first + page_count place.now.range) directory.new }
{
    for number in 0..place.pages() {
        if is_used(used, place.page(number)) {
            make(directory, alloc, place.first + number)?;
        }
    }
    Ok(())
}

/// Makes the pages of the banks in which some byte is in use.
pub(crate) fn fill(
    directory: &mut Directory,
    alloc: Global,
    places: &[BankPlace],
    used: &[ByteRange],
) -> Result<(), OutOfMemory>
    requires laid { AreLaid 0 places.now }
    requires total { total_pages places.now ≤ length directory.old }
    requires empty { IsEmptyFrom 0 directory.old }
    requires zero { HasZeroPages directory.old }
    ensures len { length directory.new ≡ length directory.old }
    ensures zero { HasZeroPages directory.new }
    ensures filled { IfOk result (λ _. (i : ℕ) (place : BankPlace) → slice_get places.now i ≡ Some place
        → IsFilled used.now directory.new place) }
{
    for place in places {
        fill_bank(directory, alloc, place, used)?;
    }
    Ok(())
}
