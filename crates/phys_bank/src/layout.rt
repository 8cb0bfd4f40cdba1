//! The banks' pages, one bank's after the other's.
ghost use Rattle.std.specs.Prelude.{◌≡◌, ◌≤◌, All, length, map, sum};
ghost use Rattle.bao_types.specs.ByteRange.{address_space_end, end};
ghost use Rattle.bao_types.specs.Shape.{memory_limit};
ghost use Rattle.phys_bank.specs.Places.{AreLaid, ranges_of, total_pages};

use crate::bank_place::BankPlace;
use arrayvec::ArrayVec;
use bao_types::ByteRange;

/// The banks with the places of their pages, in the same order, and how many pages they have together.
pub(crate) fn lay_out(banks: &[ByteRange]) -> (ArrayVec<BankPlace, 8>, usize)
    requires count { length banks.now ≤ 8 }
    requires ends { All (λ bank. end bank ≤ address_space_end) banks.now }
    requires total { sum (map (λ bank. bank.size) banks.now) ≤ memory_limit }
    ensures ranges { ranges_of result.0.items ≡ banks.now }
    ensures laid { AreLaid 0 result.0.items }
    ensures total { result.1 ≡ total_pages result.0.items }
{
    let mut places = ArrayVec::new();
    let mut next = 0;
    for bank in banks {
        let place = BankPlace {
            range: *bank,
            first: next,
        };
        next += place.pages();
        places.push(place);
    }
    (places, next)
}
