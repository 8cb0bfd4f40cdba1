//! One pointer of the directory.
ghost use Rattle.std.specs.Prelude.{◌≡◌, ℕ, List, Option, None, Some, MatchOption};
ghost use denote.RawPtr.{null_ptr, Testable};
ghost use Rattle.phys_bank.specs.Ownership.{page_owns, page_lent};

use crate::loose::Loose;
use phys_memory::Phys;
use std::alloc::Global;
use std::marker::Model;
use std::ptr::null_mut;

/// The address of a page that this owns, or null where there is no page. It has the size of a pointer.
pub struct Page {
    at: *mut Phys,
    /// The page's bytes.
    pub ghost held: { Option (List ℕ) },
    ghost null: { held ≡ None → at ≡ null_ptr },
    /// So that it may be compared with null.
    ghost low: { Testable at },
}

impl Model for Page {
    ghost also_owns = { λ page. page_owns page.at page.held };

    ghost also_shares = { λ page _ κ. page_lent page.at page.held κ };
}

impl Page {
    /// No page.
    pub(crate) fn none() -> Page
        ensures { result.held ≡ None }
    {
        Page { at: null_mut() }
    }

    /// The page that the box has.
    pub(crate) fn of(page: Loose<Phys, Global>) -> Page
        ensures { result.held ≡ Some page.value }
    {
        let Loose { at, alloc: _ } = page;
        Page { at }
    }

    /// The page, if there is one.
    pub(crate) fn into_loose(self, alloc: Global) -> Option<Loose<Phys, Global>>
        ensures { MatchOption result (self.held ≡ None) (λ loose. self.held ≡ Some loose.value) }
    {
        let Page { at } = self;
        if at.is_null() {
            return None;
        }
        Some(Loose { at, alloc })
    }

    /// The page, to be read, if there is one.
    pub(crate) fn get(&self) -> Option<&Phys>
        ensures { MatchOption result (self.now.held ≡ None) (λ page. self.now.held ≡ Some page.now) }
    {
        if self.at.is_null() {
            return None;
        }
        // SAFETY: a pointer that isn't null is to a page that `self` owns.
        unsafe { Some(&*self.at) }
    }
}
