//! The bytes behind the pointer, one at a time.
ghost use Rattle.std.specs.Prelude.{◌≡◌, ℕ, ◌<◌, List, Option, Some, length, replicate, slice_get, slice_set};
ghost use base.Fml.{ftrue};
ghost use denote.RawPtr.{Ptr};
ghost use Rattle.phys_memory.specs.Ownership.{cells_own, cells_lent, block_of};

use std::alloc::Allocator;
use std::marker::{Model, PhantomData};

/// Where the block begins. It owns nothing.
#[derive(Clone, Copy)]
pub struct Base {
    pub(crate) ptr: *mut u8,
}

/// The owner of the bytes from `at` on. A byte that was never written is `None`, and nobody can read it.
/// It takes no space: the pointer lies beside it.
pub struct Cells {
    pub(crate) marker: PhantomData<u8>,
    ghost at: { Ptr },
    ghost slots: { List (Option ℕ) },
}

impl Model for Cells {
    ghost also_owns = { λ c. cells_own c.at c.slots };

    ghost also_shares = { λ c _ κ. cells_lent c.at c.slots κ };
}

/// The right to give the block of `len` bytes at `at` back to `alloc`. It takes no space.
pub struct Deed<A: Allocator> {
    pub(crate) marker: PhantomData<A>,
    ghost at: { Ptr },
    ghost len: { ℕ },
    ghost alloc: { A },
}

impl<A: Allocator> Model for Deed<A> {
    ghost also_owns = { λ d. A.dealloc_token d.alloc (block_of d.len) d.at };

    ghost also_shares = { λ _ _ _. ftrue };
}

impl Cells {
    /// The byte at `index`, which was written.
    #[inline(always)]
    pub(crate) fn get(&self, base: Base, index: usize) -> &u8
        requires place { base.ptr ≡ self.now.at }
        requires written { (x : ℕ) × (slice_get self.now.slots index ≡ Some (Some x)) }
        ensures { slice_get self.now.slots index ≡ Some (Some result.now) }
    {
        // SAFETY: the byte is in the block, and it was written.
        unsafe { &*base.ptr.add(index) }
    }

    /// Writes the byte at `index`.
    #[inline(always)]
    pub(crate) fn set(&mut self, base: Base, index: usize, value: u8)
        requires place { base.ptr ≡ self.old.at }
        requires range { index < length self.old.slots }
        ensures place { self.new.at ≡ self.old.at }
        ensures slots { self.new.slots ≡ slice_set self.old.slots index (Some value) }
    {
        // SAFETY: the byte is in the block, and `self` owns it.
        unsafe { *base.ptr.add(index) = value }
    }

    /// Writes 0 to each byte.
    pub(crate) fn clear(&mut self, base: Base, len: usize)
        requires place { base.ptr ≡ self.old.at }
        requires count { length self.old.slots ≡ len }
        ensures place { self.new.at ≡ self.old.at }
        ensures slots { self.new.slots ≡ replicate len (Some 0) }
    {
        for index in 0..len {
            self.set(base, index, 0);
        }
    }
}
