//! The pages of the banks, by number.
ghost use Rattle.std.specs.Prelude.{◌≡◌, ℕ, ◌+◌, ◌<◌, ◌≤◌, ◌++◌, List, Some, None, All, length, replicate, take, drop, map, slice_set, IfOk, MatchOption};
ghost use Rattle.std.specs.Vec.{vec_len};
ghost use Rattle.core.specs.Mem.Slots.{slots_items, slots_len, slots_ptr, IsFull};
ghost use Rattle.bao_types.specs.Bytes.{IsWidth, low_bytes};
ghost use Rattle.phys_bank.specs.Directory.{page_at};

use crate::loose::Loose;
use crate::page::Page;
use bao_types::OutOfMemory;
use core::slots::{Lease, Slots, release, reserve};
use phys_memory::Phys;
use std::alloc::{AllocError, Global};
use std::marker::Model;

/// One block of pointers, each to a page that the directory owns, or null. It frees them all when it is dropped. A contract
/// sees it as a list with each page's bytes, and none where there is no page.
pub struct Directory {
    slots: Slots<Page>,
    lease: Lease<Page, Global>,
    alloc: Global,
}

impl Model for Directory {
    ghost use Rattle.std.specs.Prelude.{ℕ, List, Option};

    ghost Value = { List (Option (List ℕ)) };

    ghost use Rattle.phys_bank.specs.Directory.{pages_of, IsDirectory};

    ghost view = { pages_of };

    ghost invariant = { IsDirectory };
}

/// Frees a page, if there is one.
fn free(page: Page, alloc: Global) {
    if let Some(loose) = page.into_loose(alloc) {
        drop(loose.into_box());
    }
}

/// This many pointers to no page.
fn nulls(alloc: Global, len: usize) -> Result<Vec<Page>, AllocError>
    ensures { IfOk result (λ nulls. vec_len nulls ≡ len) }
{
    let mut nulls = Vec::with_capacity(alloc, len)?;
    for _count in 0..len {
        nulls.push_reserved(Page::none());
    }
    Ok(nulls)
}

/// Frees these pages.
fn discard(mut pages: Vec<Page>, alloc: Global) {
    while let Some(page) = pages.pop() {
        free(page, alloc);
    }
    pages.destroy_empty();
}

/// Puts a pointer to no page in each place. What the places held is forgotten.
fn clear(slots: &mut Slots<Page>)
    ensures full { IsFull slots.new }
    ensures items { map (λ page. page.held) (slots_items slots.new) ≡ replicate (slots_len slots.old) None }
    ensures start { slots_ptr slots.new ≡ slots_ptr slots.old }
    ensures count { slots_len slots.new ≡ slots_len slots.old }
{
    for index in 0..slots.len() {
        slots.put(index, Page::none());
    }
}

impl Directory {
    /// A directory of this many places, with no page.
    pub(crate) fn new(alloc: Global, len: usize) -> Result<Directory, OutOfMemory>
        ensures { IfOk result (λ directory. directory ≡ replicate len None) }
    {
        let like = nulls(alloc, len)?;
        // SAFETY: no place of the block holds anything, so `clear` forgets nothing.
        let reserved = unsafe { reserve(&alloc, like.as_slice()) };
        discard(like, alloc);
        let (mut slots, lease) = reserved?;
        clear(&mut slots);
        Ok(Directory {
            slots,
            lease,
            alloc,
        })
    }

    /// The page at a place, if there is one.
    #[inline(always)]
    pub(crate) fn get(&self, entry: usize) -> Option<&Phys>
        requires { entry < length self.now }
        ensures { MatchOption result (page_at self.now entry ≡ None) (λ page. page_at self.now entry ≡ Some page.now) }
    {
        self.slots.get(entry).get()
    }

    /// Puts a page in a place that has none.
    pub(crate) fn insert(&mut self, entry: usize, page: Box<Phys>)
        requires range { entry < length self.old }
        requires empty { page_at self.old entry ≡ None }
        ensures { self.new ≡ slice_set self.old entry (Some page.value) }
    {
        free(self.slots.take(entry), self.alloc);
        self.slots.put(entry, Page::of(Loose::of(page)));
    }

    /// Puts the lowest `width` bytes of the value into the page at a place, the least byte first, from its byte `at` on.
    #[inline(always)]
    pub(crate) fn write(&mut self, entry: usize, at: u64, width: u32, value: u64)
        requires width { IsWidth width }
        requires entry { entry < length self.old }
        requires page { (bytes : List ℕ) × (page_at self.old entry ≡ Some bytes) × (at + width ≤ length bytes) }
        ensures { (bytes : List ℕ) → page_at self.old entry ≡ Some bytes → self.new ≡ slice_set self.old entry
            (Some (take at bytes ++ low_bytes width value ++ drop (at + width) bytes)) }
    {
        let Some(loose) = self.slots.take(entry).into_loose(self.alloc) else {
            unreachable!()
        };
        let mut page = loose.into_box();
        page.write_le(at, width, value);
        self.slots.put(entry, Page::of(Loose::of(page)));
    }
}

impl Drop for Directory {
    fn drop(self) {
        let Directory {
            mut slots,
            lease,
            alloc,
        } = self;
        for entry in 0..slots.len() {
            free(slots.take(entry), alloc);
        }
        release(&alloc, slots, lease);
    }
}
