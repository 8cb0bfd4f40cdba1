ghost use Rattle.std.specs.Prelude.{◌≡◌, Option, List, ℕ, [], Some, length};
ghost use Rattle.outside.specs.FileList.{files_of, content_of, IsDue};
ghost use Rattle.outside.specs.MemShelf.{next_answer, after_fetch};

use crate::faults::is_listed;
use crate::file_list::FileList;
use crate::{Shelf, ShelfError};
use std::alloc::Global;
use std::marker::Model;

/// A shelf of files in memory, some of whose fetches fail.
///
/// A fetch fails where its call is listed as a failing one, and for a name that the shelf doesn't hold. Calls are
/// counted from 1; one that ran out of memory isn't counted.
#[derive(Drop)]
pub struct MemShelf {
    files: FileList,
    failing: Vec<u32>,
    calls: u64,
    faults: u64,
    culprit: String,
}

impl Model for MemShelf {
    ghost use Rattle.std.specs.Prelude.{string_bytes};
    ghost use Rattle.outside.specs.MemShelf.{MemShelfData};

    ghost Value = { MemShelfData };

    ghost view = { λ s. record {
      files = s.files;
      failing = s.failing.items;
      calls = s.calls;
      faults = s.faults;
      culprit = string_bytes s.culprit;
    } };
}

impl MemShelf {
    /// A shelf of the files of these names and contents, in order, whose calls of the numbers in `failing` are to fail.
    /// Where a name stands twice, the first one counts.
    pub fn new(
        alloc: Global,
        names: Vec<String>,
        contents: Vec<Vec<u8>>,
        failing: Vec<u32>,
    ) -> MemShelf
        requires { length names.items ≡ length contents.items }
        ensures { result ≡ record {
          files = files_of names.items contents.items;
          failing = failing.items;
          calls = 0;
          faults = 0;
          culprit = [];
        } }
    {
        MemShelf {
            files: FileList::new(names, contents),
            failing,
            calls: 0,
            faults: 0,
            culprit: String::new(alloc),
        }
    }

    /// How often a fetch was called, those that ran out of memory aside. It stands still at 2^64 - 1.
    pub fn calls(&self) -> u64
        ensures { result ≡ self.now.calls }
    {
        self.calls
    }

    /// How often a fetch has failed.
    pub fn faults(&self) -> u64
        ensures { result ≡ self.now.faults }
    {
        self.faults
    }

    /// The name in the last fetch that failed.
    pub fn culprit(&self) -> &str
        ensures { result.now ≡ self.now.culprit }
    {
        self.culprit.as_str()
    }
}

impl Shelf for MemShelf {
    ghost held = { λ s. Some (content_of s.files) };

    ghost faults = { λ s. s.faults };

    ghost culprit = { λ s. s.culprit };

    fn fetch(&mut self, alloc: Global, name: &str, limit: u32) -> Result<Vec<u8>, ShelfError>
        // All that the call does.
        ensures answer { IsDue (next_answer self.old name.now limit) result }
        ensures after { self.new ≡ after_fetch self.old name.now result }
    {
        // The name's copy comes first, so that want of memory changes nothing.
        let culprit = String::from_str(alloc, name)?;
        let call = self.calls.saturating_add(1);
        match self.answer(alloc, call, name, limit) {
            Err(ShelfError::OutOfMemory) => Err(ShelfError::OutOfMemory),
            Err(ShelfError::Failed) => {
                self.calls = call;
                self.faults = self.faults.saturating_add(1);
                self.culprit = culprit;
                Err(ShelfError::Failed)
            }
            answer => {
                self.calls = call;
                answer
            }
        }
    }
}

impl MemShelf {
    ghost use Rattle.std.specs.Prelude.{Err, if◌then◌else◌};
    ghost use Rattle.outside.specs.FileList.{answer_within};
    ghost use Rattle.outside.specs.Faults.{is_listed};

    /// What the call of this number answers.
    fn answer(
        &self,
        alloc: Global,
        call: u64,
        name: &str,
        limit: u32,
    ) -> Result<Vec<u8>, ShelfError>
        ensures { IsDue (if is_listed self.now.failing call then Err ShelfError.Failed
            else answer_within (content_of self.now.files name.now) limit) result }
    {
        if is_listed(&self.failing, call) {
            return Err(ShelfError::Failed);
        }
        self.files.fetch(alloc, name, limit)
    }
}
