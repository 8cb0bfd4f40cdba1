ghost use Rattle.std.specs.Prelude.{◌≡◌, Option, List, ℕ, [], Some, length};
ghost use Rattle.outside.specs.FileList.{files_of, IsDue, answer_within};
ghost use Rattle.outside.specs.SureShelf.{sure_content};

use crate::file_list::{FileList, copy_within};
use crate::{Shelf, ShelfError};
use std::alloc::Global;
use std::marker::Model;

/// A shelf of files in memory that never fails. A name that it doesn't hold has the empty content.
#[derive(Drop)]
pub struct SureShelf {
    files: FileList,
    empty: Vec<u8>,
}

impl Model for SureShelf {
    ghost use Rattle.std.specs.Prelude.{◌≡◌, []};
    ghost use Rattle.outside.specs.FileList.{FileListData};

    ghost Value = { FileListData };

    ghost view = { λ s. s.files };

    ghost invariant = { λ s. s.empty.items ≡ [] };
}

impl SureShelf {
    /// A shelf of the files of these names and contents, in order. Where a name stands twice, the first one counts.
    pub fn new(alloc: Global, names: Vec<String>, contents: Vec<Vec<u8>>) -> SureShelf
        requires { length names.items ≡ length contents.items }
        ensures { result ≡ files_of names.items contents.items }
    {
        SureShelf {
            files: FileList::new(names, contents),
            empty: Vec::new(alloc),
        }
    }
}

impl Shelf for SureShelf {
    ghost held = { λ s. Some (λ name. Some (sure_content s name)) };

    ghost faults = { λ _. 0 };

    ghost culprit = { λ _. [] };

    fn fetch(&mut self, alloc: Global, name: &str, limit: u32) -> Result<Vec<u8>, ShelfError>
        // All that the call does.
        ensures answer { IsDue (answer_within (Some (sure_content self.old name.now)) limit) result }
        ensures same { self.new ≡ self.old }
    {
        let content = self.files.content(name).unwrap_or(&self.empty);
        copy_within(alloc, content, limit)
    }
}
