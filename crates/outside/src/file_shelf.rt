ghost use Rattle.std.specs.Prelude.{◌≡◌, ◌+◌, Option, List, ℕ, [], IfOk, None};
ghost use Rattle.outside.specs.FileShelf.{IsOpened, IsReadTo, GivesAtMost};
ghost use Rattle.outside.specs.Shelf.{IsFetched};

use crate::{Shelf, ShelfError};
use std::alloc::Global;
use std::io::Read;
use std::marker::Model;
use std::rt::Files;
use std::{fs, io};

/// Opens files for reading, each from its first byte on.
pub trait Open {
    type File: Read + Drop;

    /// What is told of the files: nothing, or for each name its content, or that it is missing.
    ghost files: { Self → Option (List ℕ → Option (List ℕ)) };

    /// Opens the file `name`.
    fn open(&self, name: &str) -> io::Result<Self::File>
        ensures { IfOk result (λ file. IsOpened (files self.now) name.now (Self.File.remaining file)) };
}

/// The files of a runtime. A name is a path from the working directory. Nothing is told of their contents.
#[derive(Drop)]
pub struct WorkingDirectory<R> {
    files: R,
}

impl<R> Model for WorkingDirectory<R> {
    ghost Value = { R };

    ghost view = { λ d. d.files };
}

impl<R: Files> WorkingDirectory<R> {
    /// The files that `files` opens.
    pub fn new(files: R) -> Self
        ensures { result ≡ files }
    {
        WorkingDirectory { files }
    }
}

impl<R: Files> Open for WorkingDirectory<R> {
    type File = R::File;

    ghost files = { λ _. None };

    fn open(&self, name: &str) -> io::Result<R::File> {
        fs::open(&self.files, name)
    }
}

/// A shelf of files that are opened and read at each fetch. It fails where a file can't be opened or a read fails, as
/// for a missing file or a directory.
#[derive(Drop)]
pub struct FileShelf<O> {
    opener: O,
    faults: u64,
    culprit: String,
}

impl<O> Model for FileShelf<O> {
    ghost use Rattle.std.specs.Prelude.{string_bytes};
    ghost use Rattle.outside.specs.FileShelf.{FileShelfData};

    ghost Value = { FileShelfData O };

    ghost view = { λ s. record { opener = s.opener; faults = s.faults; culprit = string_bytes s.culprit } };
}

impl<O: Open> FileShelf<O> {
    /// A shelf of the files that `opener` opens.
    pub fn new(alloc: Global, opener: O) -> Self
        ensures { result ≡ record { opener = opener; faults = 0; culprit = [] } }
    {
        FileShelf {
            opener,
            faults: 0,
            culprit: String::new(alloc),
        }
    }

    /// How often a fetch has failed.
    pub fn faults(&self) -> u64
        ensures { result ≡ self.now.faults }
    {
        self.faults
    }

    /// The name in the last fetch that failed.
    pub fn culprit(&self) -> &str
        ensures { result.now ≡ self.now.culprit }
    {
        self.culprit.as_str()
    }
}

impl<O: Open> Shelf for FileShelf<O> {
    ghost held = { λ s. O.files s.opener };

    ghost faults = { λ s. s.faults };

    ghost culprit = { λ s. s.culprit };

    fn fetch(&mut self, alloc: Global, name: &str, limit: u32) -> Result<Vec<u8>, ShelfError> {
        // The name's copy comes first: a failure can't be told without it.
        let culprit = String::from_str(alloc, name)?;
        match read_file(&self.opener, alloc, name, limit) {
            Err(ShelfError::Failed) => {
                self.faults = self.faults.saturating_add(1);
                self.culprit = culprit;
                Err(ShelfError::Failed)
            }
            answer => answer,
        }
    }
}

/// Opens and reads a file, of which it reads at most `limit + 1` bytes.
fn read_file<O: Open>(
    opener: &O,
    alloc: Global,
    name: &str,
    limit: u32,
) -> Result<Vec<u8>, ShelfError>
    ensures { IsFetched (O.files opener.now) name.now limit result }
{
    match opener.open(name) {
        Ok(mut file) => read_to_limit(alloc, &mut file, limit),
        Err(_) => Err(ShelfError::Failed),
    }
}

/// All bytes that a reader has left, of which there are at most `limit`. It reads at most `limit + 1` bytes, each read
/// at least one, and fails where a read fails.
fn read_to_limit<R: Read>(alloc: Global, reader: &mut R, limit: u32) -> Result<Vec<u8>, ShelfError>
    ensures content { IsReadTo limit (R.remaining reader.old) result }
    ensures stops { GivesAtMost (limit + 1) (R.remaining reader.old) (R.remaining reader.new) }
{
    let mut piece = [0; 4096];
    let limit = limit as usize;
    let mut bytes = Vec::new(alloc);
    while bytes.len() <= limit {
        // One byte more than the limit tells that the file is too long.
        let want = piece.len().min(limit + 1 - bytes.len());
        let Ok(count) = reader.read(&mut piece[..want]) else {
            return Err(ShelfError::Failed);
        };
        if count == 0 {
            return Ok(bytes);
        }
        bytes.extend_from_slice(&piece[..count])?;
    }
    Err(ShelfError::TooLong)
}
