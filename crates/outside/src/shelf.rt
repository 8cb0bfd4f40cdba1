ghost use Rattle.std.specs.Prelude.{◌≡◌, Option, List, ℕ, Some};
ghost use Rattle.outside.specs.Shelf.{Files, IsFetched, Blames, error_text};
ghost use Rattle.outside.specs.declared.shelf.ShelfError.TheVariants.{OutOfMemory};

use std::alloc::{AllocError, Global};
use std::error::Error;
use std::fmt;

/// A source of files, each of which is fetched whole by its name.
pub trait Shelf {
    /// What the shelf tells of its files: nothing, or for each name its content, or that it is missing.
    ghost held: { Self → Option Files };

    /// How often a fetch has failed. It never falls, and stands still at 2^64 - 1.
    ghost faults: { Self → ℕ };

    /// The name in the last fetch that failed. It is empty at first.
    ghost culprit: { Self → List ℕ };

    /// The whole content of the file `name`, of at most `limit` bytes. Where contents are told, `TooLong` comes only for
    /// a content of more than `limit` bytes, and a missing file is `Failed`, unless memory ran out first. What is held
    /// stays as it was.
    fn fetch(&mut self, alloc: Global, name: &str, limit: u32) -> Result<Vec<u8>, ShelfError>
        ensures held { held self.new ≡ held self.old }
        ensures content { IsFetched (held self.old) name.now limit result }
        ensures cause { Blames (record { faults = faults self.old; culprit = culprit self.old })
            (record { faults = faults self.new; culprit = culprit self.new }) name.now result };
}

/// Why a file wasn't fetched.
#[derive(Clone, Copy, Debug, PartialEq, Eq)]
pub enum ShelfError {
    /// The file has more bytes than the limit.
    TooLong,
    /// There is no such file, or it couldn't be read.
    Failed,
    /// The allocator had no memory left.
    OutOfMemory,
}

impl fmt::Display for ShelfError {
    ghost output = { λ error. Some (error_text error) };

    fn fmt<W: fmt::Write>(&self, f: &mut fmt::Formatter<W>) -> fmt::Result {
        match self {
            ShelfError::TooLong => f.write_str("file too long"),
            ShelfError::Failed => f.write_str("file not read"),
            ShelfError::OutOfMemory => f.write_str("out of memory"),
        }
    }
}

impl Error for ShelfError {}

impl From<AllocError> for ShelfError {
    ghost from_gives = { λ _ e. e ≡ OutOfMemory };

    fn from(_: AllocError) -> Self {
        ShelfError::OutOfMemory
    }
}
