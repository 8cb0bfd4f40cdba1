ghost use Rattle.std.specs.Prelude.{◌≡◌};
ghost use Rattle.outside.specs.Use.{shelf_use};
ghost use Rattle.bao_run.specs.Input.{IsFetch};

use outside::{Shelf, ShelfError};
use report::{FileId, Status};
use std::alloc::Global;

/// Fetches a file, and tells which one it was where it can't be had; a fault of the shelf is told of the file `blamed`.
pub fn fetch<S: Shelf>(
    alloc: Global,
    shelf: &mut S,
    file: FileId,
    blamed: FileId,
    name: &str,
    limit: u32,
) -> Result<Vec<u8>, Status>
    ensures held { S.held shelf.new ≡ S.held shelf.old }
    ensures answer { IsFetch (shelf_use S.held S.faults S.culprit shelf.old shelf.new)
        (record { file = file; blamed = blamed; name = name.now; limit = limit }) result }
{
    match shelf.fetch(alloc, name, limit) {
        Ok(bytes) => Ok(bytes),
        Err(ShelfError::TooLong) => Err(Status::TooLong { file, limit }),
        Err(ShelfError::Failed) => Err(Status::ReadFault { file: blamed }),
        Err(ShelfError::OutOfMemory) => Err(Status::OutOfMemory),
    }
}
