//! What is made of a file, before anything is written.
ghost use Rattle.std.specs.Prelude.{◌≡◌, ◌≤◌, ◌<◌, length, map, string_bytes};
ghost use Rattle.outside.specs.Use.{shelf_use};
ghost use Rattle.a64_asm.specs.Source.{image_limit};
ghost use Rattle.asm_run.specs.Ruling.{source_limit};
ghost use Rattle.asm_run.specs.Words.{command_of, Assemble, Show};
ghost use Rattle.asm_run.specs.Made.{IsMade, IsGiven, status_of};

use crate::status::AsmStatus;
use crate::words::{Command, read_words};
use a64_asm::{AsmError, IMAGE_LIMIT, ListError, assemble, list};
use outside::{Shelf, ShelfError};
use std::alloc::Global;

/// What a source may have at most.
const SOURCE_LIMIT: u32 = 16_777_216;

/// What the words ask for, made of the file that they name.
#[tactic(auto, using(crate::proofs::Making::unknown))]
pub(crate) fn make<S: Shelf>(
    alloc: Global,
    words: &[String],
    shelf: &mut S,
) -> Result<Vec<u8>, AsmStatus>
    ensures { IsMade (command_of (map string_bytes words.now)) (shelf_use S.held S.faults S.culprit shelf.old shelf.new) result }
{
    match read_words(words) {
        Command::Unknown => Err(AsmStatus::Usage),
        Command::Assemble { file } => make_image(alloc, shelf, file),
        Command::Show { file } => make_listing(alloc, shelf, file),
    }
}

/// The image of a source.
fn make_image<S: Shelf>(alloc: Global, shelf: &mut S, file: &str) -> Result<Vec<u8>, AsmStatus>
    ensures { IsMade (Assemble file.now) (shelf_use S.held S.faults S.culprit shelf.old shelf.new) result }
{
    match shelf.fetch(alloc, file, SOURCE_LIMIT) {
        Ok(source) => image_of(alloc, &source, file),
        Err(error) => Err(unread(error, SOURCE_LIMIT)),
    }
}

/// The image that a source gives.
fn image_of(alloc: Global, source: &[u8], file: &str) -> Result<Vec<u8>, AsmStatus>
    requires { length source.now ≤ source_limit }
    ensures { IsGiven (Assemble file.now) source.now result }
{
    match assemble(alloc, source) {
        Ok(image) => Ok(image),
        Err(AsmError::BadLine { line, rule }) => Err(AsmStatus::BadLine { line, rule }),
        Err(AsmError::OutOfMemory) => Err(AsmStatus::OutOfMemory),
    }
}

/// The listing of an image.
fn make_listing<S: Shelf>(alloc: Global, shelf: &mut S, file: &str) -> Result<Vec<u8>, AsmStatus>
    ensures { IsMade (Show file.now) (shelf_use S.held S.faults S.culprit shelf.old shelf.new) result }
{
    match shelf.fetch(alloc, file, IMAGE_LIMIT) {
        Ok(image) => listing_of(alloc, &image, file),
        Err(error) => Err(unread(error, IMAGE_LIMIT)),
    }
}

/// The listing that an image gives.
fn listing_of(alloc: Global, image: &[u8], file: &str) -> Result<Vec<u8>, AsmStatus>
    requires { length image.now ≤ image_limit }
    ensures { IsGiven (Show file.now) image.now result }
{
    match list(alloc, image) {
        Ok(text) => Ok(text),
        Err(ListError::BadLength { len }) => Err(AsmStatus::BadLength { len }),
        Err(ListError::OutOfMemory) => Err(AsmStatus::OutOfMemory),
    }
}

/// Why a file can't be had.
fn unread(error: ShelfError, limit: u32) -> AsmStatus
    ensures { result ≡ status_of limit error }
{
    match error {
        ShelfError::TooLong => AsmStatus::TooLong { limit },
        ShelfError::Failed => AsmStatus::ReadFault,
        ShelfError::OutOfMemory => AsmStatus::OutOfMemory,
    }
}
