ghost use Rattle.std.specs.Prelude.{◌≡◌, length, map, string_bytes, Some};
ghost use Rattle.std.specs.Option.{option_map};
ghost use Rattle.outside.specs.FileList.{files_of, content_of, first_content, IsDue, answer_within};

use crate::ShelfError;
use std::alloc::Global;
use std::marker::Model;

/// Files in memory with their names. Where a name stands twice, the first one counts.
#[derive(Drop)]
pub struct FileList {
    names: Vec<String>,
    contents: Vec<Vec<u8>>,
}

impl Model for FileList {
    ghost use Rattle.std.specs.Prelude.{◌≡◌, length};
    ghost use Rattle.outside.specs.FileList.{FileListData, files_of};

    ghost Value = { FileListData };

    ghost view = { λ f. files_of f.names.items f.contents.items };

    ghost invariant = { λ f. length f.names.items ≡ length f.contents.items };
}

impl FileList {
    /// The files of these names, in order.
    pub fn new(names: Vec<String>, contents: Vec<Vec<u8>>) -> FileList
        requires { length names.items ≡ length contents.items }
        ensures { result ≡ files_of names.items contents.items }
    {
        FileList { names, contents }
    }

    /// The content of the file of this name.
    pub fn content(&self, name: &str) -> Option<&Vec<u8>>
        ensures { option_map (λ content. content.now.items) result ≡ content_of self.now name.now }
    {
        find_content(&self.names, &self.contents, name)
    }

    /// A copy of the content of the file of this name. It fails where there is no such file.
    pub fn fetch(&self, alloc: Global, name: &str, limit: u32) -> Result<Vec<u8>, ShelfError>
        ensures { IsDue (answer_within (content_of self.now name.now) limit) result }
    {
        match self.content(name) {
            None => Err(ShelfError::Failed),
            Some(content) => copy_within(alloc, content, limit),
        }
    }
}

/// A copy of a file's content.
pub fn copy_within(alloc: Global, content: &[u8], limit: u32) -> Result<Vec<u8>, ShelfError>
    ensures { IsDue (answer_within (Some content.now) limit) result }
{
    if content.len() > limit as usize {
        return Err(ShelfError::TooLong);
    }
    Ok(content.to_vec(alloc)?)
}

fn find_content<'a>(names: &[String], contents: &'a [Vec<u8>], name: &str) -> Option<&'a Vec<u8>>
    requires { length names.now ≡ length contents.now }
    ensures { option_map (λ content. content.now.items) result
        ≡ first_content (map (λ known. string_bytes known) names.now) (map (λ content. content.items) contents.now) name.now }
{
    for (i, known) in names.iter().enumerate() {
        if known.as_str() == name {
            return Some(&contents[i]);
        }
    }
    None
}
