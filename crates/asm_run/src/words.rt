//! The words of the command line.
ghost use Rattle.std.specs.Prelude.{◌≡◌, map, string_bytes};
ghost use Rattle.asm_run.specs.Words.{command_of};
ghost use Rattle.asm_run.specs.Command.{command_data};

/// What the words of the command line ask for.
pub enum Command<'a> {
    /// To assemble a source, the name of a file.
    Assemble { file: &'a str },
    /// To list an image, the name of a file.
    Show { file: &'a str },
    /// Nothing.
    Unknown,
}

/// Reads the words, which don't include the program's name.
pub fn read_words(words: &[String]) -> Command<'_>
    ensures { command_data result ≡ command_of (map string_bytes words.now) }
{
    match words {
        [verb, file] if verb.as_str() == "asm" => Command::Assemble {
            file: file.as_str(),
        },
        [verb, file] if verb.as_str() == "list" => Command::Show {
            file: file.as_str(),
        },
        _ => Command::Unknown,
    }
}
