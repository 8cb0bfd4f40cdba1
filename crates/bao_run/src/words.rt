ghost use Rattle.std.specs.Prelude.{◌≡◌, map, string_bytes};
ghost use Rattle.bao_run.specs.Words.{command_of, generated, word_number};
ghost use Rattle.bao_run.specs.Command.{command_data};

use numerals::number;

/// What the words of the command line ask for.
pub enum Command<'a> {
    /// To run a schedule over a configuration, each the name of a file.
    Run { config: &'a str, schedule: &'a str },
    /// To show the packing of a configuration, the name of a file.
    Check { config: &'a str },
    /// To run the generated workload of a number.
    Generate { number: u32 },
    /// Nothing.
    Unknown,
}

/// Reads the words, which don't include the program's name.
pub fn read_words(words: &[String]) -> Command<'_>
    ensures { command_data result ≡ command_of (map string_bytes words.now) }
{
    match words {
        [verb, config] if verb.as_str() == "check" => Command::Check {
            config: config.as_str(),
        },
        [verb, word] if verb.as_str() == "gen" => generated(word_number(number(word.as_bytes()))),
        [verb, config, schedule] if verb.as_str() == "run" => Command::Run {
            config: config.as_str(),
            schedule: schedule.as_str(),
        },
        _ => Command::Unknown,
    }
}

/// The workload of a number, if there is one.
fn generated(number: Option<u32>) -> Command<'static>
    ensures { command_data result ≡ generated number }
{
    match number {
        Some(number) => Command::Generate { number },
        None => Command::Unknown,
    }
}

/// The number, if it has 32 bits.
fn word_number(number: Option<u64>) -> Option<u32>
    ensures { result ≡ word_number number }
{
    match number {
        Some(number) if number < 1 << 32 => Some(number as u32),
        _ => None,
    }
}
