// The command that the command-line arguments select.
ghost use Rattle.std.specs.Prelude.{◌≡◌};
ghost use Rattle.pull_run.specs.Command.{count_of, command_of};

use crate::word::{Word, word_of};
use json_values::{Text, read_decimal};

/// A command of the program.
#[derive(Clone, Copy, Debug, PartialEq, Eq)]
pub enum Command {
    /// Reads the input, and writes the subcommand's output for it.
    Reads(Word),
    /// Reads nothing: pulls the generated image with this number of layers.
    Generates(u32),
}

fn count_of(text: &str) -> Option<u32>
    ensures { result ≡ count_of text.now }
{
    if text.as_bytes().first() == Some(&48) {
        return None;
    }
    match read_decimal(text.as_bytes()) {
        Some(number) if 1 <= number && number <= 1000 => Some(number as u32),
        _ => None,
    }
}

/// Returns the command that these arguments select, or `None` if they match no supported form.
pub fn command_of(words: &[Text]) -> Option<Command>
    ensures { result ≡ command_of words.now }
{
    match words {
        [word, count] if word.as_str() == "gen" => match count_of(count.as_str()) {
            Some(layers) => Some(Command::Generates(layers)),
            None => None,
        },
        [_, _] => None,
        _ => match word_of(words) {
            Some(word) => Some(Command::Reads(word)),
            None => None,
        },
    }
}
