// The subcommands.
ghost use Rattle.std.specs.Prelude.{◌≡◌};
ghost use Rattle.pull_run.specs.Word.{word_of};

use json_values::Text;

/// A subcommand that reads input.
#[derive(Clone, Copy, Debug, PartialEq, Eq)]
pub enum Word {
    /// Pulls the image of the case in the input, and writes a report.
    Pull,
    /// Writes the canonical text of the JSON in the input.
    Canon,
    /// Writes whether the chain in the input holds.
    Check,
    /// Pulls the images of the cases in the input, and writes the lock file of them.
    Lock,
    /// Writes whether the lock file in the input holds.
    LockCheck,
    /// Writes the response to the admission review in the input.
    Review,
    /// Pulls the image of the case in the input, pushes it to the target, and writes a report.
    Mirror,
}

/// Returns the subcommand that these arguments select, or `None` if they match no supported form.
pub fn word_of(words: &[Text]) -> Option<Word>
    ensures { result ≡ word_of words.now }
{
    match words {
        [word] if word.as_str() == "pull" => Some(Word::Pull),
        [word] if word.as_str() == "canon" => Some(Word::Canon),
        [word] if word.as_str() == "check" => Some(Word::Check),
        [word] if word.as_str() == "lock" => Some(Word::Lock),
        [word] if word.as_str() == "lockcheck" => Some(Word::LockCheck),
        [word] if word.as_str() == "review" => Some(Word::Review),
        [word] if word.as_str() == "mirror" => Some(Word::Mirror),
        _ => None,
    }
}
