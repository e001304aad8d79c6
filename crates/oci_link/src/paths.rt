// The path of a URL's text.
ghost use Rattle.std.specs.Prelude.{◌≡◌};
ghost use Rattle.std.specs.List.{before_first};
ghost use Rattle.std.specs.Option.{option_copied};
ghost use Rattle.oci_link.specs.Paths as words;

/// Returns the rest after this prefix.
pub fn after<'a>(front: &str, text: &'a str) -> Option<&'a str>
    ensures { option_copied result ≡ words.after front.now text.now }
{
    match text.strip_prefix(front) {
        Some(rest) => Some(rest),
        None => None,
    }
}

fn past_mark(text: &str) -> Option<&str>
    ensures { option_copied result ≡ words.past_mark text.now }
{
    match text.split_once("://") {
        Some((_, rest)) => Some(rest),
        None => None,
    }
}

fn past_slash(text: &str) -> Option<&str>
    ensures { option_copied result ≡ words.past_slash text.now }
{
    match text.split_once('/') {
        Some((_, rest)) => Some(rest),
        None => None,
    }
}

fn before_query(text: &str) -> &str
    ensures { result.now ≡ before_first words.is_question_mark text.now }
{
    match text.split_once('?') {
        Some((path, _)) => path,
        None => text,
    }
}

/// Returns the text from the first slash after `://`, without that slash, up to a `?`.
#[tactic(auto, unfolding(crate::specs::Paths::path_of))]
pub fn path_of(url: &str) -> Option<&str>
    ensures { option_copied result ≡ words.path_of url.now }
{
    match past_mark(url) {
        Some(rest) => match past_slash(rest) {
            Some(rest) => Some(before_query(rest)),
            None => None,
        },
        None => None,
    }
}
