// Splits a list of challenges into its elements.
ghost use Rattle.std.specs.Prelude.{◌≡◌, ◌∷◌, [], ◌<◌, length, MatchOption, IfSome};
ghost use Rattle.std.specs.Option.{option_copied};
ghost use Rattle.oci_auth.specs.Split as list;

/// The place of a byte relative to quoted strings.
#[derive(Clone, Copy)]
pub enum Place {
    Outside,
    /// In a quoted string.
    Quoted,
    /// After a backslash in one.
    Escaped,
}

fn place_after(place: Place, byte: u8) -> Place
    ensures { result ≡ list.place_after place byte }
{
    match place {
        Place::Outside if byte == b'"' => Place::Quoted,
        Place::Outside => Place::Outside,
        Place::Quoted if byte == b'"' => Place::Outside,
        Place::Quoted if byte == b'\\' => Place::Escaped,
        Place::Quoted => Place::Quoted,
        Place::Escaped => Place::Quoted,
    }
}

fn is_comma(place: Place, byte: u8) -> bool
    ensures { result ≡ list.is_comma place byte }
{
    match place {
        Place::Outside => byte == b',',
        Place::Quoted => false,
        Place::Escaped => false,
    }
}

// Returns the index of the first comma outside of quoted strings.
fn comma_in(bytes: &[u8]) -> Option<usize>
    ensures { MatchOption result
        (list.split_from Place.Outside bytes.now ≡ bytes.now ∷ [])
        (λ at. list.SplitsAt bytes.now at) }
{
    let mut place = Place::Outside;
    for (at, byte) in bytes.iter().enumerate() {
        if is_comma(place, *byte) {
            return Some(at);
        }
        place = place_after(place, *byte);
    }
    None
}

/// Splits off the first element of a list. Returns also the rest after its comma, if there is one.
pub fn cut_element(text: &str) -> (&str, Option<&str>)
    ensures split { list.split_from Place.Outside text.now
        ≡ result.0.now ∷ list.split_rest (option_copied result.1) }
    ensures shorter { IfSome result.1 (λ rest. length rest.now < length text.now) }
{
    match comma_in(text.as_bytes()) {
        Some(at) => (&text[..at], Some(&text[at + 1..])),
        None => (text, None),
    }
}
