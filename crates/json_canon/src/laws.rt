// Laws of canonical texts and values, as contracts of functions without effect.
ghost use Rattle.json_canon.specs.TextLaws.{TextsTell, TextsReadBack};

/// Two values with canonical texts have the same text if and only if they are equal, with their objects as maps.
/// `read_json` parses a canonical text to its value with objects as maps, or to `None` if it nests deeper than 127.
pub fn texts_tell_values()
    ensures tell { TextsTell }
    ensures read { TextsReadBack }
{}
