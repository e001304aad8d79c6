// The words of a list of challenges.
ghost use Rattle.std.specs.Prelude.{◌≡◌, ◌<◌, ◌≤◌, ◌-◌, Some, None, IfOk, length, take, drop};
ghost use Rattle.std.specs.Option.{option_copied};
ghost use Rattle.std.specs.List.{prefix_len};
ghost use Rattle.oci_auth.specs.Grammar as words;
ghost use Rattle.oci_auth.specs.Classes.{has};

use json_values::Text;
use std::alloc::{AllocError, Global};

/// The classes of bytes in the grammar.
#[derive(Clone, Copy)]
pub enum Class {
    Blank,
    Token,
    /// Neither a quote nor a backslash.
    Plain,
}

fn is_mark(byte: u8) -> bool
    ensures { result ≡ words.is_mark byte }
{
    b"!#$%&'*+-.^_`|~".iter().any(|mark| *mark == byte)
}

fn is_blank_byte(byte: u8) -> bool
    ensures { result ≡ words.is_blank_byte byte }
{
    byte == b' ' || byte == b'\t'
}

fn has(class: Class, byte: u8) -> bool
    ensures { result ≡ has class byte }
{
    match class {
        Class::Blank => is_blank_byte(byte),
        Class::Token => byte.is_ascii_alphanumeric() || is_mark(byte),
        Class::Plain => !(byte == b'"') && !(byte == b'\\'),
    }
}

// Returns the length of the prefix with bytes of this class.
fn front_len(class: Class, bytes: &[u8]) -> usize
    ensures { result ≡ prefix_len (has class) bytes.now }
{
    for (place, byte) in bytes.iter().enumerate() {
        if !has(class, *byte) {
            return place;
        }
    }
    bytes.len()
}

// Splits off the prefix with bytes of this class.
fn cut_front(class: Class, text: &str) -> (&str, &str)
    ensures prefix { result.0.now ≡ take (prefix_len (has class) text.now) text.now }
    ensures rest { result.1.now ≡ drop (prefix_len (has class) text.now) text.now }
{
    text.split_at(front_len(class, text.as_bytes()))
}

/// Skips leading white space.
pub fn past_blanks(text: &str) -> &str
    ensures { result.now ≡ words.past_blanks text.now }
{
    cut_front(Class::Blank, text).1
}

/// Splits off the leading token.
pub fn cut_token(text: &str) -> (&str, &str)
    ensures token { result.0.now ≡ words.token_in text.now }
    ensures rest { result.1.now ≡ words.past_token text.now }
{
    cut_front(Class::Token, text)
}

fn is_blank(text: &str) -> bool
    ensures { result ≡ words.is_blank text.now }
{
    text.bytes().all(is_blank_byte)
}

/// Returns the rest after this byte, if the text begins with it.
pub fn after_byte(byte: u8, text: &str) -> Option<&str>
    requires { byte < 128 }
    ensures { option_copied result ≡ words.after_byte byte text.now }
{
    match text.as_bytes().first() {
        Some(first) if *first == byte => Some(&text[1..]),
        _ => None,
    }
}

// Splits off the leading bytes that are neither a quote nor a backslash.
fn cut_plain(text: &str) -> (&str, &str)
    ensures reads { words.unquoted text.now
        ≡ words.behind result.0.now (words.unquoted result.1.now) }
    ensures stops { prefix_len (has Class.Plain) result.1.now ≡ 0 }
    ensures shorter { length result.1.now ≤ length text.now }
{
    cut_front(Class::Plain, text)
}

// Returns the length of a leading quote or escaped byte.
fn literal_len(bytes: &[u8]) -> usize
    ensures { result ≡ words.literal_len bytes.now }
{
    match bytes.first() {
        Some(b'"') => 1,
        Some(b'\\') => 1,
        _ => 0,
    }
}

// Splits off the character that a leading backslash escapes. A character that is plain anyway is left in the rest.
fn cut_literal(text: &str) -> (&str, &str)
    requires plain { prefix_len (has Class.Plain) text.now ≡ 0 }
    requires open { words.after_byte 34 text.now ≡ None }
    ensures reads { words.unquoted text.now
        ≡ words.behind result.0.now (words.unquoted result.1.now) }
    ensures shorter { length result.1.now ≤ length text.now - 1 }
{
    match after_byte(b'\\', text) {
        Some(escaped) => escaped.split_at(literal_len(escaped.as_bytes())),
        None => ("", ""),
    }
}

// Returns the content of a quoted string, whose opening quote is before this text.
fn unquoted(alloc: Global, text: &str) -> Result<Option<Text>, AllocError>
    ensures { IfOk result (λ content. content ≡ words.unquoted text.now) }
{
    let mut content = Text::new(alloc, "")?;
    let mut rest = text;
    while !rest.is_empty() {
        let (plain, mark) = cut_plain(rest);
        content.push_str(plain)?;
        if let Some(behind) = after_byte(b'"', mark) {
            if is_blank(behind) {
                return Ok(Some(content));
            }
            return Ok(None);
        }
        let (literal, behind) = cut_literal(mark);
        content.push_str(literal)?;
        rest = behind;
    }
    Ok(None)
}

// Parses a token followed by white space only.
fn token_value(alloc: Global, text: &str) -> Result<Option<Text>, AllocError>
    ensures { IfOk result (λ value. value ≡ words.token_value text.now) }
{
    let (token, rest) = cut_token(text);
    if !token.is_empty() && is_blank(rest) {
        let value = Text::new(alloc, token)?;
        return Ok(Some(value));
    }
    Ok(None)
}

#[tactic(auto, unfolding(crate::specs::Grammar::value_in))]
fn value_in(alloc: Global, text: &str) -> Result<Option<Text>, AllocError>
    ensures { IfOk result (λ value. value ≡ words.value_in text.now) }
{
    match after_byte(b'"', text) {
        Some(quoted) => {
            let value = unquoted(alloc, quoted)?;
            Ok(value)
        }
        None => {
            let value = token_value(alloc, text)?;
            Ok(value)
        }
    }
}

/// Returns the parameter with this name, and the value after its `=`.
pub fn assigned(alloc: Global, name: &str, text: &str) -> Result<Option<(Text, Text)>, AllocError>
    ensures { IfOk result (λ parameter. parameter ≡ words.assigned name.now (Some text.now)) }
{
    if name.is_empty() {
        return Ok(None);
    }
    match value_in(alloc, text)? {
        Some(value) => {
            let name = Text::new(alloc, name)?;
            Ok(Some((name, value)))
        }
        None => Ok(None),
    }
}

/// Parses a parameter surrounded by white space.
#[tactic(auto, unfolding(crate::specs::Grammar::parameter_in))]
pub fn parameter_in(alloc: Global, text: &str) -> Result<Option<(Text, Text)>, AllocError>
    ensures { IfOk result (λ parameter. parameter ≡ words.parameter_in text.now) }
{
    let (name, rest) = cut_token(text);
    match after_byte(b'=', past_blanks(rest)) {
        Some(value) => {
            let parameter = assigned(alloc, name, value)?;
            Ok(parameter)
        }
        None => Ok(None),
    }
}
