// Fractions of a second, and offsets from UTC.
ghost use Rattle.std.specs.Prelude.{◌≡◌, ◌<◌, ◌≤◌, length, IfSome};
ghost use Rattle.oci_docs.specs.Reader.{fraction_length, nanoseconds};
ghost use Rattle.oci_docs.specs.Offset.{numeric_offset, offset_of};

use crate::digits::{digit_count, nanoseconds as nanoseconds_of_digits, two_at};

// Returns the length of an optional fraction of a second.
pub(crate) fn fraction_length(text: &[u8]) -> Option<usize>
    ensures value { result ≡ fraction_length text.now }
    ensures within { IfSome result (λ n. n ≤ length text.now) }
{
    if text.is_empty() || text[0] != b'.' {
        return Some(0);
    }
    let count = digit_count(&text[1..]);
    if 1 <= count && count <= 9 {
        Some(count + 1)
    } else {
        None
    }
}

// Returns the nanoseconds of the fraction.
pub(crate) fn nanoseconds(text: &[u8]) -> u32
    ensures value { result ≡ nanoseconds text.now }
    ensures small { result < 1000000000 }
{
    if text.is_empty() || text[0] != b'.' {
        return 0;
    }
    nanoseconds_of_digits(&text[1..])
}

// Returns whether a clock is ahead of UTC, and by how many minutes.
pub(crate) fn offset_in(text: &[u8]) -> Option<(bool, u16)>
    ensures value { result ≡ offset_of text.now }
    ensures small { IfSome result (λ offset. offset.1 < 1440) }
{
    if text.len() == 1 && (text[0] == b'Z' || text[0] == b'z') {
        return Some((true, 0));
    }
    numeric_offset(text)
}

// Parses `+hh:mm` or `-hh:mm`.
fn numeric_offset(text: &[u8]) -> Option<(bool, u16)>
    ensures value { result ≡ numeric_offset text.now }
    ensures small { IfSome result (λ offset. offset.1 < 1440) }
{
    if text.len() != 6 || (text[0] != b'+' && text[0] != b'-') || text[3] != b':' {
        return None;
    }
    let hours = two_at(1, text)?;
    let minutes = two_at(4, text)?;
    if hours < 24 && minutes < 60 {
        Some((text[0] == b'+', hours as u16 * 60 + minutes as u16))
    } else {
        None
    }
}
