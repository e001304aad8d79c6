// Parses times.
ghost use Rattle.std.specs.Prelude.{◌≡◌, ◌+◌, ◌<◌, ◌≤◌, length, drop};
ghost use Rattle.oci_docs.specs.Reader.{has_marks, civil_of, in_utc, moment_of, time_of};

use crate::digits::two_at;
use crate::offset::{fraction_length, nanoseconds, offset_in};
use crate::shift::{earlier, later};
use crate::time::Time;
use json_tables::{ReadError, Reads};
use serde_json::Value;
use std::alloc::Global;

fn has_marks(text: &[u8]) -> bool
    requires { 20 ≤ length text.now }
    ensures { result ≡ has_marks text.now }
{
    text[4] == b'-'
        && text[7] == b'-'
        && (text[10] == b'T' || text[10] == b't' || text[10] == b' ')
        && text[13] == b':'
        && text[16] == b':'
}

fn civil_in(text: &[u8], nanosecond: u32) -> Option<Time>
    requires long { 20 ≤ length text.now }
    requires small { nanosecond < 1000000000 }
    ensures { result ≡ civil_of nanosecond text.now }
{
    if !has_marks(text) {
        return None;
    }
    let century = two_at(0, text)?;
    let year = two_at(2, text)?;
    let month = two_at(5, text)?;
    let day = two_at(8, text)?;
    let hour = two_at(11, text)?;
    let minute = two_at(14, text)?;
    let second = two_at(17, text)?;
    let year = century as u16 * 100 + year as u16;
    Time::from_parts(year, month, day, hour, minute, second, nanosecond)
}

// Skips `count` bytes.
fn after(count: usize, text: &[u8]) -> &[u8]
    requires { count ≤ length text.now }
    ensures value { result.now ≡ drop count text.now }
    ensures size { length result.now + count ≡ length text.now }
{
    &text[count..]
}

#[tactic(auto, unfolding(crate::specs::Reader::moment_of))]
fn moment_in(text: &[u8]) -> Option<Time>
    ensures { result ≡ moment_of text.now }
{
    if text.len() < 20 {
        return None;
    }
    let rest = after(19, text);
    let fraction = fraction_length(rest)?;
    let civil = civil_in(text, nanoseconds(rest))?;
    let offset = offset_in(after(fraction, rest))?;
    in_utc(offset, &civil)
}

// Returns the UTC time at which a clock with this offset shows the civil time.
fn in_utc(offset: (bool, u16), civil: &Time) -> Option<Time>
    requires { offset.1 < 1440 }
    ensures { result ≡ in_utc offset civil.now }
{
    let (ahead, minutes) = offset;
    if ahead {
        earlier(civil, minutes)
    } else {
        later(civil, minutes)
    }
}

impl Reads for Time {
    ghost reading = { time_of };

    #[tactic(auto, unfolding(crate::specs::Reader::time_of))]
    fn read_value(_alloc: Global, value: &Value) -> Result<Time, ReadError> {
        let Some(text) = value.as_str() else {
            return Err(ReadError::Shape);
        };
        match moment_in(text.as_bytes()) {
            Some(time) => Ok(time),
            None => Err(ReadError::Shape),
        }
    }
}
