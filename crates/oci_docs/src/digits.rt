// Digits in texts.
ghost use Rattle.std.specs.Prelude.{◌≡◌, ◌+◌, ◌*◌, ◌<◌, ◌≤◌, length, IfSome, IsTrue};
ghost use Rattle.oci_docs.specs.Reader.{digit_count};
ghost use Rattle.oci_docs.specs.Digits.{is_digit, digit_value, two_at};
ghost use Rattle.oci_docs.specs.Reader.{nanoseconds_by};

#[tactic(auto, unfolding(crate::specs::Digits::is_digit))]
fn is_digit(byte: u8) -> bool
    ensures { result ≡ is_digit byte }
{
    48 <= byte && byte <= 57
}

// Returns the number of the two digits at this index.
#[tactic(auto, unfolding(crate::specs::Digits::is_digit, crate::specs::Digits::two_digits))]
pub(crate) fn two_at(place: usize, text: &[u8]) -> Option<u8>
    requires { place + 1 < length text.now }
    ensures value { result ≡ two_at place text.now }
    ensures small { IfSome result (λ n. n < 100) }
{
    let (tens, ones) = (text[place], text[place + 1]);
    if is_digit(tens) && is_digit(ones) {
        Some((tens - 48) * 10 + (ones - 48))
    } else {
        None
    }
}

// Returns the number of leading digits.
pub(crate) fn digit_count(text: &[u8]) -> usize
    ensures value { result ≡ digit_count text.now }
    ensures within { result ≤ length text.now }
{
    let mut count = 0;
    for byte in text {
        if !is_digit(*byte) {
            return count;
        }
        count += 1;
    }
    count
}

// Returns the nanoseconds that a digit contributes.
#[tactic(auto, using(crate::proofs::Shares::digit_share), unfolding(crate::specs::Digits::is_digit))]
fn share(byte: u8, place: u32) -> u32
    requires digit { IsTrue (is_digit byte) }
    requires small { place ≤ 100000000 }
    ensures value { result ≡ digit_value byte * place }
    ensures most { result ≤ 9 * place }
{
    (byte - 48) as u32 * place
}

// Returns the nanoseconds of the leading digits after a decimal point.
pub(crate) fn nanoseconds(text: &[u8]) -> u32
    ensures value { result ≡ nanoseconds_by 100000000 text.now }
    ensures small { result < 1000000000 }
{
    let mut sum: u32 = 0;
    let mut place: u32 = 100000000;
    for byte in text {
        if !is_digit(*byte) {
            return sum;
        }
        sum += share(*byte, place);
        place /= 10;
    }
    sum
}
