// Numbers in decimal.
ghost use Rattle.std.specs.Prelude.{◌≡◌, IfOk, decimal};
ghost use Rattle.std.specs.List.{list_all};
ghost use Rattle.json_values.specs.Decimals.{DecimalsRoundTrip, decimal_of, is_decimal, is_digit};

use crate::text::Text;
use std::alloc::{AllocError, Global};
use std::str;

/// Formats a number in decimal, without leading zeros.
pub fn write_decimal(alloc: Global, number: u64) -> Result<Text, AllocError>
    ensures { IfOk result (λ text. text ≡ decimal number) }
{
    let digits = format!(in alloc; "{number}")?;
    Text::new(alloc, digits.as_str())
}

/// Returns the number below 2^64 that one or more decimal digits denote, or `None` for any other text.
#[tactic(auto, using(crate::proofs::Decimals::decimal_rules))]
pub fn read_decimal(text: &[u8]) -> Option<u64>
    ensures { result ≡ decimal_of text.now }
{
    if !is_decimal(text) {
        return None;
    }
    let Ok(digits) = str::from_utf8(text) else {
        return None;
    };
    digits.parse::<u64>().ok()
}

/// `read_decimal` returns each number that `write_decimal` writes.
pub fn decimals_round_trip()
    ensures { DecimalsRoundTrip }
{}

fn is_decimal(text: &[u8]) -> bool
    ensures { result ≡ is_decimal text.now }
{
    if text.is_empty() {
        return false;
    }
    all_digits(text)
}

fn all_digits(text: &[u8]) -> bool
    ensures { result ≡ list_all is_digit text.now }
{
    text.iter().all(|byte| is_digit(*byte))
}

fn is_digit(byte: u8) -> bool
    ensures { result ≡ is_digit byte }
{
    48 <= byte && byte <= 57
}
