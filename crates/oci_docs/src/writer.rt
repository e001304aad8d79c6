// Formats times.
ghost use Rattle.std.specs.Prelude.{◌≡◌, ◌++◌, [], ◌∷◌, OnOk, IfOk, string_bytes, Some};
ghost use Rattle.oci_docs.specs.Moment.{checked};
ghost use Rattle.oci_docs.specs.Writer.{digit, two, three, date_text, clock_text, civil_text};
ghost use Rattle.oci_docs.specs.Writer.{fraction_text, moment_text};

use crate::time::Time;
use json_tables::Writes;
use json_values::ToValue;
use serde_json::Value;
use std::alloc::{AllocError, Global};

#[tactic(auto, unfolding(crate::specs::Writer::digit))]
fn put_digit(text: &mut String, number: u32) -> Result<(), AllocError>
    ensures { OnOk result (string_bytes text.new ≡ string_bytes text.old ++ digit number ∷ []) }
{
    let byte = 48 + (number % 10) as u8;
    text.push(byte as char)?;
    Ok(())
}

fn put_two(text: &mut String, number: u32) -> Result<(), AllocError>
    ensures { OnOk result (string_bytes text.new ≡ string_bytes text.old ++ two number) }
{
    put_digit(text, number / 10)?;
    put_digit(text, number)?;
    Ok(())
}

fn put_three(text: &mut String, number: u32) -> Result<(), AllocError>
    ensures { OnOk result (string_bytes text.new ≡ string_bytes text.old ++ three number) }
{
    put_digit(text, number / 100)?;
    put_two(text, number)?;
    Ok(())
}

fn put_date(text: &mut String, time: &Time) -> Result<(), AllocError>
    ensures { OnOk result (string_bytes text.new ≡ string_bytes text.old ++ date_text time.now) }
{
    let year = time.year() as u32;
    put_two(text, year / 100)?;
    put_two(text, year)?;
    text.push_str("-")?;
    put_two(text, time.month() as u32)?;
    text.push_str("-")?;
    put_two(text, time.day() as u32)?;
    Ok(())
}

fn put_clock(text: &mut String, time: &Time) -> Result<(), AllocError>
    ensures { OnOk result (string_bytes text.new ≡ string_bytes text.old ++ clock_text time.now) }
{
    put_two(text, time.hour() as u32)?;
    text.push_str(":")?;
    put_two(text, time.minute() as u32)?;
    text.push_str(":")?;
    put_two(text, time.second() as u32)?;
    Ok(())
}

// Appends the fewest of 0, 3, 6 and 9 digits that are exact.
fn put_fraction(text: &mut String, time: &Time) -> Result<(), AllocError>
    ensures shown { OnOk result (checked time.now ≡ Some time.now) }
    ensures bytes { OnOk result
        (string_bytes text.new ≡ string_bytes text.old ++ fraction_text time.now.nanosecond) }
{
    let nanosecond = time.nanosecond();
    if nanosecond == 0 {
        return Ok(());
    }
    text.push_str(".")?;
    put_three(text, nanosecond / 1000000)?;
    if nanosecond % 1000000 == 0 {
        return Ok(());
    }
    put_three(text, nanosecond / 1000)?;
    if nanosecond % 1000 == 0 {
        return Ok(());
    }
    put_three(text, nanosecond)?;
    Ok(())
}

fn put_civil(text: &mut String, time: &Time) -> Result<(), AllocError>
    ensures { OnOk result (string_bytes text.new ≡ string_bytes text.old ++ civil_text time.now) }
{
    put_date(text, time)?;
    text.push_str("T")?;
    put_clock(text, time)?;
    Ok(())
}

#[tactic(auto, unfolding(crate::specs::Writer::moment_text))]
fn put_time(text: &mut String, time: &Time) -> Result<(), AllocError>
    ensures shown { OnOk result (checked time.now ≡ Some time.now) }
    ensures bytes { OnOk result
        (string_bytes text.new ≡ string_bytes text.old ++ moment_text time.now) }
{
    put_civil(text, time)?;
    put_fraction(text, time)?;
    text.push_str("Z")?;
    Ok(())
}

// Returns the text in UTC.
fn time_text(alloc: Global, time: &Time) -> Result<String, AllocError>
    ensures shown { OnOk result (checked time.now ≡ Some time.now) }
    ensures exact { IfOk result (λ text. string_bytes text ≡ moment_text time.now) }
{
    let mut text = String::new(alloc);
    put_time(&mut text, time)?;
    Ok(text)
}

impl Writes for Time {
    ghost use Rattle.oci_docs.specs.Writer.{time_written};

    ghost written = { time_written };

    #[tactic(auto, using(crate::proofs::Back::time_again))]
    fn write_value(&self, alloc: Global) -> Result<Value, AllocError> {
        let text = time_text(alloc, self)?;
        Ok(Value::String(text))
    }
}

impl ToValue for Time {
    ghost use Rattle.oci_docs.specs.Writer.{time_written};

    ghost written = { time_written };

    fn to_value(&self, alloc: Global) -> Result<Value, AllocError> {
        let value = self.write_value(alloc)?;
        Ok(value)
    }
}
