ghost use Rattle.std.specs.Prelude.{◌≡◌, ◌↔◌, ◌<◌, ◌≤◌, Some, IsSome, IfSome, IsTrue, pos};
ghost use Rattle.jiff_core.specs.Calendar.{IsBetween};
ghost use Rattle.oci_docs.specs.Moment.{moment_at, checked};
ghost use Rattle.oci_docs.specs.Shift.{on_day, at_minute, minutes_of};

use jiff::civil::DateTime;
use json_values::Copied;
use std::alloc::{AllocError, Global};
use std::marker::Model;

/// A moment in the years 0000 to 9999, by its civil date and time in UTC.
#[derive(Debug, Drop)]
pub struct Time {
    utc: DateTime,
}

impl Model for Time {
    ghost use Rattle.std.specs.Prelude.{pos, ◌≤ℤ◌};
    ghost use Rattle.oci_docs.specs.Moment.{Moment, moment_at};

    ghost Value = { Moment };

    ghost view = { λ t. moment_at t.utc };

    ghost invariant = { λ t. pos 0 ≤ℤ t.utc.date.year };
}

impl Time {
    /// Wraps a UTC time. Returns `None` if and only if the year is negative: a `DateTime` ends with the year 9999.
    pub fn new(utc: DateTime) -> Option<Time>
        ensures range { IsSome result ↔ IsBetween (pos 0) (pos 9999) utc.date.year }
        ensures value { IfSome result (λ time. time ≡ moment_at utc) }
    {
        if utc.year() < 0 {
            return None;
        }
        Some(Time { utc })
    }

    /// Returns the civil date and time in UTC.
    pub fn utc(&self) -> DateTime
        ensures value { moment_at result ≡ self.now }
        ensures range { IsBetween (pos 0) (pos 9999) result.date.year }
    {
        self.utc
    }

    // Returns the moment of these parts, if it is valid.
    pub(crate) fn from_parts(
        year: u16,
        month: u8,
        day: u8,
        hour: u8,
        minute: u8,
        second: u8,
        nanosecond: u32,
    ) -> Option<Time>
        requires date { year ≤ 10000 × month < 100 × day < 100 }
        requires clock { hour < 100 × minute < 100 × second < 100 × nanosecond < 1000000000 }
        ensures { result ≡ checked (record {
          year = year;
          month = month;
          day = day;
          hour = hour;
          minute = minute;
          second = second;
          nanosecond = nanosecond;
        }) }
    {
        let utc = DateTime::new(
            year as i16,
            month as i8,
            day as i8,
            hour as i8,
            minute as i8,
            second as i8,
            nanosecond as i32,
        );
        match utc {
            Ok(utc) => Some(Time { utc }),
            Err(_) => None,
        }
    }

    pub(crate) fn year(&self) -> u16
        ensures value { result ≡ self.now.year }
        ensures small { result < 10000 }
    {
        self.utc.year() as u16
    }

    pub(crate) fn month(&self) -> u8
        ensures value { result ≡ self.now.month }
        ensures small { 1 ≤ result × result < 13 }
    {
        self.utc.month() as u8
    }

    pub(crate) fn day(&self) -> u8
        ensures value { result ≡ self.now.day }
        ensures small { 1 ≤ result × result < 32 }
    {
        self.utc.day() as u8
    }

    pub(crate) fn hour(&self) -> u8
        ensures { result ≡ self.now.hour }
    {
        self.utc.hour() as u8
    }

    pub(crate) fn minute(&self) -> u8
        ensures { result ≡ self.now.minute }
    {
        self.utc.minute() as u8
    }

    pub(crate) fn second(&self) -> u8
        ensures { result ≡ self.now.second }
    {
        self.utc.second() as u8
    }

    pub(crate) fn nanosecond(&self) -> u32
        ensures value { result ≡ self.now.nanosecond }
        ensures shown { checked self.now ≡ Some self.now }
    {
        self.utc.subsec_nanosecond() as u32
    }

    pub(crate) fn minutes(&self) -> u16
        ensures value { result ≡ minutes_of self.now }
        ensures small { result < 1440 }
    {
        self.utc.hour() as u16 * 60 + self.utc.minute() as u16
    }

    // Returns the same time of day on this day.
    pub(crate) fn on_day(&self, year: u16, month: u8, day: u8) -> Option<Time>
        requires { year ≤ 10000 × month < 100 × day < 100 }
        ensures { result ≡ on_day self.now year month day }
    {
        let utc = self.utc;
        Time::from_parts(
            year,
            month,
            day,
            utc.hour() as u8,
            utc.minute() as u8,
            utc.second() as u8,
            utc.subsec_nanosecond() as u32,
        )
    }

    // Returns the time `minutes` after midnight on the same day.
    pub(crate) fn at_minute(&self, minutes: u16) -> Option<Time>
        requires { minutes < 1440 }
        ensures { result ≡ at_minute self.now minutes }
    {
        let utc = self.utc;
        Time::from_parts(
            self.year(),
            self.month(),
            self.day(),
            (minutes / 60) as u8,
            (minutes % 60) as u8,
            utc.second() as u8,
            utc.subsec_nanosecond() as u32,
        )
    }
}

impl Copied for Time {
    fn copy(&self, _alloc: Global) -> Result<Time, AllocError> {
        Ok(Time { utc: self.utc })
    }
}

/// Times are equal if their civil dates and times are equal.
impl PartialEq for Time {
    ghost use Rattle.std.specs.Cmp.{partial_equiv_from_equiv};
    ghost use Rattle.oci_docs.specs.Moment.{is_same};
    ghost use Rattle.oci_docs.specs.TimeEqualities.{moments};

    ghost eq = { is_same };

    ghost laws = { partial_equiv_from_equiv moments };

    fn eq(&self, other: &Time) -> bool
        ensures value { result ≡ is_same self.now other.now }
        ensures same { IsTrue result ↔ (self.now ≡ other.now) }
    {
        self.year() == other.year()
            && self.month() == other.month()
            && self.day() == other.day()
            && self.hour() == other.hour()
            && self.minute() == other.minute()
            && self.second() == other.second()
            && self.nanosecond() == other.nanosecond()
    }
}

impl Eq for Time {
    ghost use Rattle.oci_docs.specs.TimeEqualities.{moments};

    ghost laws = { moments };
}
