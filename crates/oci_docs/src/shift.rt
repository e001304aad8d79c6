// The same instant on a clock with another offset.
ghost use Rattle.std.specs.Prelude.{◌≡◌, ◌<◌, ◌≤◌};
ghost use Rattle.oci_docs.specs.Shift.{day_after, day_before, on_last_day, later, earlier};

use crate::time::Time;

fn day_after(time: &Time) -> Option<Time>
    ensures { result ≡ day_after time.now }
{
    let (year, month) = (time.year(), time.month());
    if let Some(next) = time.on_day(year, month, time.day() + 1) {
        return Some(next);
    }
    if let Some(next) = time.on_day(year, month + 1, 1) {
        return Some(next);
    }
    time.on_day(year + 1, 1, 1)
}

fn on_last_day(time: &Time, year: u16, month: u8) -> Option<Time>
    requires { year ≤ 10000 × month < 100 }
    ensures { result ≡ on_last_day time.now year month }
{
    if let Some(last) = time.on_day(year, month, 31) {
        return Some(last);
    }
    if let Some(last) = time.on_day(year, month, 30) {
        return Some(last);
    }
    if let Some(last) = time.on_day(year, month, 29) {
        return Some(last);
    }
    time.on_day(year, month, 28)
}

fn day_before(time: &Time) -> Option<Time>
    ensures { result ≡ day_before time.now }
{
    let (year, month) = (time.year(), time.month());
    if let Some(last) = time.on_day(year, month, time.day() - 1) {
        return Some(last);
    }
    if let Some(last) = on_last_day(time, year, month - 1) {
        return Some(last);
    }
    if year == 0 {
        return None;
    }
    on_last_day(time, year - 1, 12)
}

// Adds `minutes`.
pub(crate) fn later(time: &Time, minutes: u16) -> Option<Time>
    requires { minutes < 1440 }
    ensures { result ≡ later time.now minutes }
{
    let minute = time.minutes() + minutes;
    if minute < 1440 {
        return time.at_minute(minute);
    }
    let Some(next) = day_after(time) else {
        return None;
    };
    next.at_minute(minute - 1440)
}

// Subtracts `minutes`.
pub(crate) fn earlier(time: &Time, minutes: u16) -> Option<Time>
    requires { minutes < 1440 }
    ensures { result ≡ earlier time.now minutes }
{
    let minute = time.minutes();
    if minutes <= minute {
        return time.at_minute(minute - minutes);
    }
    let Some(last) = day_before(time) else {
        return None;
    };
    last.at_minute(minute + 1440 - minutes)
}
