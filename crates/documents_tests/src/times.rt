// Points in time.
use jiff::civil::DateTime;
use json_tables::Reads;
use json_values::Copied;
use oci_docs::Time;
use recorded_answers::{holds, is_written};
use serde_json::Value;
use std::alloc::{AllocError, Global};

fn read(alloc: Global, text: &str) -> Option<Time> {
    let Ok(text) = String::from_str(alloc, text) else {
        return None;
    };
    match Time::read_value(alloc, &Value::String(text)) {
        Ok(time) => Some(time),
        Err(_) => None,
    }
}

fn is_time(alloc: Global, text: &str, want: &str) -> bool {
    match read(alloc, text) {
        Some(time) => is_written(alloc, &time, want),
        None => false,
    }
}

#[test]
fn times_are_written_in_utc(rt: HostRuntime) {
    for (text, want) in [
        (
            "2015-10-31T22:22:56.015925234Z",
            r#""2015-10-31T22:22:56.015925234Z""#,
        ),
        (
            "2015-10-31T23:22:56.5+01:00",
            r#""2015-10-31T22:22:56.500Z""#,
        ),
        ("2016-02-29t00:00:00z", r#""2016-02-29T00:00:00Z""#),
        (
            "2016-02-29 23:59:59.0000010-00:01",
            r#""2016-03-01T00:00:59.000001Z""#,
        ),
        ("2015-03-01T00:00:00.000+23:59", r#""2015-02-28T00:01:00Z""#),
        (
            "2000-12-31T23:00:00.1-01:00",
            r#""2001-01-01T00:00:00.100Z""#,
        ),
        ("0000-01-01T00:00:00Z", r#""0000-01-01T00:00:00Z""#),
        (
            "9999-12-31T23:59:59.999999999Z",
            r#""9999-12-31T23:59:59.999999999Z""#,
        ),
    ] {
        assert!(rt; is_time(rt.alloc(), text, want), "at {text}");
    }
}

#[test]
fn what_no_calendar_and_no_clock_shows_is_no_time(rt: HostRuntime) {
    for text in [
        "2015-02-29T00:00:00Z",
        "1900-02-29T00:00:00Z",
        "2015-10-31T22:22:60Z",
        "2015-10-31T24:00:00Z",
        "2015-04-31T00:00:00Z",
        "0000-01-01T00:00:00+00:01",
        "9999-12-31T23:59:59-00:01",
        "2015-10-31T22:22:56.Z",
        "2015-10-31T22:22:56.0123456789Z",
        "2015-10-31T22:22:56+24:00",
        "2015-10-31T22:22:56+0100",
        "2015-10-31_22:22:56Z",
        "",
    ] {
        assert!(rt; read(rt.alloc(), text).is_none(), "at {text}");
    }
}

fn civil(year: i16) -> Option<DateTime> {
    match DateTime::new(year, 2, 28, 1, 2, 3, 4) {
        Ok(utc) => Some(utc),
        Err(_) => None,
    }
}

fn begins(year: i16) -> bool {
    match civil(year) {
        Some(utc) => Time::new(utc).is_some(),
        None => false,
    }
}

fn is_kept(alloc: Global) -> Result<bool, AllocError> {
    let Some(utc) = civil(2016) else {
        return Ok(false);
    };
    let Some(time) = Time::new(utc) else {
        return Ok(false);
    };
    let copy = time.copy(alloc)?;
    Ok(time.utc() == utc && copy == time)
}

#[test]
fn a_time_begins_with_the_year_0(rt: HostRuntime) {
    assert!(rt; begins(0) && begins(9999) && !begins(-1));
    assert!(rt; holds(is_kept(rt.alloc())));
}
