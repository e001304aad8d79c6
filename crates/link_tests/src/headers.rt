// Header fields.
use oci_link::{HeaderError, Headers, header_text};
use std::alloc::Global;

/// Whether a result is true.
pub(crate) fn holds<E: Drop>(answer: Result<bool, E>) -> bool {
    match answer {
        Ok(holds) => holds,
        Err(_) => false,
    }
}

// Whether a name has this value at this index.
fn is_value(headers: &Headers, name: &str, place: usize, want: &[u8]) -> bool {
    match headers.value_at(name, place) {
        Some(value) => value == want,
        None => false,
    }
}

fn three(alloc: Global) -> Result<Headers, HeaderError> {
    let mut headers = Headers::new(alloc);
    headers.add("WWW-Authenticate", b"Basic")?;
    headers.add("Location", b"/v2/")?;
    headers.add("www-authenticate", b"Bearer")?;
    Ok(headers)
}

fn values_in_order(alloc: Global) -> Result<bool, HeaderError> {
    let headers = three(alloc)?;
    let first = is_value(&headers, "www-authenticate", 0, b"Basic");
    let second = is_value(&headers, "www-authenticate", 1, b"Bearer");
    Ok(first && second && headers.value_at("www-authenticate", 2).is_none())
}

fn names_in_order(alloc: Global) -> Result<bool, HeaderError> {
    let headers = three(alloc)?;
    let first = headers.name_at(0) == Some("location");
    Ok(first && headers.name_at(2).is_none() && headers.first("etag").is_none())
}

fn name_is_dropped(alloc: Global) -> Result<bool, HeaderError> {
    let headers = three(alloc)?;
    let others = headers.without(alloc, "www-authenticate")?;
    Ok(others.first("www-authenticate").is_none() && is_value(&others, "location", 0, b"/v2/"))
}

#[test]
fn headers_keep_the_values_of_a_name_in_order(rt: HostRuntime) {
    assert!(rt; holds(values_in_order(rt.alloc())));
    assert!(rt; holds(names_in_order(rt.alloc())));
    assert!(rt; holds(name_is_dropped(rt.alloc())));
}

fn is_refused(alloc: Global, name: &str, value: &[u8], want: HeaderError) -> bool {
    let mut headers = Headers::new(alloc);
    headers.add(name, value) == Err(want)
}

#[test]
fn headers_refuse_what_cannot_stand_in_a_field(rt: HostRuntime) {
    assert!(rt; is_refused(rt.alloc(), "a b", b"v", HeaderError::BadName));
    assert!(rt; is_refused(rt.alloc(), "", b"v", HeaderError::BadName));
    assert!(rt; is_refused(rt.alloc(), "a", b"\n", HeaderError::BadValue));
    assert!(rt; header_text(b"\t ~").is_some() && header_text(b"\xff").is_none());
}

fn thousand_values(alloc: Global) -> Result<bool, HeaderError> {
    let mut headers = Headers::new(alloc);
    for _ in 0..1000u16 {
        headers.add("a", b"")?;
    }
    Ok(headers.add("b", b"") == Err(HeaderError::TooMany))
}

#[test]
fn headers_hold_a_thousand_values(rt: HostRuntime) {
    assert!(rt; holds(thousand_values(rt.alloc())));
}
