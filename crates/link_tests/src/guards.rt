// The requests that a guard allows.
use crate::headers::holds;
use crate::scripts::recorded;
use crate::urls::request;
use json_values::{List, Text};
use oci_link::{Guarded, Hosts, Method, Rules, Script, Transport};
use std::alloc::{AllocError, Global};

fn texts(alloc: Global, text: &str) -> Result<List<Text>, AllocError> {
    let mut texts = List::new(alloc);
    texts.push(Text::new(alloc, text)?)?;
    Ok(texts)
}

// Whether a request is sent, if `localhost:5000` accepts http.
fn passes(alloc: Global, hosts: Hosts, url: &str, shows: bool) -> Result<bool, AllocError> {
    let mut asked = request(alloc, Method::Get, url)?;
    if shows && asked.headers.add("authorization", b"Basic YQ==").is_err() {
        return Err(AllocError);
    }
    let rules = Rules {
        plain: texts(alloc, "localhost:5000")?,
        hosts,
    };
    let mut answers = List::new(alloc);
    answers.push(recorded(alloc, 0, false, None)?)?;
    let mut guard = Guarded::new(alloc, Script::new(alloc, answers), rules);
    Ok(guard.send(alloc, &asked).is_ok())
}

#[test]
fn schemes_are_kept(rt: HostRuntime) {
    assert!(rt; holds(passes(rt.alloc(), Hosts::Any, "https://a/v2/", false)));
    assert!(rt; holds(passes(rt.alloc(), Hosts::Any, "http://localhost:5000/v2/", false)));
    assert!(rt; !holds(passes(rt.alloc(), Hosts::Any, "http://localhost/v2/", false)));
}

#[test]
fn credentials_are_shown_below_one_path(rt: HostRuntime) {
    assert!(rt; holds(passes(rt.alloc(), Hosts::Any, "https://a/v2/x/blobs/y", true)));
    assert!(rt; !holds(passes(rt.alloc(), Hosts::Any, "https://a/v2/../admin", true)));
    assert!(rt; holds(passes(rt.alloc(), Hosts::Any, "https://a/admin", false)));
}

fn passes_to(alloc: Global, url: &str) -> Result<bool, AllocError> {
    let hosts = Hosts::Only(texts(alloc, "a.b")?);
    passes(alloc, hosts, url, false)
}

#[test]
fn hosts_are_kept(rt: HostRuntime) {
    assert!(rt; holds(passes_to(rt.alloc(), "https://A.b:444/v2/")));
    assert!(rt; !holds(passes_to(rt.alloc(), "https://c.a.b/v2/")));
}
