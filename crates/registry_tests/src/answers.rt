// Cached responses.
use json_values::{Blob, Text};
use registry_cache::{Answer, Answers, Bounds, Entry, Kind};
use std::alloc::{AllocError, Global};

// A digest that is cached under a key: the key's own text.
fn entry(alloc: Global, key: &str, moment: u64) -> Result<Entry, AllocError> {
    let digest = Text::new(alloc, key)?;
    let key = Blob::new(alloc, key.as_bytes())?;
    Ok(Entry {
        key,
        moment,
        answer: Answer::Digest(digest),
    })
}

fn filled(
    alloc: Global,
    bounds: Option<Bounds>,
    kept: &[(&str, u64)],
) -> Result<Answers, AllocError> {
    let mut answers = Answers::new(alloc, bounds);
    for (key, moment) in kept {
        answers.keep(alloc, entry(alloc, key, *moment)?)?;
    }
    Ok(answers)
}

fn is_digest(answer: &Option<Answer>, want: &str) -> bool {
    match answer {
        Some(Answer::Digest(digest)) => digest.as_str() == want,
        _ => false,
    }
}

// Whether the digest of a key is still returned.
fn is_given(
    alloc: Global,
    bounds: Option<Bounds>,
    kept: &[(&str, u64)],
    key: &str,
    moment: u64,
) -> bool {
    let Ok(answers) = filled(alloc, bounds, kept) else {
        return false;
    };
    match answers.fresh(alloc, Kind::Digests, key.as_bytes(), moment) {
        Ok(answer) => is_digest(&answer, key),
        Err(_) => false,
    }
}

#[test]
fn an_answer_is_given_for_less_than_60_seconds(rt: HostRuntime) {
    for (moment, want) in [
        (99, false),
        (100, true),
        (159, true),
        (160, false),
        (161, false),
    ] {
        assert!(rt;
            is_given(rt.alloc(), None, &[("a", 100)], "a", moment) == want,
            "{moment}"
        );
    }
}

#[test]
fn the_latest_takes_the_place_of_what_was_kept(rt: HostRuntime) {
    let kept = [("a", 100), ("b", 120), ("a", 150)];
    let two = Bounds {
        answers: 2,
        bytes: 1000,
    };
    assert!(rt; !is_given(rt.alloc(), None, &kept, "a", 149));
    assert!(rt; is_given(rt.alloc(), None, &kept, "a", 209));
    assert!(rt; is_given(rt.alloc(), Some(two), &kept, "b", 150));
}

// A key of one byte and its digest weigh 66 bytes.
#[test]
fn what_was_kept_longest_ago_goes(rt: HostRuntime) {
    let kept = [("a", 100), ("b", 101), ("c", 102)];
    for (answers, bytes, key, want) in [
        (3, 198, "a", true),
        (3, 197, "a", false),
        (3, 197, "b", true),
        (2, 1000, "a", false),
        (2, 1000, "b", true),
        (1, 66, "c", true),
        (1, 65, "c", false),
    ] {
        let bounds = Some(Bounds { answers, bytes });
        let given = is_given(rt.alloc(), bounds, &kept, key, 110);
        assert!(rt; given == want, "{answers} answers, {bytes} bytes, {key}");
    }
}
