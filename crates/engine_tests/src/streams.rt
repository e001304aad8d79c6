// Streams: their pieces, their ends and their refusals.
use crate::recorded::{part, registry, says, whole};
use engine_streams::{BlobResponse, ByteRange};
use std::alloc::Global;

// Whether a stream of this body returns this.
fn whole_says(
    alloc: Global,
    length: &str,
    body: &[&str],
    fails_before: Option<u64>,
    want: &[&str],
) -> bool {
    let Ok(mut script) = registry(alloc, 200, length, body, fails_before) else {
        return false;
    };
    match whole(alloc, &mut script, 11) {
        Ok(mut stream) => says(alloc, &mut stream, &mut script, want),
        Err(_) => false,
    }
}

fn is_cut(alloc: Global, front: &str, back: &str) -> bool {
    whole_says(alloc, "11", &[front, back], None, &[front, back, "", ""])
}

#[test]
fn a_blob_comes_in_the_pieces_of_its_answer(rt: HostRuntime) {
    assert!(rt; is_cut(rt.alloc(), "h", "ello world"));
    assert!(rt; is_cut(rt.alloc(), "hello", " world"));
    assert!(rt; is_cut(rt.alloc(), "hello worl", "d"));
}

#[test]
fn bytes_are_not_compared_with_the_length(rt: HostRuntime) {
    assert!(rt;
        whole_says(
            rt.alloc(),
            "5",
            &["hello world"],
            None,
            &["hello world", ""]
        )
    );
    assert!(rt;
        whole_says(
            rt.alloc(),
            "50",
            &["hello world"],
            None,
            &["hello world", ""]
        )
    );
}

#[test]
fn other_bytes_are_refused_at_the_end(rt: HostRuntime) {
    let want = ["hello", "DigestError", "StreamFailed", "StreamFailed"];
    assert!(rt; whole_says(rt.alloc(), "5", &["hello"], None, &want));
}

#[test]
fn no_more_than_the_limit_is_given(rt: HostRuntime) {
    let want = ["hello world", "BodyTooLong", "StreamFailed"];
    assert!(rt; whole_says(rt.alloc(), "12", &["hello world", "!"], None, &want));
}

#[test]
fn a_fault_ends_a_stream(rt: HostRuntime) {
    let want = ["hello", "TransportFault", "StreamFailed"];
    assert!(rt; whole_says(rt.alloc(), "11", &["hello", " world"], Some(1), &want));
}

// Whether a response with this status to a request for the last five bytes is a part, and its stream returns this.
fn part_says(alloc: Global, status: u16, body: &[&str], partial: bool, want: &[&str]) -> bool {
    let range = ByteRange {
        offset: 6,
        length: Some(5),
    };
    let Ok(mut script) = registry(alloc, status, "5", body, None) else {
        return false;
    };
    match part(alloc, &mut script, range) {
        Ok(BlobResponse::Full(mut stream)) => {
            !partial && says(alloc, &mut stream, &mut script, want)
        }
        Ok(BlobResponse::Partial(mut stream)) => {
            partial && says(alloc, &mut stream, &mut script, want)
        }
        Err(_) => false,
    }
}

#[test]
fn a_part_is_compared_with_nothing(rt: HostRuntime) {
    assert!(rt; part_says(rt.alloc(), 206, &["world"], true, &["world", "", ""]));
    assert!(rt;
        part_says(
            rt.alloc(),
            200,
            &["hello world"],
            false,
            &["hello world", ""]
        )
    );
    assert!(rt;
        part_says(
            rt.alloc(),
            200,
            &["world"],
            false,
            &["world", "DigestError"]
        )
    );
}

// Whether a request for these bytes is refused with this name.
fn is_refused(alloc: Global, status: u16, range: ByteRange, name: &str) -> bool {
    let Ok(mut script) = registry(alloc, status, "5", &["world"], None) else {
        return false;
    };
    match part(alloc, &mut script, range) {
        Ok(_) => false,
        Err(error) => error.name() == name,
    }
}

#[test]
fn a_range_ends_before_the_greatest_place(rt: HostRuntime) {
    let past = ByteRange {
        offset: u64::MAX,
        length: Some(1),
    };
    assert!(rt; is_refused(rt.alloc(), 206, past, "GenericError"));
    let on = ByteRange {
        offset: u64::MAX,
        length: None,
    };
    assert!(rt; is_refused(rt.alloc(), 204, on, "SpecViolationError"));
}
