// Frames that are whole, truncated, too long, and malformed.
use byte_streams::MemorySource;
use json_values::{Blob, List};
use live_link::{Frame, FrameError, read_frame};
use std::alloc::{AllocError, Global};

const THREE: &[u8] = b"{\"bytes\":3}\nabc";

pub(crate) fn source(alloc: Global, text: &[u8]) -> Result<MemorySource, AllocError> {
    Ok(MemorySource::new(Blob::new(alloc, text)?, List::new(alloc)))
}

fn read(alloc: Global, text: &[u8], most: u64) -> Result<Frame, FrameError> {
    let mut source = source(alloc, text)?;
    read_frame(alloc, &mut source, most)
}

fn is_refused(alloc: Global, text: &[u8], most: u64, want: FrameError) -> bool {
    match read(alloc, text, most) {
        Ok(_) => false,
        Err(error) => error == want,
    }
}

fn is_frame(alloc: Global, text: &[u8], want: &[u8]) -> bool {
    match read(alloc, text, 3) {
        Ok(frame) => frame.bytes.as_slice() == want,
        Err(_) => false,
    }
}

fn each_cut_is_refused(alloc: Global) -> bool {
    for end in 0..THREE.len() {
        if !is_refused(alloc, &THREE[..end], 3, FrameError::Ended) {
            return false;
        }
    }
    true
}

#[test]
fn a_frame_is_read_whole_and_no_further(rt: HostRuntime) {
    let alloc = rt.alloc();
    assert!(rt; is_frame(alloc, THREE, b"abc"));
    assert!(rt; is_frame(alloc, b"{\"bytes\":3}\nabcdef", b"abc"));
    assert!(rt; is_frame(alloc, b"{}\nabc", b""));
}

#[test]
fn a_frame_that_is_cut_anywhere_is_refused(rt: HostRuntime) {
    assert!(rt; each_cut_is_refused(rt.alloc()));
}

#[test]
fn what_is_no_frame_is_refused(rt: HostRuntime) {
    let alloc = rt.alloc();
    assert!(rt; is_refused(alloc, THREE, 2, FrameError::TooLong));
    assert!(rt; is_refused(alloc, b"{\"bytes\":-1}\n", 3, FrameError::NoFrame));
    assert!(rt; is_refused(alloc, b"frame\n", 3, FrameError::NoFrame));
}
