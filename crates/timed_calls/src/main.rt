//! Calls to be timed, by the first argument. Reads a manifest from standard input and writes it again: by its table
//! (`documents`), or as plain JSON (`json`). Or reads a bundle, and writes its signature (`bundle`). Or pulls a blob of
//! `MIB` MiB as a stream (`stream MIB DIGEST`), or only hashes the same bytes (`hash MIB DIGEST`); its pieces are made
//! when they are requested. Or pushes a blob of `MIB` MiB to a registry that keeps nothing (`push MIB`), only copies the
//! same bytes (`copy MIB`), pushes an image of `N` layers (`layers N`), or lists `N` thousand tags (`tags N`).
//!
//! The exit status is 1 if the digest differs, 2 for other arguments, 3 if the input does not parse, 4
//! if it could not be read, 5 if the output could not be written, and 6 if memory ran out.
#![tactic(auto)]

mod accepting;
mod bundle;
mod pieces;
mod pushing;
mod stream;
mod ways;

use bundle::bundle_signature;
use byte_streams::{INPUT_LIMIT, StdSink, StdSource, put_all, read_all};
use json_values::Blob;
use pushing::{push_words, pushed};
use std::alloc::{AllocError, Global};
use std::env::{self, Env};
use std::io;
use std::process::ExitCode;
use stream::{timed, what_words_say};
use ways::{json_again, manifest_again};

#[derive(Clone, Copy)]
enum Way {
    Documents,
    Json,
    Bundle,
}

// The way that the first argument names.
fn first_word<R: Env + Alloc>(rt: &R) -> io::Result<Option<Way>> {
    let Some(word) = env::args(rt)?.nth(1) else {
        return Ok(None);
    };
    Ok(match word.as_str() {
        "documents" => Some(Way::Documents),
        "json" => Some(Way::Json),
        "bundle" => Some(Way::Bundle),
        _ => None,
    })
}

fn again(alloc: Global, way: Way, bytes: &Blob) -> Result<Option<Blob>, AllocError> {
    match way {
        Way::Documents => manifest_again(alloc, bytes.as_slice()),
        Way::Json => json_again(alloc, bytes.as_slice()),
        Way::Bundle => bundle_signature(alloc, bytes),
    }
}

fn main(rt: HostRuntime) -> ExitCode {
    let alloc = rt.alloc();
    if let Some(asked) = what_words_say(&rt, alloc) {
        return ExitCode::from(timed(alloc, &asked));
    }
    if let Some(asked) = push_words(&rt) {
        return ExitCode::from(pushed(alloc, asked));
    }
    let way = match first_word(&rt) {
        Ok(Some(way)) => way,
        Ok(None) => return ExitCode::from(2),
        Err(_) => return ExitCode::from(6),
    };
    let Ok(bytes) = read_all(alloc, &mut StdSource::new(rt.stdin()), INPUT_LIMIT) else {
        return ExitCode::from(4);
    };
    let Ok(found) = again(alloc, way, &bytes) else {
        return ExitCode::from(6);
    };
    let Some(text) = found else {
        return ExitCode::from(3);
    };
    match put_all(&mut StdSink::new(rt.stdout()), text.as_slice()) {
        Ok(()) => ExitCode::from(0),
        Err(_) => ExitCode::from(5),
    }
}
