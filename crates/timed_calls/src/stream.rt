use crate::pieces::{Pieces, piece};
use json_values::Text;
use oci_engine::{Client, OciDistributionError};
use oci_names::Reference;
use sha2::{Digest, Sha256};
use std::alloc::{AllocError, Global};
use std::env::{self, Env};

/// The number of pieces in a MiB.
const PIECES: u64 = 16;

#[derive(Clone, Copy)]
enum Way {
    Stream,
    Hash,
}

/// What is timed: the number of pieces, and their digest.
#[derive(Drop)]
pub struct Asked {
    way: Way,
    pieces: u64,
    digest: Text,
}

fn way_of(word: &str) -> Option<Way> {
    match word {
        "stream" => Some(Way::Stream),
        "hash" => Some(Way::Hash),
        _ => None,
    }
}

// The arguments, if they are of this form.
pub fn what_words_say<R: Env + Alloc>(rt: &R, alloc: Global) -> Option<Asked> {
    let mut words = env::args(rt).ok()?.skip(1);
    let way = way_of(words.next()?.as_str())?;
    let count = words.next()?.as_str().parse::<u64>().ok()?;
    let digest = Text::new(alloc, words.next()?.as_str()).ok()?;
    Some(Asked {
        way,
        pieces: count.checked_mul(PIECES)?,
        digest,
    })
}

// Whether the hash of the pieces is the digest's.
fn is_hashed(alloc: Global, asked: &Asked) -> Result<bool, AllocError> {
    let mut hasher = Sha256::new();
    for _ in 0..asked.pieces {
        let piece = piece(alloc)?;
        hasher.update(piece.as_slice());
    }
    let digits = hex::encode(alloc, &hasher.finalize())?;
    Ok(asked.digest.as_str().strip_prefix("sha256:") == Some(digits.as_str()))
}

fn is_streamed(alloc: Global, asked: &Asked) -> Result<bool, OciDistributionError> {
    let mut client = Client::default(alloc)?;
    let Ok(image) = Reference::parse(alloc, "localhost:5000/app:v1") else {
        return Err(OciDistributionError::WantOfMemory);
    };
    let mut pieces = Pieces { left: asked.pieces };
    let mut stream = client.pull_blob_stream(
        alloc,
        &mut pieces,
        0,
        &image,
        &asked.digest.as_str(),
    )?;
    for _ in 0..asked.pieces {
        if stream.next(alloc, &mut pieces)?.is_none() {
            return Ok(false);
        }
    }
    let last = stream.next(alloc, &mut pieces)?;
    Ok(last.is_none())
}

// 6 if memory ran out, and 1 for any other error.
fn streamed(alloc: Global, asked: &Asked) -> u8 {
    match is_streamed(alloc, asked) {
        Ok(true) => 0,
        Ok(false) => 1,
        Err(error) => {
            if error.is_memory() {
                return 6;
            }
            1
        }
    }
}

fn hashed(alloc: Global, asked: &Asked) -> u8 {
    match is_hashed(alloc, asked) {
        Ok(true) => 0,
        Ok(false) => 1,
        Err(_) => 6,
    }
}

/// The status that the blob is pulled, or the pieces are hashed, with.
pub fn timed(alloc: Global, asked: &Asked) -> u8 {
    match asked.way {
        Way::Stream => streamed(alloc, asked),
        Way::Hash => hashed(alloc, asked),
    }
}
