// A recorded registry, and streams that are opened over it.
ghost use Rattle.std.specs.Prelude.{IfOk};
ghost use Rattle.oci_transport.specs.Pieces.{NoneEmpty};

use engine_requests::LayerDescriptor;
use engine_streams::{
    BlobResponse, ByteRange, SizedStream, pull_blob_stream, pull_blob_stream_partial,
};
use engine_terms::{Call, ClientProtocol, OciDistributionError, Settings};
use json_values::{Blob, List, Text};
use oci_auth::AuthState;
use oci_names::Reference;
use oci_transport::{HeaderError, Headers, Recorded, Script};
use recorded_answers::LAYER_DIGEST;
use std::alloc::{AllocError, Global};

// Returns the pieces, without the empty ones.
fn pieces(alloc: Global, given: &[&str]) -> Result<List<Blob>, AllocError>
    ensures { IfOk result (λ pieces. NoneEmpty pieces) }
{
    let mut pieces = List::new(alloc);
    for piece in given {
        if !piece.is_empty() {
            pieces.push(Blob::new(alloc, piece.as_bytes())?)?;
        }
    }
    Ok(pieces)
}

/// Returns a registry that responds once, with this status, length and body, and fails before this many pieces of it.
pub fn registry(
    alloc: Global,
    status: u16,
    length: &str,
    body: &[&str],
    fails_before: Option<u64>,
) -> Result<Script, HeaderError> {
    let mut headers = Headers::new(alloc);
    headers.add("content-length", length.as_bytes())?;
    let pieces = pieces(alloc, body)?;
    let mut answers = List::new(alloc);
    answers.push(Recorded {
        fails: false,
        status,
        headers,
        pieces,
        fails_before,
    })?;
    Ok(Script::new(alloc, answers))
}

fn settings(alloc: Global, limit: u64) -> Result<Settings, AllocError> {
    let user_agent = Text::new(alloc, "tests")?;
    Ok(Settings {
        protocol: ClientProtocol::Http,
        user_agent,
        max_body_bytes: limit,
        use_monolithic_push: false,
        platform_resolver: None,
    })
}

/// Returns a stream of `hello world` with at most `limit` bytes.
pub fn whole(
    alloc: Global,
    script: &mut Script,
    limit: u64,
) -> Result<SizedStream, OciDistributionError> {
    let settings = settings(alloc, limit)?;
    let Ok(image) = Reference::parse(alloc, "localhost:5000/app:v1") else {
        return Err(OciDistributionError::WantOfMemory);
    };
    let call = Call {
        settings: &settings,
        image: &image,
        moment: 100,
    };
    let layer = LayerDescriptor {
        digest: LAYER_DIGEST,
        urls: None,
    };
    let mut memory = AuthState::new(alloc, 60);
    pull_blob_stream(alloc, script, &mut memory, &call, &layer)
}

/// Returns a stream of these bytes of it.
pub fn part(
    alloc: Global,
    script: &mut Script,
    range: ByteRange,
) -> Result<BlobResponse, OciDistributionError> {
    let settings = settings(alloc, 4096)?;
    let Ok(image) = Reference::parse(alloc, "localhost:5000/app:v1") else {
        return Err(OciDistributionError::WantOfMemory);
    };
    let call = Call {
        settings: &settings,
        image: &image,
        moment: 100,
    };
    let layer = LayerDescriptor {
        digest: LAYER_DIGEST,
        urls: None,
    };
    let mut memory = AuthState::new(alloc, 60);
    pull_blob_stream_partial(alloc, script, &mut memory, &call, &layer, range)
}

/// Whether the calls of `next` return this, in order: a piece, nothing at the end, or the name of the refusal.
pub fn says(alloc: Global, stream: &mut SizedStream, script: &mut Script, want: &[&str]) -> bool {
    for word in want {
        let said = match stream.next(alloc, script) {
            Ok(Some(piece)) => piece.as_slice() == word.as_bytes(),
            Ok(None) => word.is_empty(),
            Err(error) => error.name() == *word,
        };
        if !said {
            return false;
        }
    }
    true
}
