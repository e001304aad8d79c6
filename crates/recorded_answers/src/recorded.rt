// The recorded answers of the tests' registry.
ghost use Rattle.std.specs.Prelude.{IfOk};
ghost use Rattle.oci_transport.specs.Pieces.{NoneEmpty};

use json_values::{Blob, List};
use oci_transport::{HeaderError, Headers, Recorded, Script};
use std::alloc::{AllocError, Global};

pub const MANIFEST: &str =
    "{\"schemaVersion\":2,\"mediaType\":\"application/vnd.oci.image.manifest.v1+json\",\
        \"config\":{\"mediaType\":\"application/vnd.oci.image.config.v1+json\",\
        \"digest\":\"sha256:44136fa355b3678a1146ad16f7e8649e94fb4fc21fe77e8310c060f61caaff8a\",\"size\":2},\
        \"layers\":[{\"mediaType\":\"application/vnd.oci.image.layer.v1.tar\",\
        \"digest\":\"sha256:b94d27b9934d3e08a52e52d7da7dabfac484efe37a5380ee9088f7ace2efcde9\",\"size\":11}]}";

pub const MANIFEST_DIGEST: &str =
    "sha256:517b86da29754bfa57e312c35d4cf22caa38dbce39ecd24684830c1f9777a635";

pub const CONFIG_DIGEST: &str =
    "sha256:44136fa355b3678a1146ad16f7e8649e94fb4fc21fe77e8310c060f61caaff8a";

pub const LAYER_DIGEST: &str =
    "sha256:b94d27b9934d3e08a52e52d7da7dabfac484efe37a5380ee9088f7ace2efcde9";

pub const LAYER_TYPE: &str = "application/vnd.oci.image.layer.v1.tar";

// The body in one piece, if it is not empty.
fn pieces(alloc: Global, body: &str) -> Result<List<Blob>, AllocError>
    ensures { IfOk result (λ pieces. NoneEmpty pieces) }
{
    let mut pieces = List::new(alloc);
    if !body.is_empty() {
        pieces.push(Blob::new(alloc, body.as_bytes())?)?;
    }
    Ok(pieces)
}

// An answer with status 200 that names this digest.
fn answer(alloc: Global, digest: &str, body: &str) -> Result<Recorded, HeaderError> {
    let mut headers = Headers::new(alloc);
    headers.add("docker-content-digest", digest.as_bytes())?;
    let pieces = pieces(alloc, body)?;
    Ok(Recorded {
        fails: false,
        status: 200,
        headers,
        pieces,
        fails_before: None,
    })
}

/// Returns a script of these answers, each a digest and a body, in order.
pub fn script(alloc: Global, given: &[(&str, &str)]) -> Result<Script, HeaderError> {
    let mut answers = List::new(alloc);
    for (digest, body) in given {
        answers.push(answer(alloc, *digest, *body)?)?;
    }
    Ok(Script::new(alloc, answers))
}
