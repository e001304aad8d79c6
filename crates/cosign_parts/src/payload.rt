//! The content of a payload layer.
ghost use Rattle.std.specs.Prelude.{◌≡◌, IfOk};
ghost use Rattle.serde_json.specs.View.{view};
ghost use Rattle.cosign_parts.specs.Payload.{content_of, payload_of};

use crate::layer::SimpleSigning;
use json_tables::{or_null, read_plain_json, text_at};
use json_values::Text;
use serde_json::Value;
use std::alloc::{AllocError, Global};

/// The media type of a simple signing payload.
pub const SIMPLE_SIGNING_TYPE: &'static str = "application/vnd.dev.cosign.simplesigning.v1+json";

const PAYLOAD_TYPE: &str = "cosign container image signature";

/// Parses a payload.
pub(crate) fn read_payload(
    alloc: Global,
    content: &[u8],
) -> Result<Option<SimpleSigning>, AllocError>
    ensures { IfOk result (λ found. found ≡ content_of content.now) }
{
    let Some(json) = read_plain_json(alloc, content)? else {
        return Ok(None);
    };
    let signing = payload_in(alloc, json.value())?;
    Ok(signing)
}

#[tactic(auto, unfolding(crate::specs::Payload::payload_of))]
fn payload_in(alloc: Global, value: &Value) -> Result<Option<SimpleSigning>, AllocError>
    ensures { IfOk result (λ found. found ≡ payload_of (view value.now)) }
{
    let Some(reference) = text_at(value, &["critical", "identity", "docker-reference"]) else {
        return Ok(None);
    };
    let Some(digest) = text_at(value, &["critical", "image", "docker-manifest-digest"]) else {
        return Ok(None);
    };
    let Some(kind) = text_at(value, &["critical", "type"]) else {
        return Ok(None);
    };
    if kind != PAYLOAD_TYPE {
        return Ok(None);
    }
    let docker_reference = Text::new(alloc, reference)?;
    let docker_manifest_digest = Text::new(alloc, digest)?;
    let optional = or_null(value.get("optional"))?;
    Ok(Some(SimpleSigning {
        docker_reference,
        docker_manifest_digest,
        optional,
    }))
}
