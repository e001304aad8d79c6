ghost use Rattle.std.specs.Prelude.{◌≡◌, IfOk, Some, false};
ghost use Rattle.serde_json.specs.View.{view};
ghost use Rattle.serde_json.specs.Written.{has_float, compact_text};
ghost use Rattle.oci_manifests.specs.Manifest.{manifest_written};
ghost use Rattle.timed_calls.specs.Ways.{PrintsJson, manifest_again};

use json_tables::read_plain;
use json_values::{Blob, ToValue, read_json};
use oci_docs::OciImageManifest;
use serde_json::Value;
use std::alloc::{AllocError, Global};

/// Returns the text of the JSON in the bytes; `None` if they are not JSON.
pub fn json_again(alloc: Global, bytes: &[u8]) -> Result<Option<Blob>, AllocError>
    ensures { IfOk result (λ found. PrintsJson bytes.now found) }
{
    let Some(json) = read_json(alloc, bytes)? else {
        return Ok(None);
    };
    let text = compact(alloc, json.value())?;
    Ok(Some(text))
}

/// Returns the text of the manifest in the bytes; `None` if they are not a manifest.
pub fn manifest_again(alloc: Global, bytes: &[u8]) -> Result<Option<Blob>, AllocError>
    ensures { IfOk result (λ found. found ≡ manifest_again bytes.now) }
{
    let found: Option<OciImageManifest> = read_plain(alloc, bytes)?;
    let Some(manifest) = found else {
        return Ok(None);
    };
    let text = written(alloc, &manifest)?;
    Ok(Some(text))
}

fn written(alloc: Global, manifest: &OciImageManifest) -> Result<Blob, AllocError>
    ensures { IfOk result (λ text. text ≡ compact_text (manifest_written manifest.now)) }
{
    let value = manifest.to_value(alloc)?;
    let text = compact(alloc, &value)?;
    Ok(text)
}

fn compact(alloc: Global, value: &Value) -> Result<Blob, AllocError>
    ensures { IfOk result (λ text. has_float (view value.now) ≡ false
        → text ≡ compact_text (view value.now)) }
{
    let text = value.to_string(alloc)?;
    let bytes = Blob::new(alloc, text.as_str().as_bytes())?;
    Ok(bytes)
}
