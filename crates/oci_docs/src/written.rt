ghost use Rattle.std.specs.Prelude.{◌≡◌, IfOk};
ghost use Rattle.oci_docs.specs.Written.{manifest_text_of};

use crate::nfc::composed_text;
use json_values::{Blob, ToValue};
use oci_manifests::OciManifest;
use std::alloc::{AllocError, Global};

/// Returns the text that is pushed: without white space, names in the order of their bytes, names and strings in NFC
/// (Unicode Standard Annex 15). Of two names that are equal in NFC, the value of the one that is later in byte order
/// is kept.
pub fn manifest_text(alloc: Global, manifest: &OciManifest) -> Result<Blob, AllocError>
    ensures { IfOk result (λ text. text ≡ manifest_text_of manifest.now) }
{
    let value = manifest.to_value(alloc)?;
    let text = composed_text(alloc, &value)?;
    Ok(text)
}
