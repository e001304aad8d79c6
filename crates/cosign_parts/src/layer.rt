//! Signature layers (cosign's simple signing and bundle formats).
ghost use Rattle.std.specs.Prelude.{◌≡◌, IfOk};

use crate::certificate::CertificateSignature;
use crate::log_entry::LogEntryBundle;
use json_values::{Annotations, Blob, Copied, Json, Text, copied};
use std::alloc::{AllocError, Global};

/// The form of a signature layer.
#[derive(Clone, Copy, Debug, PartialEq, Eq)]
pub enum LayerKind {
    /// A simple signing payload, with its signature in the annotations.
    Payload,
    /// A Sigstore bundle.
    Bundle,
}

/// One signature that was found for an image.
#[derive(Drop)]
pub struct SignatureLayer {
    pub kind: LayerKind,
    pub content: Blob,
    /// The digest text of the content.
    pub oci_digest: Text,
    pub annotations: Annotations,
    /// The contents of a payload; `None` for a bundle.
    pub simple_signing: Option<SimpleSigning>,
    /// The signature in padded standard base64.
    pub signature: Text,
    pub certificate_signature: Option<CertificateSignature>,
    pub bundle: Option<LogEntryBundle>,
}

/// The contents of a simple signing payload.
#[derive(Drop)]
pub struct SimpleSigning {
    pub docker_reference: Text,
    /// The digest text of the image that was signed.
    pub docker_manifest_digest: Text,
    /// Null if the payload has none.
    pub optional: Json,
}

impl Copied for LayerKind {
    fn copy(&self, _alloc: Global) -> Result<LayerKind, AllocError> {
        Ok(*self)
    }
}

impl Copied for SignatureLayer {
    fn copy(&self, alloc: Global) -> Result<SignatureLayer, AllocError> {
        copied!(
            alloc,
            self,
            SignatureLayer {
                kind,
                content,
                oci_digest,
                annotations,
                simple_signing,
                signature,
                certificate_signature,
                bundle
            }
        )
    }
}

impl Copied for SimpleSigning {
    fn copy(&self, alloc: Global) -> Result<SimpleSigning, AllocError> {
        copied!(
            alloc,
            self,
            SimpleSigning {
                docker_reference,
                docker_manifest_digest,
                optional
            }
        )
    }
}
