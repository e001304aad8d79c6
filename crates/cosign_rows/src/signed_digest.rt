//! A digest with the layer that stands for it.
use cosign_parts::SignatureLayer;
use json_values::Text;

/// A digest, and the signature layer that stands for it.
#[derive(Drop)]
pub struct SignedDigest {
    pub digest: Text,
    pub signature: SignatureLayer,
}
