// The trust of a search without questions.

use cosign_parts::{Evidence, Offline, SignatureVerifier, Vouched};
use json_values::Blob;
use std::alloc::{AllocError, Global};

/// Accepts each signature, and takes each certificate as nobody's. The result of a search with it only determines the
/// questions to the host.
pub struct Everyone;

impl SignatureVerifier for Everyone {
    ghost use Rattle.live_host.specs.Everyone.{all_valid};

    ghost valid = { λ everyone. all_valid };

    fn verify(&self, _key: &Blob, _message: &[u8], _signature: &[u8]) -> Result<bool, AllocError> {
        Ok(true)
    }
}

impl Offline for Everyone {
    ghost use Rattle.live_host.specs.Everyone.{all_vouched};

    ghost vouched = { λ everyone. all_vouched };

    fn judge(&self, alloc: Global, _evidence: &Evidence) -> Result<Option<Vouched>, AllocError> {
        Ok(Some(Vouched {
            key: Blob::empty(alloc),
            email: None,
            url: None,
            issuer: None,
        }))
    }
}
