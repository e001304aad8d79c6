//! Whether two signature layers with equal bytes and annotations have the same other fields, compared one by one.
ghost use Rattle.std.specs.Prelude.{◌≡◌};
ghost use Rattle.cosign_chain.specs.SameLayer.{same_certificate, same_entry, same_reading, same_signing, same_vouched};
ghost use Rattle.cosign_chain.specs.SameManifest.{same_option};

use crate::manifest_fields::same_text;
use crate::same::same_value;
use cosign_parts::{CertificateSignature, LogEntryBundle, SignatureLayer, SimpleSigning, Vouched};

pub(crate) fn same_reading(a: &SignatureLayer, b: &SignatureLayer) -> bool
    ensures { result ≡ same_reading a.now b.now }
{
    same_payload(&a.simple_signing, &b.simple_signing)
        && a.signature.as_str() == b.signature.as_str()
        && same_certificates(&a.certificate_signature, &b.certificate_signature)
        && same_entries(&a.bundle, &b.bundle)
}

fn same_payload(a: &Option<SimpleSigning>, b: &Option<SimpleSigning>) -> bool
    ensures { result ≡ same_option same_signing a.now b.now }
{
    match (a, b) {
        (Some(a), Some(b)) => same_signing(a, b),
        (None, None) => true,
        _ => false,
    }
}

fn same_signing(a: &SimpleSigning, b: &SimpleSigning) -> bool
    ensures { result ≡ same_signing a.now b.now }
{
    a.docker_reference.as_str() == b.docker_reference.as_str()
        && a.docker_manifest_digest.as_str() == b.docker_manifest_digest.as_str()
        && same_value(a.optional.value(), b.optional.value())
}

fn same_certificates(a: &Option<CertificateSignature>, b: &Option<CertificateSignature>) -> bool
    ensures { result ≡ same_option same_certificate a.now b.now }
{
    match (a, b) {
        (Some(a), Some(b)) => {
            a.certificate.as_slice() == b.certificate.as_slice()
                && same_vouched(&a.vouched, &b.vouched)
        }
        (None, None) => true,
        _ => false,
    }
}

fn same_vouched(a: &Vouched, b: &Vouched) -> bool
    ensures { result ≡ same_vouched a.now b.now }
{
    a.key.as_slice() == b.key.as_slice()
        && same_text(&a.email, &b.email)
        && same_text(&a.url, &b.url)
        && same_text(&a.issuer, &b.issuer)
}

fn same_entries(a: &Option<LogEntryBundle>, b: &Option<LogEntryBundle>) -> bool
    ensures { result ≡ same_option same_entry a.now b.now }
{
    match (a, b) {
        (Some(a), Some(b)) => same_entry(a, b),
        (None, None) => true,
        _ => false,
    }
}

fn same_entry(a: &LogEntryBundle, b: &LogEntryBundle) -> bool
    ensures { result ≡ same_entry a.now b.now }
{
    a.signed_entry_timestamp.as_slice() == b.signed_entry_timestamp.as_slice()
        && a.body.as_str() == b.body.as_str()
        && a.integrated_time == b.integrated_time
        && a.log_index == b.log_index
        && a.log_id.as_str() == b.log_id.as_str()
}
