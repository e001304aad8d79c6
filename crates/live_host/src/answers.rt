// The host's answers, and the trust that they establish.
ghost use Rattle.std.specs.Prelude.{◌≡◌, Some, IfOk, option_map};
ghost use Rattle.std.specs.List.{list_any, find};
ghost use Rattle.live_host.specs.Answers.{calls_valid, is_valid_by, vouches, is_vouched_by, vouched_in};

use cosign_parts::{Evidence, Offline, SignatureVerifier, Vouched};
use json_values::{Blob, Copied, List};
use std::alloc::{AllocError, Global};

/// Whether a signature of a message is valid under a key.
#[derive(Drop)]
pub struct SignatureAnswer {
    pub key: Blob,
    pub message: Blob,
    pub signature: Blob,
    pub valid: bool,
}

/// What is vouched for a certificate at a time.
#[derive(Drop)]
pub struct CertificateAnswer {
    pub evidence: Evidence,
    pub vouched: Option<Vouched>,
}

/// A question, and the host's answer.
#[derive(Drop)]
pub enum HostAnswer {
    Signature(SignatureAnswer),
    Certificate(CertificateAnswer),
}

/// The host's answers, in order. As a verifier it accepts the signatures that the host called valid, and as a judge it
/// vouches for what the host vouched for.
#[derive(Drop)]
pub struct Answers {
    pub list: List<HostAnswer>,
}

impl SignatureVerifier for Answers {
    ghost use Rattle.live_host.specs.Answers.{valid_by};

    ghost valid = { valid_by };

    fn verify(&self, key: &Blob, message: &[u8], signature: &[u8]) -> Result<bool, AllocError> {
        let valid = is_valid_in(self.list.as_slice(), key.as_slice(), message, signature);
        Ok(valid)
    }
}

fn is_valid_in(answers: &[HostAnswer], key: &[u8], message: &[u8], signature: &[u8]) -> bool
    ensures { result ≡ list_any (is_valid_by key.now message.now signature.now) answers.now }
{
    answers
        .iter()
        .any(|answer| is_valid_by(answer, key, message, signature))
}

fn is_valid_by(answer: &HostAnswer, key: &[u8], message: &[u8], signature: &[u8]) -> bool
    ensures { result ≡ is_valid_by key.now message.now signature.now answer.now }
{
    match answer {
        HostAnswer::Signature(answer) => calls_valid(answer, key, message, signature),
        HostAnswer::Certificate(_) => false,
    }
}

fn calls_valid(answer: &SignatureAnswer, key: &[u8], message: &[u8], signature: &[u8]) -> bool
    ensures { result ≡ calls_valid key.now message.now signature.now answer.now }
{
    answer.valid
        && answer.key.as_slice() == key
        && answer.signature.as_slice() == signature
        && answer.message.as_slice() == message
}

impl Offline for Answers {
    ghost use Rattle.live_host.specs.Answers.{vouched_by};

    ghost vouched = { vouched_by };

    fn judge(&self, alloc: Global, evidence: &Evidence) -> Result<Option<Vouched>, AllocError> {
        match find_vouched(self.list.as_slice(), evidence) {
            Some(answer) => vouched_in(alloc, answer),
            None => Ok(None),
        }
    }
}

// The first answer that vouches for the certificate at the time.
fn find_vouched<'a>(answers: &'a [HostAnswer], evidence: &Evidence) -> Option<&'a HostAnswer>
    ensures { option_map (λ answer. answer.now) result ≡ find (is_vouched_by evidence.now) answers.now }
{
    answers
        .iter()
        .find(|answer| is_vouched_by(answer, evidence))
}

fn is_vouched_by(answer: &HostAnswer, evidence: &Evidence) -> bool
    ensures { result ≡ is_vouched_by evidence.now answer.now }
{
    match answer {
        HostAnswer::Certificate(answer) => vouches(answer, evidence),
        HostAnswer::Signature(_) => false,
    }
}

fn vouches(answer: &CertificateAnswer, evidence: &Evidence) -> bool
    ensures { result ≡ vouches evidence.now answer.now }
{
    answer.evidence.certificate.as_slice() == evidence.certificate.as_slice()
        && answer.evidence.integrated_time == evidence.integrated_time
        && answer.vouched.is_some()
}

fn vouched_in(alloc: Global, answer: &HostAnswer) -> Result<Option<Vouched>, AllocError>
    ensures { IfOk result (λ found. found ≡ vouched_in (Some answer.now)) }
{
    let HostAnswer::Certificate(answer) = answer else {
        return Ok(None);
    };
    answer.vouched.copy(alloc)
}
