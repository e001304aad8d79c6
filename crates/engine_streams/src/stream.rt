// A stream of a blob's bytes.
ghost use Rattle.std.specs.Prelude.{◌≡◌, ◌≤◌, ◌<◌, ◌++◌, [], List, ℕ, length, Ok, Err, None, IfOk, IfErr, OnErr, ◌⊎◌};
ghost use Rattle.json_values.specs.Counts.{Increased};
ghost use Rattle.oci_transport.specs.Link.{Steady, Takes, AtMostOnePiece};
ghost use Rattle.json_values.specs.Refusals.{Matches};
ghost use Rattle.engine_terms.specs.Error.{is_memory};
ghost use Rattle.engine_streams.specs.Streams.{Hashed, compared, digests_of, opening_of, IsOpen, HasEnded};
ghost use Rattle.engine_streams.specs.Streams.{HasFailed, Next, GivesPrefix};

use crate::head::{Digests, Opening};
use engine_answers::{both_compared, digesters};
use engine_terms::OciDistributionError;
use json_values::{Blob, Text};
use oci_digests::Digesters;
use oci_transport::{LinkError, Transport};
use std::alloc::Global;

// What was returned so far, hashed for these digests.
#[derive(Drop)]
struct Check {
    digesters: Digesters,
    digests: Digests,
}

#[derive(Clone, Copy)]
enum Stage {
    Open,
    Ended,
    Failed,
}

/// The body of a blob's response, of which each `next` returns a piece. It holds no connection: pass `next` the
/// transport of the call that made the stream, and send nothing over it before the stream's end.
#[derive(Drop)]
pub struct SizedStream {
    /// The value of the header `content-length`, in bytes. `None` if it is not a decimal number below 2^64. Nothing is
    /// compared with it.
    pub content_length: Option<u64>,
    /// The digest that the header `docker-content-digest` names, if it names one.
    pub digest_header_value: Option<Text>,
    // How many more bytes may be received.
    left: u64,
    stage: Stage,
    // `None` if nothing is compared.
    check: Option<Check>,
}

fn check_of(digests: Option<Digests>) -> Option<Check>
    ensures digests { digests_of result ≡ digests }
    ensures hashed { Hashed result [] }
{
    let Some(digests) = digests else {
        return None;
    };
    Some(Check {
        digesters: digesters(&digests.given, &digests.own),
        digests,
    })
}

fn hash(check: &mut Option<Check>, piece: &[u8])
    ensures digests { digests_of check.new ≡ digests_of check.old }
    ensures hashed { (m : List ℕ) → Hashed check.old m → Hashed check.new (m ++ piece.now) }
{
    if let Some(check) = check {
        check.digesters.update(piece);
    }
}

fn compare(alloc: Global, check: &mut Option<Check>) -> Result<(), OciDistributionError>
    ensures digests { digests_of check.new ≡ digests_of check.old }
    ensures exact { (m : List ℕ) → Hashed check.old m → Matches is_memory result (compared (digests_of check.old) m) }
{
    if let Some(check) = check {
        let Digests { given, own } = &check.digests;
        both_compared(alloc, &mut check.digesters, given, own)?;
    }
    Ok(())
}

// Takes the next piece of the last response's body.
fn piece<T: Transport>(alloc: Global, transport: &mut T) -> Result<Blob, OciDistributionError>
    ensures told { (T.state transport.new).told ≡ (T.state transport.old).told }
    ensures steady { Steady (T.state transport.old) (T.state transport.new) }
    ensures count { (T.state transport.old).faults ≤ (T.state transport.new).faults }
    ensures taken { IfOk result (λ piece. Takes piece (T.state transport.old) (T.state transport.new)) }
    ensures once { AtMostOnePiece (T.state transport.old) (T.state transport.new) }
    ensures refused { IfErr result (λ e. (e ≡ OciDistributionError.WantOfMemory)
        ⊎ ((e ≡ OciDistributionError.TransportFault)
        × Increased (T.state transport.old).faults (T.state transport.new).faults)) }
{
    match transport.piece(alloc) {
        Ok(piece) => Ok(piece),
        Err(LinkError::Failed) => Err(OciDistributionError::TransportFault),
        Err(LinkError::WantOfMemory) => Err(OciDistributionError::WantOfMemory),
    }
}

impl SizedStream {
    // Returns a stream that returned nothing yet, and may return at most `limit` bytes.
    pub(crate) fn new(opening: Opening, limit: u64) -> SizedStream
        ensures opening { opening_of result ≡ opening }
        ensures fresh { IsOpen limit [] result }
    {
        let Opening {
            content_length,
            digest_header_value,
            digests,
        } = opening;
        SizedStream {
            content_length,
            digest_header_value,
            left: limit,
            stage: Stage::Open,
            check: check_of(digests),
        }
    }

    /// Returns the next piece of the body, `None` at its end. The end is only returned if nothing is left and each
    /// digest that is compared names the bytes that were returned.
    ///
    /// `VerificationError` at the end, if the header's digest, else the descriptor's, does not name the bytes;
    /// `BodyTooLong` if more bytes than the client's `max_body_bytes` were received; `TransportFault` if the
    /// transport's fault count increased; `StreamFailed` after a `next` that returned an error.
    pub fn next<T: Transport>(
        &mut self,
        alloc: Global,
        transport: &mut T,
    ) -> Result<Option<Blob>, OciDistributionError>
        ensures next { (limit : ℕ) (gave : List ℕ) → IsOpen limit gave self.old
            → Next limit gave self.new (T.state transport.old) (T.state transport.new) result }
        ensures piece { IfOk result (λ given. GivesPrefix given (T.state transport.old) (T.state transport.new)) }
        ensures ended { HasEnded self.old → (result ≡ Ok None) × HasEnded self.new
            × (T.state transport.new ≡ T.state transport.old) }
        ensures failed { HasFailed self.old → (result ≡ Err OciDistributionError.StreamFailed) × HasFailed self.new
            × (T.state transport.new ≡ T.state transport.old) }
        ensures once { AtMostOnePiece (T.state transport.old) (T.state transport.new) }
        ensures refused { OnErr result (HasFailed self.new) }
        ensures stays { opening_of self.new ≡ opening_of self.old }
        ensures told { (T.state transport.new).told ≡ (T.state transport.old).told }
        ensures steady { Steady (T.state transport.old) (T.state transport.new) }
        ensures count { (T.state transport.old).faults ≤ (T.state transport.new).faults }
    {
        match self.stage {
            Stage::Ended => return Ok(None),
            Stage::Failed => return Err(OciDistributionError::StreamFailed),
            Stage::Open => {}
        }
        // Stays `Failed` unless the piece turns out to be good.
        self.stage = Stage::Failed;
        let piece = piece(alloc, transport)?;
        let more = piece.as_slice().len() as u64;
        if more == 0 {
            compare(alloc, &mut self.check)?;
            self.stage = Stage::Ended;
            return Ok(None);
        }
        if self.left < more {
            return Err(OciDistributionError::BodyTooLong);
        }
        self.left -= more;
        hash(&mut self.check, piece.as_slice());
        self.stage = Stage::Open;
        Ok(Some(piece))
    }
}
