// What a copy returns, and why it was refused.
ghost use Rattle.std.specs.Prelude.{◌≡◌, ◌++◌, OnOk};
ghost use Rattle.engine_terms.specs.Error.{is_memory};
ghost use Rattle.pull_mirror.specs.Errors.{IsRefusalOf, error_of, pull_print, push_print, target_print};

use cosign_chain::VerifiedImage;
use cosign_rows::PullRefusal;
use engine_terms::OciDistributionError;
use json_values::{Blob, List, Text};
use pull_report::Printed;
use std::alloc::{AllocError, Global};
use std::fmt;
use thiserror::Error;

/// What was pushed for an image.
#[derive(Drop)]
pub struct PushReport {
    /// The digest of each blob and document, in the order of the pushes.
    pub pushed: List<Text>,
    /// The URL that was returned for the document that was signed.
    pub manifest_url: Text,
}

/// Why an image was not pushed whole.
#[derive(Debug, Drop, Error)]
pub enum PushRefusal {
    /// The push of this digest was refused; those before it were made.
    #[error("a part of the image was not pushed: read the error of the registry's client")]
    Refused {
        digest: Text,
        error: OciDistributionError,
    },
    /// The allocator had no memory.
    #[error("out of memory: free some and try again")]
    WantOfMemory,
}

/// A copy of an image.
#[derive(Drop)]
pub struct MirrorReport {
    /// The image that was pulled, whose bytes were pushed.
    pub found: VerifiedImage,
    /// The digest of each blob and document, in the order of the pushes.
    pub pushed: List<Text>,
    /// The URL that the target returned for the document that was signed.
    pub manifest_url: Text,
}

/// Why an image was not copied.
#[derive(Drop, Error)]
pub enum MirrorError {
    /// The target's reference has a digest, has no tag, or does not round-trip. No request was sent.
    #[error("the target is malformed: write it as [domain/]path:tag, without a digest")]
    Target {
        reference: Text,
    },
    /// The image was not pulled, and nothing was sent to the target.
    #[error("the image was not pulled: read the error of the pull")]
    Pull(PullRefusal),
    /// The image was pulled, and the push of this digest was refused; those before it were made.
    #[error("a part of the image was not pushed: read the error of the registry's client")]
    Push {
        found: VerifiedImage,
        digest: Text,
        error: OciDistributionError,
    },
    /// The allocator had no memory.
    #[error("out of memory: free some and try again")]
    WantOfMemory,
}

impl From<AllocError> for PushRefusal {
    ghost use Rattle.std.specs.Prelude.{◌≡◌};
    ghost use Rattle.pull_mirror.specs.declared.refusals.PushRefusal.TheVariants.{WantOfMemory};

    ghost from_gives = { λ _ e. e ≡ WantOfMemory };

    fn from(_: AllocError) -> Self {
        PushRefusal::WantOfMemory
    }
}

impl From<AllocError> for MirrorError {
    ghost use Rattle.std.specs.Prelude.{◌≡◌};
    ghost use Rattle.pull_mirror.specs.declared.refusals.MirrorError.TheVariants.{WantOfMemory};

    ghost from_gives = { λ _ e. e ≡ WantOfMemory };

    fn from(_: AllocError) -> Self {
        MirrorError::WantOfMemory
    }
}

// The refusal of the push of this digest, unless memory ran out.
pub(crate) fn refusal_of(digest: Text, error: OciDistributionError) -> PushRefusal
    ensures shown { error_of result ≡ error }
    ensures refusal { IsRefusalOf digest result }
{
    if error.is_memory() {
        return PushRefusal::WantOfMemory;
    }
    PushRefusal::Refused { digest, error }
}

/// Prints the digest of the image that was pulled, not the image.
impl fmt::Debug for MirrorError {
    fn fmt<W: fmt::Write>(&self, f: &mut fmt::Formatter<W>) -> fmt::Result {
        match self {
            MirrorError::Target { reference } => f
                .debug_struct("Target")
                .field("reference", &reference.as_str())
                .finish(),
            MirrorError::Pull(refusal) => f.debug_tuple("Pull").field(refusal).finish(),
            MirrorError::Push {
                found,
                digest,
                error,
            } => f
                .debug_struct("Push")
                .field("found", &found.digest.as_str())
                .field("digest", &digest.as_str())
                .field("error", error)
                .finish(),
            MirrorError::WantOfMemory => f.write_str("WantOfMemory"),
        }
    }
}

pub(crate) fn word(out: &mut Blob, text: &str) -> Result<(), AllocError>
    ensures { OnOk result (out.new ≡ out.old ++ text.now) }
{
    out.append(text.as_bytes())
}

fn print_target(alloc: Global, out: &mut Blob, reference: &Text) -> Result<(), AllocError>
    ensures { OnOk result (out.new ≡ out.old ++ target_print reference.now) }
{
    word(out, "Target ")?;
    reference.write_print(alloc, out)?;
    Ok(())
}

fn print_pull(alloc: Global, out: &mut Blob, refusal: &PullRefusal) -> Result<(), AllocError>
    ensures { OnOk result (out.new ≡ out.old ++ pull_print refusal.now) }
{
    word(out, "Pull ")?;
    refusal.write_print(alloc, out)?;
    Ok(())
}

pub(crate) fn print_push(
    alloc: Global,
    out: &mut Blob,
    digest: &Text,
    error: &OciDistributionError,
) -> Result<(), AllocError>
    ensures { OnOk result (out.new ≡ out.old ++ push_print digest.now error.now) }
{
    word(out, "Push ")?;
    digest.write_print(alloc, out)?;
    word(out, " ")?;
    error.write_print(alloc, out)?;
    Ok(())
}

impl Printed for MirrorError {
    ghost use Rattle.pull_mirror.specs.Errors.{mirror_print};

    ghost print = { mirror_print };

    fn write_print(&self, alloc: Global, out: &mut Blob) -> Result<(), AllocError> {
        match self {
            MirrorError::Target { reference } => print_target(alloc, out, reference),
            MirrorError::Pull(refusal) => print_pull(alloc, out, refusal),
            MirrorError::Push { digest, error, .. } => print_push(alloc, out, digest, error),
            MirrorError::WantOfMemory => word(out, "WantOfMemory"),
        }
    }
}
