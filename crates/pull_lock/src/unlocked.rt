// The documents of an entry, back from its texts.
ghost use Rattle.std.specs.Prelude.{◌≡◌, IfOk, option_copied};
ghost use Rattle.cosign_chain.specs.Documents.{document_in};
ghost use Rattle.cosign_layers.specs.Satisfying.{policy_context};
ghost use Rattle.cosign_parts.specs.Trust.{trust};
ghost use Rattle.pull_lock.specs.Unlocked.{GivesDocuments, GivesLayer, Rebuilds, list_of, manifest_in, rebuilt_with};

use crate::checking::is_locked;
use crate::documents::document_of;
use crate::lock::LockEntry;
use crate::stands::{content_of, read_locked};
use cosign_chain::VerifiedDocuments;
use cosign_layers::PullPolicy;
use cosign_parts::{LogKeys, Offline, SignatureLayer, SignatureVerifier};
use json_values::{Blob, Copied, Text};
use oci_manifests::{OciImageManifest, OciManifest, ResolverPromise};
use std::alloc::{AllocError, Global};

// The manifest that the text is.
fn manifest_in(alloc: Global, text: &Text) -> Result<Option<OciImageManifest>, AllocError>
    ensures { IfOk result (λ manifest. manifest ≡ manifest_in (document_in text.now)) }
{
    match document_of(alloc, text)? {
        Some(OciManifest::Image(manifest)) => Ok(Some(manifest)),
        Some(OciManifest::ImageIndex(_)) => Ok(None),
        None => Ok(None),
    }
}

// The digest of the index that led to the manifest, if one did.
fn list_digest(alloc: Global, entry: &LockEntry) -> Result<Option<Text>, AllocError>
    ensures { IfOk result (λ list. list ≡ list_of entry.now.digest (document_in entry.now.first)) }
{
    match document_of(alloc, &entry.first)? {
        Some(OciManifest::ImageIndex(_)) => Ok(Some(entry.digest.copy(alloc)?)),
        Some(OciManifest::Image(_)) => Ok(None),
        None => Ok(None),
    }
}

// The layer that these bytes are, if they are one.
fn layer_by<V: SignatureVerifier, O: Offline>(
    alloc: Global,
    log_keys: &LogKeys,
    verifier: &V,
    judge: &O,
    entry: &LockEntry,
    content: &Blob,
) -> Result<Option<SignatureLayer>, AllocError>
    ensures { content.now ≡ entry.now.signature.content → IfOk result (GivesLayer
        (trust (V.valid verifier.now) (O.vouched judge.now) log_keys.now) entry.now) }
{
    match read_locked(alloc, log_keys, verifier, judge, entry, content) {
        Ok(layer) => Ok(Some(layer)),
        Err(rejection) => {
            if rejection.is_memory() {
                return Err(AllocError);
            }
            Ok(None)
        }
    }
}

fn layer_in<V: SignatureVerifier, O: Offline>(
    alloc: Global,
    log_keys: &LogKeys,
    verifier: &V,
    judge: &O,
    entry: &LockEntry,
) -> Result<Option<SignatureLayer>, AllocError>
    ensures { IfOk result (GivesLayer
        (trust (V.valid verifier.now) (O.vouched judge.now) log_keys.now) entry.now) }
{
    let content = content_of(alloc, &entry.signature)?;
    layer_by(alloc, log_keys, verifier, judge, entry, &content)
}

// The documents with this manifest and this layer.
fn rebuilt_with(
    alloc: Global,
    entry: &LockEntry,
    manifest: OciImageManifest,
    signature: SignatureLayer,
) -> Result<VerifiedDocuments, AllocError>
    ensures { IfOk result (λ documents. documents ≡ rebuilt_with entry.now manifest signature) }
{
    let digest = entry.digest.copy(alloc)?;
    let manifest_digest = entry.manifest_digest.copy(alloc)?;
    let first = Blob::new(alloc, entry.first.as_str().as_bytes())?;
    let manifest_bytes = Blob::new(alloc, entry.manifest.as_str().as_bytes())?;
    let list_digest = list_digest(alloc, entry)?;
    Ok(VerifiedDocuments {
        digest,
        first,
        manifest_bytes,
        manifest,
        manifest_digest,
        list_digest,
        signature,
    })
}

// The documents that the texts are.
fn rebuilt<V: SignatureVerifier, O: Offline>(
    alloc: Global,
    log_keys: &LogKeys,
    verifier: &V,
    judge: &O,
    entry: &LockEntry,
) -> Result<Option<VerifiedDocuments>, AllocError>
    ensures { IfOk result (Rebuilds
        (trust (V.valid verifier.now) (O.vouched judge.now) log_keys.now) entry.now) }
{
    let Some(manifest) = manifest_in(alloc, &entry.manifest)? else {
        return Ok(None);
    };
    let Some(signature) = layer_in(alloc, log_keys, verifier, judge, entry)? else {
        return Ok(None);
    };
    let documents = rebuilt_with(alloc, entry, manifest, signature)?;
    Ok(Some(documents))
}

/// Returns the documents of an entry, without a client and without requests, if the entry is locked under the policy, and
/// `None` if and only if it is not. The documents hold for the entry's reference, and the entry is theirs
/// (`lock_documents`), so that the blobs that their manifest names make an image with its chain. Returns an error if
/// memory runs out.
pub fn documents_of<V: SignatureVerifier, O: Offline>(
    alloc: Global,
    entry: &LockEntry,
    promise: Option<&ResolverPromise>,
    policy: &PullPolicy,
    log_keys: &LogKeys,
    verifier: &V,
    judge: &O,
) -> Result<Option<VerifiedDocuments>, AllocError>
    ensures { IfOk result (GivesDocuments (policy_context policy.now (λ b. accepts (b.vtable, b.value))
        (trust (V.valid verifier.now) (O.vouched judge.now) log_keys.now)) (option_copied promise.entry) entry.now) }
{
    let locked = is_locked(alloc, entry, promise, policy, log_keys, verifier, judge)?;
    if !locked {
        return Ok(None);
    }
    let documents = rebuilt(alloc, log_keys, verifier, judge, entry)?;
    Ok(documents)
}
