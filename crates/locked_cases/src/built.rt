// The image of a written chain.
ghost use Rattle.std.specs.Prelude.{◌≡◌, IfOk, IfErr};
ghost use Rattle.cosign_layers.specs.Read.{Gives, HasOneOutcome, RejectedUnlessMemory};
ghost use Rattle.cosign_parts.specs.Trust.{trust};
ghost use Rattle.locked_cases.specs.Built as words;
ghost use Rattle.locked_cases.specs.Built.{image_with, parts_of};

use crate::chain_input::{WrittenChain, WrittenEntry, WrittenSignature};
use cosign_chain::VerifiedImage;
use cosign_layers::{LayerRejection, read_bundle_layer, read_payload_layer};
use cosign_parts::{LayerKind, LogKeys, Offline, SignatureLayer, SignatureVerifier};
use engine_rows::{config_of, layer_of};
use json_tables::read_plain;
use json_values::{Blob, Copied, List, Text, copy_all, row};
use oci_digests::sha256_digest;
use oci_manifests::blob::Config;
use oci_manifests::{ImageLayer, OciDescriptor, OciImageManifest};
use std::alloc::{AllocError, Global};

// The document of the manifest: the entry's, or the first one if there is no entry.
fn manifest_bytes(chain: &WrittenChain) -> &Blob
    ensures { result.now ≡ words.manifest_bytes chain.now.entry chain.now.first }
{
    match &chain.entry {
        Some(entry) => &entry.content,
        None => &chain.first,
    }
}

// Its digest.
fn manifest_digest(chain: &WrittenChain) -> &Text
    ensures { result.now ≡ words.manifest_digest chain.now.entry chain.now.digest }
{
    match &chain.entry {
        Some(entry) => &entry.digest,
        None => &chain.digest,
    }
}

// The digest of the index that led to it, if one did.
fn list_digest(
    alloc: Global,
    entry: &Option<WrittenEntry>,
    digest: &Text,
) -> Result<Option<Text>, AllocError>
    ensures { IfOk result (λ listed. listed ≡ words.list_digest entry.now digest.now) }
{
    match entry {
        Some(_) => Ok(Some(digest.copy(alloc)?)),
        None => Ok(None),
    }
}

// A layer for each descriptor and its bytes.
fn layers_of(
    alloc: Global,
    descriptors: &[OciDescriptor],
    contents: &[Blob],
) -> Result<List<ImageLayer>, AllocError>
    ensures { IfOk result (λ layers. layers ≡ words.layers_of descriptors.now contents.now) }
{
    let mut layers = List::new(alloc);
    let mut others = contents.iter();
    for descriptor in descriptors {
        let Some(content) = others.next() else {
            return Ok(layers);
        };
        let content = content.copy(alloc)?;
        layers.push(layer_of(alloc, descriptor, content)?)?;
    }
    Ok(layers)
}

// The parts of an image except its manifest and its signature.
#[derive(Drop)]
struct Parts {
    digest: Text,
    first: Blob,
    manifest_bytes: Blob,
    manifest_digest: Text,
    list_digest: Option<Text>,
    config: Config,
    layers: List<ImageLayer>,
}

fn parts_of(
    alloc: Global,
    chain: &WrittenChain,
    manifest: &OciImageManifest,
) -> Result<Parts, AllocError>
    ensures { IfOk result (λ parts. parts ≡ parts_of chain.now manifest.now) }
{
    let list_digest = list_digest(alloc, &chain.entry, &chain.digest)?;
    let row![digest, first, manifest_bytes, manifest_digest, content] = copy_all(
        alloc,
        row![
            &chain.digest,
            &chain.first,
            manifest_bytes(chain),
            manifest_digest(chain),
            &chain.config
        ],
    )?;
    let config = config_of(alloc, manifest, content)?;
    let layers = layers_of(alloc, manifest.layers.as_slice(), chain.layers.as_slice())?;
    Ok(Parts {
        digest,
        first,
        manifest_bytes,
        manifest_digest,
        list_digest,
        config,
        layers,
    })
}

fn image_with(parts: Parts, manifest: OciImageManifest, signature: SignatureLayer) -> VerifiedImage
    ensures { result ≡ image_with parts manifest signature }
{
    VerifiedImage {
        digest: parts.digest,
        first: parts.first,
        manifest_bytes: parts.manifest_bytes,
        manifest,
        manifest_digest: parts.manifest_digest,
        list_digest: parts.list_digest,
        config: parts.config,
        layers: parts.layers,
        signature,
    }
}

// What the bytes and annotations of the signature layer say about this digest.
fn read_written<V: SignatureVerifier, O: Offline>(
    alloc: Global,
    log_keys: &LogKeys,
    verifier: &V,
    judge: &O,
    digest: &str,
    named: &str,
    written: &WrittenSignature,
) -> Result<SignatureLayer, LayerRejection>
    ensures gives { IfOk result (Gives
        (trust (V.valid verifier.now) (O.vouched judge.now) log_keys.now) digest.now
        (words.input_by named.now written.now)) }
    ensures rejects { IfErr result (RejectedUnlessMemory
        (trust (V.valid verifier.now) (O.vouched judge.now) log_keys.now) digest.now
        (words.input_by named.now written.now)) }
    ensures law { HasOneOutcome
        (trust (V.valid verifier.now) (O.vouched judge.now) log_keys.now) digest.now
        (words.input_by named.now written.now) }
{
    let (content, notes) = (&written.content, &written.annotations);
    match written.kind {
        LayerKind::Payload => {
            read_payload_layer(
                alloc, content, named, notes, digest, log_keys, verifier, judge,
            )
        }
        LayerKind::Bundle => {
            read_bundle_layer(
                alloc, content, named, notes, digest, log_keys, verifier, judge,
            )
        }
    }
}

// The same with the SHA-256 text of the bytes as their digest. `None` if a check fails.
fn signature_of<V: SignatureVerifier, O: Offline>(
    alloc: Global,
    log_keys: &LogKeys,
    verifier: &V,
    judge: &O,
    digest: &str,
    written: &WrittenSignature,
) -> Result<Option<SignatureLayer>, AllocError>
    ensures { IfOk result (words.GivesOne (trust (V.valid verifier.now) (O.vouched judge.now) log_keys.now)
        digest.now (words.input_of written.now)) }
{
    let named = sha256_digest(alloc, written.content.as_slice())?;
    match read_written(
        alloc,
        log_keys,
        verifier,
        judge,
        digest,
        named.as_str(),
        written,
    ) {
        Ok(signature) => Ok(Some(signature)),
        Err(rejection) => {
            if rejection.is_memory() {
                return Err(AllocError);
            }
            Ok(None)
        }
    }
}

/// Returns the image of a written chain; `None` if no image can be built from it.
pub fn image_of<V: SignatureVerifier, O: Offline>(
    alloc: Global,
    log_keys: &LogKeys,
    verifier: &V,
    judge: &O,
    chain: &WrittenChain,
) -> Result<Option<VerifiedImage>, AllocError>
    ensures { IfOk result (words.Builds (trust (V.valid verifier.now) (O.vouched judge.now) log_keys.now) chain.now) }
{
    let (digest, written) = (chain.digest.as_str(), &chain.signature);
    let Some(signature) = signature_of(alloc, log_keys, verifier, judge, digest, written)? else {
        return Ok(None);
    };
    let Some(manifest) = manifest_of(alloc, chain)? else {
        return Ok(None);
    };
    let parts = parts_of(alloc, chain, &manifest)?;
    Ok(Some(image_with(parts, manifest, signature)))
}

// The manifest, if its document parses as one that has a descriptor for each layer.
fn manifest_of(alloc: Global, chain: &WrittenChain) -> Result<Option<OciImageManifest>, AllocError>
    ensures { IfOk result (λ found. found ≡ words.manifest_in chain.now) }
{
    let bytes = manifest_bytes(chain);
    let Some(manifest) = read_plain::<OciImageManifest>(alloc, bytes.as_slice())? else {
        return Ok(None);
    };
    if manifest.layers.as_slice().len() != chain.layers.as_slice().len() {
        return Ok(None);
    }
    Ok(Some(manifest))
}
