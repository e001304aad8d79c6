//! The result of a source of signatures.
ghost use Rattle.std.specs.Prelude.{◌≡◌, true, false, All, IfOk, IsTrue, map, option_copied};
ghost use Rattle.std.specs.List.{position};
ghost use Rattle.oci_digests.specs.Names.{Names, digest_text, prefix_of};
ghost use Rattle.registry_calls.specs.Named.{names_each};
ghost use Rattle.cosign_layers.specs.Checks.{input, layer_read};
ghost use Rattle.cosign_parts.specs.Trust.{trust_of};
ghost use Rattle.cosign_parts.specs.declared.layer.LayerKind.TheVariants as kinds;
ghost use Rattle.json_values.specs.Refusals.{Matches};
ghost use Rattle.cosign_layers.specs.Rejection.{is_memory};
ghost use Rattle.cosign_rows.specs.Part.{appended, descriptors_part, layer_part, named_layer, read_layer, skipping};
ghost use Rattle.cosign_pull.specs.Part.{Begins, BeginsOtherwise, Serves, ServesAll, Tell, is_among, layer_digests};
ghost use Rattle.cosign_rows.specs.declared.found.SourceKind.TheVariants.{Tag};

use cosign_layers::{LayerRejection, read_payload_layer};
use cosign_parts::{Offline, SignatureLayer, SignatureVerifier, Trusted};
use cosign_rows::{Part, Skipped, SourceKind};
use json_values::{Annotations, Copied, List, Text};
use oci_digests::{Algorithm, digest_text, digits_after};
use oci_manifests::{ImageLayer, OciDescriptor};
use std::alloc::{AllocError, Global};

/// Returns a part that is one cause.
pub(crate) fn skipping(alloc: Global, cause: Skipped) -> Result<Part, AllocError>
    ensures { IfOk result (λ part. part ≡ skipping cause) }
{
    let mut skipped = List::new(alloc);
    skipped.push(cause)?;
    Ok(Part {
        collected: List::new(alloc),
        skipped,
    })
}

/// Returns the parts of the descriptors under the signature tag for the image of this digest, in order. The layers were
/// pulled by descriptors of their own.
#[tactic(auto, using(cosign_rows::proofs::Descriptors::descriptors_rules))]
pub(crate) fn descriptors_part<V: SignatureVerifier, O: Offline>(
    alloc: Global,
    trusted: &Trusted<'_, V, O>,
    digest: &str,
    own: &[OciDescriptor],
    layers: &[ImageLayer],
    descriptors: &[OciDescriptor],
) -> Result<Part, AllocError>
    requires { IsTrue (names_each own.now layers.now) }
    ensures { IfOk result (λ part. part ≡ descriptors_part (trust_of V.valid O.vouched trusted.now)
        digest.now layers.now descriptors.now) }
{
    let digests = all_digests(alloc, own, layers, descriptors)?;
    let mut part = Part {
        collected: List::new(alloc),
        skipped: List::new(alloc),
    };
    for descriptor in descriptors {
        let named = named_layer(descriptor.digest.as_str(), digests.as_slice(), layers);
        part = add_descriptor(alloc, trusted, digest, descriptor, named, part)?;
    }
    Ok(part)
}

// The digest texts of each layer by each algorithm that is used, which determine for each descriptor which layer it
// names. A layer is not hashed by the algorithm of its own digest, and once by any other, however many descriptors
// there are.
fn all_digests(
    alloc: Global,
    own: &[OciDescriptor],
    layers: &[ImageLayer],
    descriptors: &[OciDescriptor],
) -> Result<List<List<Text>>, AllocError>
    requires { IsTrue (names_each own.now layers.now) }
    ensures { IfOk result (λ all. All (λ x. Tell all layers.now x.digest) descriptors.now) }
{
    let used = used_algorithms(alloc, descriptors)?;
    let all = used_digests(alloc, used.as_slice(), own, layers)?;
    Ok(all)
}

// The algorithms with which the digests of descriptors begin.
fn used_algorithms(
    alloc: Global,
    descriptors: &[OciDescriptor],
) -> Result<List<Algorithm>, AllocError>
    ensures { IfOk result (λ used. All (λ x. Serves used x.digest) descriptors.now) }
{
    let mut used = List::new(alloc);
    for algorithm in Algorithm::ALL.iter() {
        used = with_used(used, *algorithm, descriptors)?;
    }
    Ok(used)
}

// Adds the algorithm, if the digest of a descriptor begins with it.
#[tactic(auto, using(crate::proofs::LayerTexts::used_rules))]
fn with_used(
    mut used: List<Algorithm>,
    algorithm: Algorithm,
    descriptors: &[OciDescriptor],
) -> Result<List<Algorithm>, AllocError>
    ensures one { IfOk result (λ more. ServesAll more algorithm descriptors.now) }
    ensures others { IfOk result (λ more. (a : _) → ServesAll used a descriptors.now
        → ServesAll more a descriptors.now) }
{
    if is_used(algorithm, descriptors) {
        used.push(algorithm)?;
    }
    Ok(used)
}

// Whether the digest of a descriptor begins with this algorithm.
#[tactic(auto, using(crate::proofs::LayerTexts::none_begins))]
fn is_used(algorithm: Algorithm, descriptors: &[OciDescriptor]) -> bool
    ensures { result ≡ false → All (λ x. BeginsOtherwise (prefix_of algorithm) x.digest) descriptors.now }
{
    for descriptor in descriptors {
        if begins(algorithm, descriptor.digest.as_str()) {
            return true;
        }
    }
    false
}

fn begins(algorithm: Algorithm, digest: &str) -> bool
    ensures if_true { result ≡ true → Begins (prefix_of algorithm) digest.now }
    ensures if_false { result ≡ false → BeginsOtherwise (prefix_of algorithm) digest.now }
{
    match digits_after(algorithm, digest) {
        Some(_) => true,
        None => false,
    }
}

#[tactic(auto, using(crate::proofs::LayerTexts::digests_next, crate::proofs::LayerTexts::digests_end))]
fn used_digests(
    alloc: Global,
    used: &[Algorithm],
    own: &[OciDescriptor],
    layers: &[ImageLayer],
) -> Result<List<List<Text>>, AllocError>
    requires { IsTrue (names_each own.now layers.now) }
    ensures { IfOk result (λ all. all ≡ map (layer_digests used.now) layers.now) }
{
    let mut all = List::new(alloc);
    for (place, layer) in layers.iter().enumerate() {
        let digest = own[place].digest.as_str();
        all.push(layer_digests(alloc, used, digest, layer)?)?;
    }
    Ok(all)
}

// The digest texts of the layer that this digest names.
#[tactic(auto, using(crate::proofs::LayerTexts::digests_next, crate::proofs::LayerTexts::digests_end))]
fn layer_digests(
    alloc: Global,
    used: &[Algorithm],
    digest: &str,
    layer: &ImageLayer,
) -> Result<List<Text>, AllocError>
    requires { Names digest.now layer.now.content }
    ensures { IfOk result (λ own. own ≡ layer_digests used.now layer.now) }
{
    let mut own = List::new(alloc);
    for algorithm in used {
        own.push(layer_text(alloc, *algorithm, digest, layer)?)?;
    }
    Ok(own)
}

// The digest itself, if it is by this algorithm.
#[tactic(auto, using(oci_digests::proofs::SameBytes::own_text))]
fn layer_text(
    alloc: Global,
    algorithm: Algorithm,
    digest: &str,
    layer: &ImageLayer,
) -> Result<Text, AllocError>
    requires { Names digest.now layer.now.content }
    ensures { IfOk result (λ text. text ≡ digest_text algorithm layer.now.content) }
{
    if begins(algorithm, digest) {
        return Text::new(alloc, digest);
    }
    digest_text(alloc, algorithm, layer.content.as_slice())
}

// The first layer that the digest names, by the layers' digest texts.
#[tactic(auto, using(crate::proofs::LayerTexts::named_nowhere))]
fn named_layer<'a>(
    digest: &str,
    digests: &[List<Text>],
    layers: &'a [ImageLayer],
) -> Option<&'a ImageLayer>
    requires { Tell digests.now layers.now digest.now }
    ensures { option_copied result ≡ named_layer digest.now layers.now }
{
    let Some(place) = place_among(digest, digests) else {
        return None;
    };
    let Some(layer) = layers.get(place) else {
        return None;
    };
    Some(layer)
}

// The index of the first layer whose texts have the digest.
#[tactic(auto, using(cosign_rows::proofs::First::first_place, cosign_rows::proofs::First::no_place))]
fn place_among(digest: &str, digests: &[List<Text>]) -> Option<usize>
    ensures { result ≡ position (is_among digest.now) digests.now }
{
    for (place, own) in digests.iter().enumerate() {
        if is_among(own.as_slice(), digest) {
            return Some(place);
        }
    }
    None
}

fn is_among(own: &[Text], digest: &str) -> bool
    ensures { result ≡ is_among digest.now own.now }
{
    own.iter().any(|text| digest == text.as_str())
}

// Appends a descriptor's layer, or why there is none.
fn add_descriptor<V: SignatureVerifier, O: Offline>(
    alloc: Global,
    trusted: &Trusted<'_, V, O>,
    digest: &str,
    descriptor: &OciDescriptor,
    named: Option<&ImageLayer>,
    mut part: Part,
) -> Result<Part, AllocError>
    ensures { IfOk result (λ more. more ≡ appended part (layer_part Tag descriptor.now.digest
        (read_layer (trust_of V.valid O.vouched trusted.now) digest.now descriptor.now
        (option_copied named.entry)))) }
{
    match read_layer(alloc, trusted, digest, descriptor, named) {
        Ok(layer) => {
            part.collected.push(layer)?;
            Ok(part)
        }
        Err(cause) => {
            if cause.is_memory() {
                return Err(AllocError);
            }
            let digest = descriptor.digest.copy(alloc)?;
            part.skipped
                .push(Skipped::Layer(SourceKind::Tag, digest, cause))?;
            Ok(part)
        }
    }
}

// The signature layer of a pulled layer.
fn read_layer<V: SignatureVerifier, O: Offline>(
    alloc: Global,
    trusted: &Trusted<'_, V, O>,
    digest: &str,
    descriptor: &OciDescriptor,
    named: Option<&ImageLayer>,
) -> Result<SignatureLayer, LayerRejection>
    ensures { Matches is_memory result (read_layer (trust_of V.valid O.vouched trusted.now) digest.now
        descriptor.now (option_copied named.entry)) }
{
    let Some(layer) = named else {
        return Err(LayerRejection::LayerNotPulled);
    };
    match &descriptor.annotations {
        Some(annotations) => read_pulled(alloc, trusted, digest, descriptor, layer, annotations),
        None => {
            let annotations = Annotations::new(alloc);
            read_pulled(alloc, trusted, digest, descriptor, layer, &annotations)
        }
    }
}

fn read_pulled<V: SignatureVerifier, O: Offline>(
    alloc: Global,
    trusted: &Trusted<'_, V, O>,
    digest: &str,
    descriptor: &OciDescriptor,
    layer: &ImageLayer,
    annotations: &Annotations,
) -> Result<SignatureLayer, LayerRejection>
    ensures { Matches is_memory result (layer_read (trust_of V.valid O.vouched trusted.now) digest.now
        (input kinds.Payload layer.now.content descriptor.now.digest annotations.now)) }
{
    read_payload_layer(
        alloc,
        &layer.content,
        descriptor.digest.as_str(),
        annotations,
        digest,
        trusted.log_keys,
        trusted.verifier,
        trusted.judge,
    )
}
