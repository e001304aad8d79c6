//! The search for the signatures of an image.
ghost use Rattle.std.specs.Prelude.{◌≡◌, [], ◌∷◌, IfOk, IsTrue};
ghost use Rattle.oci_names.specs.Reference.{reads_back};
ghost use Rattle.engine_terms.specs.Contexts.{within};
ghost use Rattle.engine_terms.specs.declared.settings.Settings.{Settings};
ghost use Rattle.cosign_parts.specs.Trust.{trust_of};
ghost use Rattle.json_values.specs.Refusals.{Matches};
ghost use Rattle.registry_calls.specs.Error.{is_memory};
ghost use Rattle.registry_calls.specs.Clients.{ClientMeets};
ghost use Rattle.registry_calls.specs.Named.{is_named, names_each};
ghost use Rattle.cosign_rows.specs.Search.{document_part, pulled_part, payload_type, or_skipped};
ghost use Rattle.cosign_rows.specs.Search.{searched, tag_by, tag_layers, tag_source};
ghost use Rattle.cosign_rows.specs.declared.found.Skipped.TheVariants.{Source};

use crate::part::{descriptors_part, skipping};
use crate::referrers::referrers_source;
use cosign_parts::{Offline, SignatureVerifier, Trusted};
use cosign_rows::{
    Asked, Part, Referred, SkipCause, Skipped, SourceKind, TrustedLayers, digest_reference,
    reading_back, tag_reference,
};
use engine_rows::ImageData;
use json_values::{List, Text};
use oci_manifests::{OciDescriptor, OciManifest};
use oci_transport::Transport;
use registry_calls::{ClientCapabilities, SigstoreError};
use std::alloc::{AllocError, Global};

/// The media type of the layers that cosign signs.
const SIMPLE_SIGNING_TYPE: &str = "application/vnd.dev.cosign.simplesigning.v1+json";

// The descriptors that the image's layers were pulled by.
fn pulled_by(image: &ImageData) -> &[OciDescriptor]
    requires { IsTrue (is_named image.now) }
    ensures { IsTrue (names_each result.now image.now.layers) }
{
    match &image.manifest {
        Some(manifest) => manifest.layers.as_slice(),
        None => unreachable!(),
    }
}

// The part of the document under the tag with its image's layers.
fn document_part<V: SignatureVerifier, O: Offline>(
    alloc: Global,
    trusted: &Trusted<'_, V, O>,
    digest: &str,
    document: &OciManifest,
    image: &ImageData,
) -> Result<Part, AllocError>
    requires { IsTrue (is_named image.now) }
    ensures { IfOk result (λ part. part ≡ document_part (trust_of V.valid O.vouched trusted.now)
        digest.now document.now image.now) }
{
    match document {
        OciManifest::Image(manifest) => {
            let descriptors = manifest.layers.as_slice();
            let layers = image.layers.as_slice();
            let own = pulled_by(image);
            let part = descriptors_part(alloc, trusted, digest, own, layers, descriptors)?;
            Ok(part)
        }
        OciManifest::ImageIndex(_) => {
            let cause = Skipped::Source(SourceKind::Tag, SkipCause::FoundIndex);
            let part = skipping(alloc, cause)?;
            Ok(part)
        }
    }
}

// The same, if the image was pulled.
fn pulled_part<V: SignatureVerifier, O: Offline>(
    alloc: Global,
    trusted: &Trusted<'_, V, O>,
    digest: &str,
    document: &OciManifest,
    image: Result<ImageData, SigstoreError>,
) -> Result<Part, SigstoreError>
    requires { IfOk image (λ image. IsTrue (is_named image)) }
    ensures { Matches is_memory result
        (pulled_part (trust_of V.valid O.vouched trusted.now) digest.now document.now image) }
{
    let image = image?;
    let part = document_part(alloc, trusted, digest, document, &image)?;
    Ok(part)
}

// The media type of the layers that cosign signs.
fn payload_types(alloc: Global) -> Result<List<Text>, AllocError>
    ensures { IfOk result (λ types. types ≡ payload_type ∷ []) }
{
    let mut types = List::new(alloc);
    types.push(Text::new(alloc, SIMPLE_SIGNING_TYPE)?)?;
    Ok(types)
}

// The manifest under the signature tag, and then the image that it is.
fn tag_layers<C: ClientCapabilities, T: Transport, V: SignatureVerifier, O: Offline>(
    alloc: Global,
    client: &mut C,
    transport: &mut T,
    tag: &Asked<'_>,
    trusted: &Trusted<'_, V, O>,
    digest: &str,
) -> Result<Part, SigstoreError>
    ensures { (s : Settings) → ClientMeets is_memory s (tag_layers (trust_of V.valid O.vouched trusted.now)
        digest.now (within s tag.now.moment) tag.now.image.now tag.now.auth.now)
        (C.state client.old) (C.state client.new) (T.state transport.old) (T.state transport.new) result }
{
    let types = payload_types(alloc)?;
    let document = client.pull_manifest(alloc, transport, tag.moment, tag.image, tag.auth)?;
    let image = client.pull(
        alloc,
        transport,
        tag.moment,
        tag.image,
        tag.auth,
        types.as_slice(),
    );
    pulled_part(alloc, trusted, digest, &document.0, image)
}

// A refused source is skipped.
fn or_skipped(
    alloc: Global,
    kind: SourceKind,
    part: Result<Part, SigstoreError>,
) -> Result<Part, SigstoreError>
    ensures { Matches is_memory result (or_skipped (Source kind) part) }
{
    match part {
        Ok(part) => Ok(part),
        Err(error) => {
            if error.is_memory() {
                return Err(error);
            }
            let cause = Skipped::Source(kind, SkipCause::Refused(error));
            let part = skipping(alloc, cause)?;
            Ok(part)
        }
    }
}

// The signature tag of a digest as a source, if its reference round-trips.
fn tag_by<C: ClientCapabilities, T: Transport, V: SignatureVerifier, O: Offline>(
    alloc: Global,
    client: &mut C,
    transport: &mut T,
    tag: &Asked<'_>,
    trusted: &Trusted<'_, V, O>,
    digest: &str,
) -> Result<Part, SigstoreError>
    ensures { (s : Settings) → ClientMeets is_memory s (tag_by (trust_of V.valid O.vouched trusted.now)
        digest.now (within s tag.now.moment) tag.now.image.now tag.now.auth.now (reads_back tag.now.image.now))
        (C.state client.old) (C.state client.new) (T.state transport.old) (T.state transport.new) result }
{
    let reads_back = tag.image.reads_back(alloc)?;
    if reads_back {
        let part = tag_layers(alloc, client, transport, tag, trusted, digest);
        return or_skipped(alloc, SourceKind::Tag, part);
    }
    let text = tag.image.whole(alloc)?;
    let cause = Skipped::Source(SourceKind::Tag, SkipCause::NotAReference(text));
    let part = skipping(alloc, cause)?;
    Ok(part)
}

// The signature tag of a digest as a source.
fn tag_source<C: ClientCapabilities, T: Transport, V: SignatureVerifier, O: Offline>(
    alloc: Global,
    client: &mut C,
    transport: &mut T,
    asked: &Asked<'_>,
    trusted: &Trusted<'_, V, O>,
    digest: &str,
) -> Result<Part, SigstoreError>
    ensures { (s : Settings) → ClientMeets is_memory s (tag_source (trust_of V.valid O.vouched trusted.now)
        (within s asked.now.moment) asked.now.image.now asked.now.auth.now digest.now)
        (C.state client.old) (C.state client.new) (T.state transport.old) (T.state transport.new) result }
{
    let tag = tag_reference(alloc, asked.image, digest)?;
    let of_tag = Asked {
        moment: asked.moment,
        image: &tag,
        auth: asked.auth,
    };
    tag_by(alloc, client, transport, &of_tag, trusted, digest)
}

/// Returns the digest of an image, and what the search for its signatures found.
pub fn search<C: ClientCapabilities, T: Transport, V: SignatureVerifier, O: Offline>(
    alloc: Global,
    client: &mut C,
    transport: &mut T,
    asked: &Asked<'_>,
    trusted: &Trusted<'_, V, O>,
) -> Result<TrustedLayers, SigstoreError>
    ensures { (s : Settings) → ClientMeets is_memory s (searched (trust_of V.valid O.vouched trusted.now)
        (within s asked.now.moment) asked.now.image.now asked.now.auth.now)
        (C.state client.old) (C.state client.new) (T.state transport.old) (T.state transport.new) result }
{
    let digest = client.fetch_manifest_digest(
        alloc,
        transport,
        asked.moment,
        asked.image,
        asked.auth,
    )?;
    let source = digest_reference(alloc, asked.image, digest.as_str())?;
    reading_back(alloc, &source)?;
    let tag = tag_source(alloc, client, transport, asked, trusted, digest.as_str())?;
    let referred = Referred {
        moment: asked.moment,
        image: &source,
        auth: asked.auth,
        digest: digest.as_str(),
        trusted,
    };
    let found = referrers_source(alloc, client, transport, &referred, tag)?;
    let Part { collected, skipped } = found;
    Ok(TrustedLayers {
        digest,
        collected,
        skipped,
    })
}
