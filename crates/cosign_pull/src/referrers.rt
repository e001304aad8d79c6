//! The images that refer to a digest, as a source of signatures.
ghost use Rattle.std.specs.Prelude.{◌≡◌, [], ◌∷◌, Err, IfOk};
ghost use Rattle.oci_names.specs.Reference.{reads_back};
ghost use Rattle.engine_terms.specs.Contexts.{within};
ghost use Rattle.engine_terms.specs.declared.settings.Settings.{Settings};
ghost use Rattle.cosign_parts.specs.Trust.{trust_of};
ghost use Rattle.registry_calls.specs.Calls.{image_call};
ghost use Rattle.registry_calls.specs.Clients.{ClientMeets};
ghost use Rattle.json_values.specs.Refusals.{Matches};
ghost use Rattle.registry_calls.specs.Error.{is_memory};
ghost use Rattle.cosign_rows.specs.Part.{appended, bundles_part, skipping};
ghost use Rattle.cosign_rows.specs.Search.{bundle_type, or_skipped, referrer_part, referrer_by, referrer_row};
ghost use Rattle.cosign_rows.specs.Search.{referrers_row, referrers_source};
ghost use Rattle.cosign_rows.specs.declared.found.SkipCause.TheVariants.{Refused};
ghost use Rattle.cosign_rows.specs.declared.found.Skipped.TheVariants.{Source, Referrer};
ghost use Rattle.cosign_rows.specs.declared.found.SourceKind.TheVariants.{Referrers};
ghost use Rattle.cosign_pull.specs.Gathered.{gathered, put_behind};

use crate::bundles::add_bundles;
use cosign_parts::{BUNDLE_TYPE, Offline, SignatureVerifier, Trusted};
use cosign_rows::{Asked, Part, Referred, SkipCause, Skipped, SourceKind, digest_reference};
use engine_rows::ImageData;
use json_values::{List, Text};
use oci_manifests::ImageIndexEntry;
use oci_transport::Transport;
use registry_calls::{ClientCapabilities, SigstoreError};
use std::alloc::{AllocError, Global};

fn bundle_types(alloc: Global) -> Result<List<Text>, AllocError>
    ensures { IfOk result (λ types. types ≡ bundle_type ∷ []) }
{
    let mut types = List::new(alloc);
    types.push(Text::new(alloc, BUNDLE_TYPE)?)?;
    Ok(types)
}

fn pull_bundles<C: ClientCapabilities, T: Transport>(
    alloc: Global,
    client: &mut C,
    transport: &mut T,
    referrer: &Asked<'_>,
) -> Result<ImageData, SigstoreError>
    ensures { (s : Settings) → ClientMeets is_memory s
        (image_call (within s referrer.now.moment) referrer.now.image.now referrer.now.auth.now (bundle_type ∷ []))
        (C.state client.old) (C.state client.new) (T.state transport.old) (T.state transport.new) result }
{
    let types = bundle_types(alloc)?;
    client.pull(
        alloc,
        transport,
        referrer.moment,
        referrer.image,
        referrer.auth,
        types.as_slice(),
    )
}

// Appends one cause.
fn add_skipped(mut part: Part, cause: Skipped) -> Result<Part, AllocError>
    ensures { IfOk result (λ more. more ≡ appended part (skipping cause)) }
{
    part.skipped.push(cause)?;
    Ok(part)
}

// Appends the bundles of a referrer that was pulled.
fn add_pulled<V: SignatureVerifier, O: Offline>(
    alloc: Global,
    trusted: &Trusted<'_, V, O>,
    source: &str,
    image: &ImageData,
    part: Part,
) -> Result<Part, AllocError>
    ensures { IfOk result (λ more. more ≡ appended part
        (bundles_part (trust_of V.valid O.vouched trusted.now) source.now image.now.layers)) }
{
    let layers = image.layers.as_slice();
    add_bundles(alloc, trusted, source, layers, part)
}

// Appends that a referrer was not pulled, and why.
fn add_refused(
    alloc: Global,
    digest: &str,
    error: SigstoreError,
    part: Part,
) -> Result<Part, AllocError>
    ensures { IfOk result (λ more. more ≡ appended part (skipping (Referrer digest.now (Refused error)))) }
{
    let digest = Text::new(alloc, digest)?;
    add_skipped(part, Skipped::Referrer(digest, SkipCause::Refused(error)))
}

// Records a referrer that was not pulled as skipped, unless memory ran out.
fn skip_referrer(
    alloc: Global,
    digest: &str,
    error: SigstoreError,
    part: Part,
) -> Result<Part, SigstoreError>
    ensures { Matches is_memory result (put_behind part (or_skipped (Referrer digest.now) (Err error))) }
{
    if error.is_memory() {
        return Err(error);
    }
    let part = add_refused(alloc, digest, error, part)?;
    Ok(part)
}

// Appends the bundles of a referrer, or why it was not pulled.
fn add_referrer<V: SignatureVerifier, O: Offline>(
    alloc: Global,
    trusted: &Trusted<'_, V, O>,
    source: &str,
    digest: &str,
    image: Result<ImageData, SigstoreError>,
    part: Part,
) -> Result<Part, SigstoreError>
    ensures { Matches is_memory result (put_behind part (or_skipped (Referrer digest.now)
        (referrer_part (trust_of V.valid O.vouched trusted.now) source.now image))) }
{
    match image {
        Ok(image) => {
            let part = add_pulled(alloc, trusted, source, &image, part)?;
            Ok(part)
        }
        Err(error) => skip_referrer(alloc, digest, error, part),
    }
}

// Appends a referrer by its reference, if that round-trips.
fn referrer_by<C: ClientCapabilities, T: Transport, V: SignatureVerifier, O: Offline>(
    alloc: Global,
    client: &mut C,
    transport: &mut T,
    referrer: &Asked<'_>,
    referred: &Referred<'_, V, O>,
    digest: &str,
    part: Part,
) -> Result<Part, SigstoreError>
    ensures { (s : Settings) → ClientMeets is_memory s
        (gathered part (referrer_by (trust_of V.valid O.vouched referred.now.trusted.now) referred.now.digest.now
        (within s referrer.now.moment) referrer.now.image.now referrer.now.auth.now digest.now
        (reads_back referrer.now.image.now)))
        (C.state client.old) (C.state client.new) (T.state transport.old) (T.state transport.new) result }
{
    let reads_back = referrer.image.reads_back(alloc)?;
    if reads_back {
        let image = pull_bundles(alloc, client, transport, referrer);
        return add_referrer(
            alloc,
            referred.trusted,
            referred.digest,
            digest,
            image,
            part,
        );
    }
    let digest = Text::new(alloc, digest)?;
    let text = referrer.image.whole(alloc)?;
    let cause = Skipped::Referrer(digest, SkipCause::NotAReference(text));
    let part = add_skipped(part, cause)?;
    Ok(part)
}

// Appends a referrer by its digest, in the repository of the digest that it refers to.
fn referrer<C: ClientCapabilities, T: Transport, V: SignatureVerifier, O: Offline>(
    alloc: Global,
    client: &mut C,
    transport: &mut T,
    referred: &Referred<'_, V, O>,
    digest: &str,
    part: Part,
) -> Result<Part, SigstoreError>
    ensures { (s : Settings) → ClientMeets is_memory s
        (gathered part (referrer_row (trust_of V.valid O.vouched referred.now.trusted.now) referred.now.digest.now
        (within s referred.now.moment) referred.now.image.now referred.now.auth.now digest.now))
        (C.state client.old) (C.state client.new) (T.state transport.old) (T.state transport.new) result }
{
    let reference = digest_reference(alloc, referred.image, digest)?;
    let asked = Asked {
        moment: referred.moment,
        image: &reference,
        auth: referred.auth,
    };
    referrer_by(alloc, client, transport, &asked, referred, digest, part)
}

// Appends each referrer, in order.
fn each_referrer<C: ClientCapabilities, T: Transport, V: SignatureVerifier, O: Offline>(
    alloc: Global,
    client: &mut C,
    transport: &mut T,
    referred: &Referred<'_, V, O>,
    entries: &[ImageIndexEntry],
    mut part: Part,
) -> Result<Part, SigstoreError>
    ensures { (s : Settings) → ClientMeets is_memory s
        (gathered part (referrers_row (trust_of V.valid O.vouched referred.now.trusted.now) referred.now.digest.now
        (within s referred.now.moment) referred.now.image.now referred.now.auth.now entries.now))
        (C.state client.old) (C.state client.new) (T.state transport.old) (T.state transport.new) result }
{
    for entry in entries {
        part = referrer(
            alloc,
            client,
            transport,
            referred,
            entry.digest.as_str(),
            part,
        )?;
    }
    Ok(part)
}

// Records a refused listing as skipped.
fn skip_listing(part: Part, refused: SigstoreError) -> Result<Part, SigstoreError>
    ensures { Matches is_memory result (put_behind part (or_skipped (Source Referrers) (Err refused))) }
{
    if refused.is_memory() {
        return Err(refused);
    }
    let cause = Skipped::Source(SourceKind::Referrers, SkipCause::Refused(refused));
    let part = add_skipped(part, cause)?;
    Ok(part)
}

/// Appends the referrers of a digest as a source of signatures.
pub(crate) fn referrers_source<
    C: ClientCapabilities,
    T: Transport,
    V: SignatureVerifier,
    O: Offline,
>(
    alloc: Global,
    client: &mut C,
    transport: &mut T,
    referred: &Referred<'_, V, O>,
    part: Part,
) -> Result<Part, SigstoreError>
    ensures { (s : Settings) → ClientMeets is_memory s
        (gathered part (referrers_source (trust_of V.valid O.vouched referred.now.trusted.now) referred.now.digest.now
        (within s referred.now.moment) referred.now.image.now referred.now.auth.now))
        (C.state client.old) (C.state client.new) (T.state transport.old) (T.state transport.new) result }
{
    let listed = client.pull_referrers(
        alloc,
        transport,
        referred.moment,
        referred.image,
        referred.auth,
        None,
    );
    match listed {
        Ok(index) => {
            let entries = index.manifests.as_slice();
            each_referrer(alloc, client, transport, referred, entries, part)
        }
        Err(error) => skip_listing(part, error),
    }
}
