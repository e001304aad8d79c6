// Cached responses, each read as the result of its call.
ghost use Rattle.std.specs.Prelude.{◌≡◌, IfOk, OnOk, OnErr, Some};
ghost use Rattle.registry_cache.specs.Answers.{keep, entry};
ghost use Rattle.registry_cache.specs.Caching.{known};
ghost use Rattle.registry_cache.specs.KeptCalls.{digests, manifests, images, referrers};

use crate::answer::{Answer, Kind};
use crate::answers::{Answers, Entry};
use engine_rows::ImageData;
use json_values::{Blob, Copied, Text, copy_all, row};
use oci_manifests::{OciImageIndex, OciManifest};
use std::alloc::{AllocError, Global};

/// Returns the digest that is cached under this key and fresh at this moment.
pub fn known_digest(
    alloc: Global,
    answers: &Answers,
    key: &Blob,
    moment: u64,
) -> Result<Option<Text>, AllocError>
    ensures { IfOk result (λ answer. answer ≡ known digests key.now moment (Some answers.now)) }
{
    match answers.fresh(alloc, Kind::Digests, key.as_slice(), moment)? {
        Some(Answer::Digest(digest)) => Ok(Some(digest)),
        _ => Ok(None),
    }
}

/// Returns the document, with its digest, that is cached under this key and fresh at this moment.
pub fn known_manifest(
    alloc: Global,
    answers: &Answers,
    key: &Blob,
    moment: u64,
) -> Result<Option<(OciManifest, Text)>, AllocError>
    ensures { IfOk result (λ answer. answer ≡ known manifests key.now moment (Some answers.now)) }
{
    match answers.fresh(alloc, Kind::Manifests, key.as_slice(), moment)? {
        Some(Answer::Manifest(document, digest)) => Ok(Some((document, digest))),
        _ => Ok(None),
    }
}

/// Returns the image that is cached under this key and fresh at this moment.
pub fn known_image(
    alloc: Global,
    answers: &Answers,
    key: &Blob,
    moment: u64,
) -> Result<Option<ImageData>, AllocError>
    ensures { IfOk result (λ answer. answer ≡ known images key.now moment (Some answers.now)) }
{
    match answers.fresh(alloc, Kind::Images, key.as_slice(), moment)? {
        Some(Answer::Image(image)) => Ok(Some(image)),
        _ => Ok(None),
    }
}

/// Returns the list of referrers that is cached under this key and fresh at this moment.
pub fn known_referrers(
    alloc: Global,
    answers: &Answers,
    key: &Blob,
    moment: u64,
) -> Result<Option<OciImageIndex>, AllocError>
    ensures { IfOk result (λ answer. answer ≡ known referrers key.now moment (Some answers.now)) }
{
    match answers.fresh(alloc, Kind::Referrers, key.as_slice(), moment)? {
        Some(Answer::Referrers(index)) => Ok(Some(index)),
        _ => Ok(None),
    }
}

/// Caches a digest under this key, from this moment on.
pub fn keep_digest(
    alloc: Global,
    answers: &mut Answers,
    key: Blob,
    moment: u64,
    answer: &Text,
) -> Result<(), AllocError>
    ensures ok { OnOk result
        (answers.new ≡ keep (entry key moment (digests.kept_as answer.now)) answers.old) }
    ensures err { OnErr result (answers.new ≡ answers.old) }
{
    let digest = answer.copy(alloc)?;
    let answer = Answer::Digest(digest);
    answers.keep(
        alloc,
        Entry {
            key,
            moment,
            answer,
        },
    )
}

/// Caches a document with its digest under this key, from this moment on.
pub fn keep_manifest(
    alloc: Global,
    answers: &mut Answers,
    key: Blob,
    moment: u64,
    answer: &(OciManifest, Text),
) -> Result<(), AllocError>
    ensures ok { OnOk result
        (answers.new ≡ keep (entry key moment (manifests.kept_as answer.now)) answers.old) }
    ensures err { OnErr result (answers.new ≡ answers.old) }
{
    let row![document, digest] = copy_all(alloc, row![&answer.0, &answer.1])?;
    let answer = Answer::Manifest(document, digest);
    answers.keep(
        alloc,
        Entry {
            key,
            moment,
            answer,
        },
    )
}

/// Caches an image under this key, from this moment on.
pub fn keep_image(
    alloc: Global,
    answers: &mut Answers,
    key: Blob,
    moment: u64,
    answer: &ImageData,
) -> Result<(), AllocError>
    ensures ok { OnOk result
        (answers.new ≡ keep (entry key moment (images.kept_as answer.now)) answers.old) }
    ensures err { OnErr result (answers.new ≡ answers.old) }
{
    let image = answer.copy(alloc)?;
    let answer = Answer::Image(image);
    answers.keep(
        alloc,
        Entry {
            key,
            moment,
            answer,
        },
    )
}

/// Caches a list of referrers under this key, from this moment on.
pub fn keep_referrers(
    alloc: Global,
    answers: &mut Answers,
    key: Blob,
    moment: u64,
    answer: &OciImageIndex,
) -> Result<(), AllocError>
    ensures ok { OnOk result
        (answers.new ≡ keep (entry key moment (referrers.kept_as answer.now)) answers.old) }
    ensures err { OnErr result (answers.new ≡ answers.old) }
{
    let index = answer.copy(alloc)?;
    let answer = Answer::Referrers(index);
    answers.keep(
        alloc,
        Entry {
            key,
            moment,
            answer,
        },
    )
}
