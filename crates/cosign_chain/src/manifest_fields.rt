//! Whether two manifests are the same, compared field by field.
ghost use Rattle.std.specs.Prelude.{◌≡◌, bytes_eq};
ghost use Rattle.std.specs.Cmp.Lexicographic.{pointwise};
ghost use Rattle.cosign_chain.specs.SameManifest.{same_descriptor, same_manifest, same_option};

use crate::links::same_annotations;
use json_values::{List, Text};
use oci_manifests::{OciDescriptor, OciImageManifest};

/// Returns whether two manifests are the same, compared field by field.
pub fn same_manifest(a: &OciImageManifest, b: &OciImageManifest) -> bool
    ensures { result ≡ same_manifest a.now b.now }
{
    a.schema_version == b.schema_version
        && same_text(&a.media_type, &b.media_type)
        && same_descriptor(&a.config, &b.config)
        && same_descriptors(a.layers.as_slice(), b.layers.as_slice())
        && same_subject(&a.subject, &b.subject)
        && same_text(&a.artifact_type, &b.artifact_type)
        && same_annotations(&a.annotations, &b.annotations)
}

fn same_descriptor(a: &OciDescriptor, b: &OciDescriptor) -> bool
    ensures { result ≡ same_descriptor a.now b.now }
{
    a.media_type.as_str() == b.media_type.as_str()
        && a.digest.as_str() == b.digest.as_str()
        && a.size == b.size
        && same_texts(&a.urls, &b.urls)
        && same_annotations(&a.annotations, &b.annotations)
        && same_text(&a.artifact_type, &b.artifact_type)
}

fn same_descriptors(a: &[OciDescriptor], b: &[OciDescriptor]) -> bool
    ensures { result ≡ pointwise same_descriptor a.now b.now }
{
    let mut others = b.iter();
    for descriptor in a {
        let Some(other) = others.next() else {
            return false;
        };
        if !same_descriptor(descriptor, other) {
            return false;
        }
    }
    others.next().is_none()
}

fn same_subject(a: &Option<OciDescriptor>, b: &Option<OciDescriptor>) -> bool
    ensures { result ≡ same_option same_descriptor a.now b.now }
{
    match (a, b) {
        (Some(a), Some(b)) => same_descriptor(a, b),
        (None, None) => true,
        _ => false,
    }
}

pub(crate) fn same_text(a: &Option<Text>, b: &Option<Text>) -> bool
    ensures { result ≡ same_option bytes_eq a.now b.now }
{
    match (a, b) {
        (Some(a), Some(b)) => a.as_str() == b.as_str(),
        (None, None) => true,
        _ => false,
    }
}

fn same_texts(a: &Option<List<Text>>, b: &Option<List<Text>>) -> bool
    ensures { result ≡ same_option (pointwise bytes_eq) a.now b.now }
{
    match (a, b) {
        (Some(a), Some(b)) => a == b,
        (None, None) => true,
        _ => false,
    }
}
