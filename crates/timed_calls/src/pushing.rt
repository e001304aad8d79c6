use crate::accepting::{Accepting, Given, chunk};
use json_values::{Blob, List};
use oci_auth::RegistryAuth;
use oci_engine::{Client, OciDistributionError};
use oci_manifests::ImageLayer;
use oci_manifests::blob::Config;
use oci_names::Reference;
use std::alloc::{AllocError, Global};
use std::env::{self, Env};

/// The number of MiB in a chunk.
const MIB: u64 = 4;

/// The digest under which the blob is pushed; it is not compared with the bytes.
const DIGEST: &str = "sha256:b94d27b9934d3e08a52e52d7da7dabfac484efe37a5380ee9088f7ace2efcde9";

#[derive(Clone, Copy)]
enum Way {
    Push,
    Copy,
    Layers,
    Tags,
}

/// What is timed, and how many: MiB, layers, or thousands of tags.
#[derive(Clone, Copy)]
pub struct Timed {
    way: Way,
    count: u64,
}

fn way_of(word: &str) -> Option<Way> {
    match word {
        "push" => Some(Way::Push),
        "copy" => Some(Way::Copy),
        "layers" => Some(Way::Layers),
        "tags" => Some(Way::Tags),
        _ => None,
    }
}

// The arguments, if they are of this form.
pub fn push_words<R: Env + Alloc>(rt: &R) -> Option<Timed> {
    let mut words = env::args(rt).ok()?.skip(1);
    let way = way_of(words.next()?.as_str())?;
    let count = words.next()?.as_str().parse::<u64>().ok()?;
    Some(Timed { way, count })
}

// Copies each chunk once, and drops it.
fn is_copied(alloc: Global, chunks: u64) -> Result<bool, AllocError> {
    for _ in 0..chunks {
        let chunk = chunk(alloc)?;
        let copy = Blob::new(alloc, chunk.as_slice())?;
        if copy.as_slice().is_empty() {
            return Ok(false);
        }
    }
    Ok(true)
}

fn image_named(alloc: Global) -> Result<Reference, OciDistributionError> {
    match Reference::parse(alloc, "localhost:5000/app:v1") {
        Ok(image) => Ok(image),
        Err(_) => Err(OciDistributionError::WantOfMemory),
    }
}

fn is_pushed(alloc: Global, chunks: u64) -> Result<bool, OciDistributionError> {
    let mut client = Client::default(alloc)?;
    let image = image_named(alloc)?;
    let mut given = Given { left: chunks };
    let mut registry = Accepting::new(0);
    client.push_blob_stream(alloc, &mut registry, 0, &image, &mut given, DIGEST, None)?;
    Ok(given.left == 0)
}

fn layers_of(alloc: Global, count: u64) -> Result<List<ImageLayer>, AllocError> {
    let mut layers = List::new(alloc);
    for _ in 0..count {
        let content = Blob::new(alloc, b"a layer")?;
        let layer = ImageLayer::oci_v1(alloc, content, None)?;
        layers.push(layer)?;
    }
    Ok(layers)
}

fn is_image_pushed(alloc: Global, count: u64) -> Result<bool, OciDistributionError> {
    let mut client = Client::default(alloc)?;
    let image = image_named(alloc)?;
    let layers = layers_of(alloc, count)?;
    let content = Blob::new(alloc, b"{}")?;
    let config = Config::oci_v1(alloc, content, None)?;
    let mut registry = Accepting::new(0);
    client.push(
        alloc,
        &mut registry,
        0,
        &image,
        layers.as_slice(),
        config,
        &RegistryAuth::Anonymous,
        None,
    )?;
    Ok(true)
}

// A list that has a tag is taken for the whole one.
fn is_listed(alloc: Global, thousands: u64) -> Result<bool, OciDistributionError> {
    let mut client = Client::default(alloc)?;
    let image = image_named(alloc)?;
    let mut registry = Accepting::new(thousands);
    let auth = RegistryAuth::Anonymous;
    let found = client.list_tags(alloc, &mut registry, 0, &image, &auth, None, None)?;
    Ok(!found.tags.as_slice().is_empty())
}

fn is_done(alloc: Global, timed: Timed) -> Result<bool, OciDistributionError> {
    match timed.way {
        Way::Push => is_pushed(alloc, timed.count / MIB),
        Way::Copy => Ok(is_copied(alloc, timed.count / MIB)?),
        Way::Layers => is_image_pushed(alloc, timed.count),
        Way::Tags => is_listed(alloc, timed.count),
    }
}

/// The status of the push, the copy or the list: 6 if memory ran out, and 1 for any other error.
pub fn pushed(alloc: Global, timed: Timed) -> u8 {
    match is_done(alloc, timed) {
        Ok(true) => 0,
        Ok(false) => 1,
        Err(error) => {
            if error.is_memory() {
                return 6;
            }
            1
        }
    }
}
