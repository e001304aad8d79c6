// The images of a Pod, each with its place.
ghost use Rattle.std.specs.Prelude.{◌≡◌, ◌++◌, IfOk, OnOk, option_map};
ghost use Rattle.serde_json.specs.View.{view};
ghost use Rattle.json_tables.specs.Outcomes.{ReadsTo};
ghost use Rattle.pod_reviews.specs.Places.{containers_from, place_in, placed, pod_images, pod_images_of};
ghost use Rattle.pod_reviews.specs.Places.{volume_from, volume_image_of};
ghost use Rattle.pod_reviews.specs.Places.{volumes_from, volumes_or_absent};

use crate::images::{ReviewImage, read_at_least_one, read_some};
use json_tables::{ReadError, Reads, required};
use json_values::{Copied, List, Text, write_decimal};
use serde_json::Value;
use std::alloc::{AllocError, Global};

/// An image that a Pod asks for.
#[derive(Drop)]
pub struct PlacedImage {
    /// The name of its container or volume.
    pub name: Text,
    /// Its text, which need not be a reference.
    pub image: Text,
    /// The place of this text in the Pod's object, as a JSON Pointer (RFC 6901).
    pub place: Text,
}

// A volume of a Pod, with its image if it has one.
#[derive(Drop)]
struct Volume {
    image: Option<ReviewImage>,
}

#[tactic(auto, unfolding(crate::specs::Places::volume_image_of))]
fn read_volume_image(alloc: Global, image: &Value, value: &Value) -> Result<Volume, ReadError>
    ensures { ReadsTo result (volume_image_of (view image.now) (view value.now)) }
{
    let name = required(alloc, value, "name")?;
    let image = required(alloc, image, "reference")?;
    Ok(Volume {
        image: Some(ReviewImage { name, image }),
    })
}

impl Reads for Volume {
    ghost use Rattle.pod_reviews.specs.Places.{volume_of};

    ghost reading = { volume_of };

    #[tactic(auto, unfolding(crate::specs::Places::volume_of))]
    fn read_value(alloc: Global, value: &Value) -> Result<Volume, ReadError> {
        match value.get("image") {
            None => Ok(Volume { image: None }),
            Some(image) => read_volume_image(alloc, image, value),
        }
    }
}

// Volumes that may be absent.
fn read_volumes(alloc: Global, member: Option<&Value>) -> Result<List<Volume>, ReadError>
    ensures { ReadsTo result (volumes_or_absent (option_map (λ v. view v.now) member.entry)) }
{
    match member {
        None => Ok(List::new(alloc)),
        Some(value) => Reads::read_value(alloc, value),
    }
}

fn place_in(alloc: Global, list: &str, member: &str, index: usize) -> Result<Text, AllocError>
    ensures { IfOk result (λ place. place ≡ place_in list.now member.now index) }
{
    let mut place = Text::new(alloc, "/spec/")?;
    place.push_str(list)?;
    place.push_str("/")?;
    place.push_str(write_decimal(alloc, index as u64)?.as_str())?;
    place.push_str("/")?;
    place.push_str(member)?;
    Ok(place)
}

fn placed(
    alloc: Global,
    list: &str,
    member: &str,
    index: usize,
    image: &ReviewImage,
) -> Result<PlacedImage, AllocError>
    ensures { IfOk result (λ one. one ≡ placed list.now member.now index image.now) }
{
    let place = place_in(alloc, list, member, index)?;
    let name = image.name.copy(alloc)?;
    let image = image.image.copy(alloc)?;
    Ok(PlacedImage { name, image, place })
}

// Adds the images of the containers in a list.
fn push_containers(
    alloc: Global,
    images: &mut List<PlacedImage>,
    list: &str,
    containers: &[ReviewImage],
) -> Result<(), AllocError>
    ensures { OnOk result (images.new ≡ images.old ++ containers_from list.now 0 containers.now) }
{
    for (index, container) in containers.iter().enumerate() {
        images.push(placed(alloc, list, "image", index, container)?)?;
    }
    Ok(())
}

fn push_volume(
    alloc: Global,
    images: &mut List<PlacedImage>,
    index: usize,
    volume: &Volume,
) -> Result<(), AllocError>
    ensures { OnOk result (images.new ≡ images.old ++ volume_from index volume.now.image) }
{
    if let Some(image) = &volume.image {
        images.push(placed(alloc, "volumes", "image/reference", index, image)?)?;
    }
    Ok(())
}

// Adds the images of the volumes.
fn push_volumes(
    alloc: Global,
    images: &mut List<PlacedImage>,
    volumes: &[Volume],
) -> Result<(), AllocError>
    ensures { OnOk result (images.new ≡ images.old ++ volumes_from 0 volumes.now) }
{
    for (index, volume) in volumes.iter().enumerate() {
        push_volume(alloc, images, index, volume)?;
    }
    Ok(())
}

// The images in these lists, each with its place.
fn place_all(
    alloc: Global,
    first: &[ReviewImage],
    main: &[ReviewImage],
    later: &[ReviewImage],
    volumes: &[Volume],
) -> Result<List<PlacedImage>, AllocError>
    ensures { IfOk result (λ images. images ≡ pod_images first.now main.now later.now volumes.now) }
{
    let mut images = List::new(alloc);
    push_containers(alloc, &mut images, "initContainers", first)?;
    push_containers(alloc, &mut images, "containers", main)?;
    push_containers(alloc, &mut images, "ephemeralContainers", later)?;
    push_volumes(alloc, &mut images, volumes)?;
    Ok(images)
}

/// Reads the images in the specification of a Pod, each with its place: those of the containers that run first, of the
/// main ones, of the ephemeral ones, and of volumes.
#[tactic(auto, unfolding(crate::specs::Places::pod_images_of))]
pub(crate) fn read_pod_images(alloc: Global, spec: &Value) -> Result<List<PlacedImage>, ReadError>
    ensures { ReadsTo result (pod_images_of (view spec.now)) }
{
    let first = read_some(alloc, spec.get("initContainers"))?;
    let main = read_at_least_one(alloc, spec.get("containers"))?;
    let later = read_some(alloc, spec.get("ephemeralContainers"))?;
    let volumes = read_volumes(alloc, spec.get("volumes"))?;
    let images = place_all(
        alloc,
        first.as_slice(),
        main.as_slice(),
        later.as_slice(),
        volumes.as_slice(),
    )?;
    Ok(images)
}
