// The containers of a Pod.
ghost use Rattle.std.specs.Prelude.{◌≡◌, ◌++◌, OnOk, option_map};
ghost use Rattle.serde_json.specs.View.{view};
ghost use Rattle.json_tables.specs.Outcomes.{ReadsTo};
ghost use Rattle.pod_reviews.specs.Asked.{images_of, some_or_absent, at_least_one};

use json_tables::{ReadError, Reads, read_row};
use json_values::{Copied, List, Text, row};
use serde_json::Value;
use std::alloc::{AllocError, Global};

/// A container of a Pod: its name, and the text of its image, which need not be a reference.
#[derive(Drop)]
pub struct ReviewImage {
    pub name: Text,
    pub image: Text,
}

impl Reads for ReviewImage {
    ghost use Rattle.pod_reviews.specs.Asked.{image_of};

    ghost reading = { image_of };

    #[tactic(auto, unfolding(crate::specs::Asked::image_of))]
    fn read_value(alloc: Global, value: &Value) -> Result<ReviewImage, ReadError> {
        let row![name, image]: (Text, (Text, ())) = read_row::<ReviewImage, _>(
            alloc,
            value,
            &["name", "image"],
        )?;
        Ok(ReviewImage { name, image })
    }
}

impl Copied for ReviewImage {
    fn copy(&self, alloc: Global) -> Result<ReviewImage, AllocError> {
        let name = self.name.copy(alloc)?;
        let image = self.image.copy(alloc)?;
        Ok(ReviewImage { name, image })
    }
}

/// Reads a list of containers that may be absent.
pub(crate) fn read_some(
    alloc: Global,
    member: Option<&Value>,
) -> Result<List<ReviewImage>, ReadError>
    ensures { ReadsTo result (some_or_absent (option_map (λ v. view v.now) member.entry)) }
{
    match member {
        None => Ok(List::new(alloc)),
        Some(value) => Reads::read_value(alloc, value),
    }
}

/// Reads a list of at least one container.
pub(crate) fn read_at_least_one(
    alloc: Global,
    member: Option<&Value>,
) -> Result<List<ReviewImage>, ReadError>
    ensures { ReadsTo result (at_least_one (option_map (λ v. view v.now) member.entry)) }
{
    let Some(value) = member else {
        return Err(ReadError::Shape);
    };
    let images: List<ReviewImage> = Reads::read_value(alloc, value)?;
    if images.as_slice().is_empty() {
        return Err(ReadError::Shape);
    }
    Ok(images)
}

fn append(
    alloc: Global,
    images: &mut List<ReviewImage>,
    more: &[ReviewImage],
) -> Result<(), AllocError>
    ensures { OnOk result (images.new ≡ images.old ++ more.now) }
{
    for image in more {
        images.push(image.copy(alloc)?)?;
    }
    Ok(())
}

/// Reads the containers in the specification of a Pod: those that run first, the main ones, and the ephemeral ones.
#[tactic(auto, unfolding(crate::specs::Asked::images_of))]
pub(crate) fn read_images(alloc: Global, spec: &Value) -> Result<List<ReviewImage>, ReadError>
    ensures { ReadsTo result (images_of (view spec.now)) }
{
    let first = read_some(alloc, spec.get("initContainers"))?;
    let main = read_at_least_one(alloc, spec.get("containers"))?;
    let later = read_some(alloc, spec.get("ephemeralContainers"))?;
    let mut images = first;
    append(alloc, &mut images, main.as_slice())?;
    append(alloc, &mut images, later.as_slice())?;
    Ok(images)
}
