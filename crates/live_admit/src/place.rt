// The place of an image: its registry and its repository.
ghost use Rattle.std.specs.Prelude.{◌≡◌, IfOk};
ghost use Rattle.live_admit.specs.Covering.{covers, place_of};

use json_values::Text;
use oci_names::Reference;
use std::alloc::{AllocError, Global};

/// Returns the registry and the repository of a reference, with a slash between them.
pub(crate) fn place_of(alloc: Global, image: &Reference) -> Result<Text, AllocError>
    ensures { IfOk result (λ place. place ≡ place_of image.now) }
{
    let mut place = Text::new(alloc, image.registry())?;
    place.push_str("/")?;
    place.push_str(image.repository())?;
    Ok(place)
}

/// Returns whether these images have this place: it is theirs, or goes on from theirs after a slash.
pub(crate) fn covers(images: &str, place: &str) -> bool
    ensures { result ≡ covers images.now place.now }
{
    let (theirs, place) = (images.as_bytes(), place.as_bytes());
    place.starts_with(theirs) && (place.len() == theirs.len() || place[theirs.len()] == b'/')
}
