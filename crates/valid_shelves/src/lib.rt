//! Laws of registries in memory: from which of them a verified image can be pulled, and such ones down to their bytes.
#![tactic(auto)]

mod examples;
mod laws;

pub use examples::{
    an_image_by_sha512_with_a_referrer, an_image_signed_under_its_tag, an_image_with_a_referrer,
    an_index_with_a_referrer,
};
pub use laws::{referred_shelves_are_wide, small_shelves_are_valid, valid_shelves_are_wide};
