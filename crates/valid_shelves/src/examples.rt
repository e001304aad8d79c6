// Registries in memory, as contracts of functions that do nothing.
ghost use Rattle.std.specs.Prelude.{None, Some};
ghost use Rattle.oci_names.specs.declared.algorithm.Algorithm.TheVariants.{Sha256, Sha512};
ghost use Rattle.valid_shelves.specs.Examples.{IsSignedByReferrer, IsSignedByTag, linux_amd64};
ghost use Rattle.valid_shelves.specs.Texts.{image, index, to_image, to_image_by_sha512, to_index};

/// Shows a registry in memory with an image that has a signature under the tag of its digest.
pub fn an_image_signed_under_its_tag()
    ensures { IsSignedByTag }
{}

/// Shows a registry in memory with an image that a bundle refers to.
pub fn an_image_with_a_referrer()
    ensures { IsSignedByReferrer None Sha256 image to_image }
{}

/// Shows a registry in memory with an index that a bundle refers to, and its image for Linux on amd64.
pub fn an_index_with_a_referrer()
    ensures { IsSignedByReferrer (Some linux_amd64) Sha256 index to_index }
{}

/// Shows a registry in memory with an image that a bundle refers to by a SHA-512 digest.
pub fn an_image_by_sha512_with_a_referrer()
    ensures { IsSignedByReferrer None Sha512 image to_image_by_sha512 }
{}
