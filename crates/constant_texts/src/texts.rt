// What constants are, as contracts of functions that do nothing.
ghost use Rattle.constant_texts.specs.Defaults.{AddressesAre, ChunksAre, ClientDefaultsAre};
ghost use Rattle.constant_texts.specs.MediaTypes.{AcceptedAre, LayerTypesAre, MediaTypesAre};
ghost use Rattle.constant_texts.specs.Names.{AnnotationNamesAre, HeaderNamesAre, PlatformNamesAre};
ghost use Rattle.constant_texts.specs.Numbers.{KeyParametersAre, LimitsAre};

/// States the text of each media type.
pub fn media_types_are_these()
    ensures documents { MediaTypesAre }
    ensures layers { LayerTypesAre }
    ensures accepted { AcceptedAre }
{}

/// States the text of each name of a platform, a header field and an annotation.
pub fn names_are_these()
    ensures platforms { PlatformNamesAre }
    ensures headers { HeaderNamesAre }
    ensures annotations { AnnotationNamesAre }
{}

/// States the value of each limit, and of the parameters of encrypted private keys.
pub fn numbers_are_these()
    ensures limits { LimitsAre }
    ensures keys { KeyParametersAre }
{}

/// States the defaults of the registry client, the size of a chunk, and the addresses of Rekor and Fulcio.
pub fn defaults_are_these()
    ensures client { ClientDefaultsAre }
    ensures chunks { ChunksAre }
    ensures addresses { AddressesAre }
{}
