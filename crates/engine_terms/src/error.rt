// Why a call of the registry client was refused.
ghost use Rattle.std.specs.Prelude.{◌≡◌};
ghost use Rattle.engine_terms.specs.Error.{is_memory, name_of};

use crate::token_body::TokenBody;
use json_values::{Blob, Copied, Text, copy_all, row};
use oci_digests::DigestError;
use oci_errors::OciEnvelope;
use std::alloc::{AllocError, AllocFailed, Global};
use std::error::Error;
use std::fmt::{self, Display, Formatter};

/// What a request could not be built from, or a response could not be converted to.
#[derive(Clone, Copy, Debug, PartialEq, Eq)]
pub enum GenericCause {
    /// The configuration is not UTF-8.
    ConfigNotText,
    /// The user agent, an accepted type or a token is not a valid header value (RFC 9110, 5.5).
    HeaderText,
    /// Referrers were requested for a reference without a digest.
    NoDigest,
    /// A stream is pushed whole, but its size is not given.
    NoSize,
    /// The end of a range of bytes is beyond 2^64 - 1.
    RangeOverflow,
    /// A stream is pushed whole, but its size is not the given one.
    SizeDiffers,
}

/// How a response departs from the OCI distribution specification.
#[derive(Debug, Drop)]
pub enum SpecViolation {
    /// The tag under which the referrers of a digest are listed holds a manifest. Contains the tag.
    ReferrersTag(Text),
    /// A 2xx status other than the one that the request expects.
    Status { expected: u16, got: u16, url: Text },
}

/// Why a call of the registry client was refused. Bytes in a variant are those of the response or the document that was
/// refused, and a URL is that of its request.
#[derive(Debug, Drop)]
pub enum OciDistributionError {
    /// The document parses both as a manifest and as an index.
    AmbiguousManifest(Blob),
    /// The realm responded with a status other than 200, and with this body.
    AuthenticationFailure(TokenBody),
    /// The body has more bytes than the settings allow.
    BodyTooLong,
    /// The configuration does not parse as a configuration file.
    ConfigConversionError(Blob),
    /// A digest in a header, a reference or a descriptor is malformed, or does not name the body.
    DigestError(DigestError),
    GenericError(GenericCause),
    /// The response has the expected status, but its header `location` is not text.
    HeaderValueError(Blob),
    /// The document is an index, and the client has no resolver of platforms.
    ImageIndexParsingNoPlatformResolverError,
    /// The image was not found in the index: the resolver returned the digest of no entry, or of another index; either
    /// is contained here. If it returned `None`, the text is empty.
    ImageManifestNotFoundError(Text),
    /// The media type of a layer is not accepted.
    IncompatibleLayerMediaTypeError(Text),
    /// The body of a list is not JSON, contains a float, or does not match the list's table.
    JsonError(Blob),
    /// The body of a list is not UTF-8.
    ManifestEncodingError(Blob),
    /// The document parses neither as a manifest nor as an index.
    ManifestParsingError(Blob),
    /// The manifest has no layers.
    PullNoLayersError,
    /// Nothing was given to push.
    PushNoDataError,
    /// A status from 400 to 499 other than 401, with the registry's own list of errors.
    RegistryError { envelope: OciEnvelope, url: Text },
    /// The response has the expected status, but no header `location`.
    RegistryNoLocationError,
    /// The realm's response contains no token.
    RegistryTokenDecodeError(TokenBody),
    /// A 4xx or 5xx status without such a list.
    ServerError { code: u16, url: Text, message: Blob },
    /// The sink failed, and its fault count increased.
    SinkFault,
    /// The source of the pushed bytes failed, and its fault count increased.
    SourceFault,
    SpecViolationError(SpecViolation),
    /// A piece was requested from a stream that had returned an error before.
    StreamFailed,
    /// The transport failed, and its fault count increased.
    TransportFault,
    /// The status 401.
    UnauthorizedError { url: Text },
    UnsupportedMediaTypeError(Text),
    UnsupportedSchemaVersionError(i32),
    /// The text is not the URL of a request.
    UrlParseError(Text),
    /// The document does not parse as one with a schema version and a media type.
    VersionedParsingError(Blob),
    WantOfMemory,
}

impl OciDistributionError {
    /// Returns whether memory ran out.
    pub fn is_memory(&self) -> bool
        ensures { result ≡ is_memory self.now }
    {
        matches!(self, Self::WantOfMemory)
    }

    /// Returns the name of the variant.
    pub fn name(&self) -> &'static str
        ensures { result.now ≡ name_of self.now }
    {
        match self {
            Self::AmbiguousManifest(_) => "AmbiguousManifest",
            Self::AuthenticationFailure(_) => "AuthenticationFailure",
            Self::BodyTooLong => "BodyTooLong",
            Self::ConfigConversionError(_) => "ConfigConversionError",
            Self::DigestError(_) => "DigestError",
            Self::GenericError(_) => "GenericError",
            Self::HeaderValueError(_) => "HeaderValueError",
            Self::ImageIndexParsingNoPlatformResolverError => {
                "ImageIndexParsingNoPlatformResolverError"
            }
            Self::ImageManifestNotFoundError(_) => "ImageManifestNotFoundError",
            Self::IncompatibleLayerMediaTypeError(_) => "IncompatibleLayerMediaTypeError",
            Self::JsonError(_) => "JsonError",
            Self::ManifestEncodingError(_) => "ManifestEncodingError",
            Self::ManifestParsingError(_) => "ManifestParsingError",
            Self::PullNoLayersError => "PullNoLayersError",
            Self::PushNoDataError => "PushNoDataError",
            Self::RegistryError { .. } => "RegistryError",
            Self::RegistryNoLocationError => "RegistryNoLocationError",
            Self::RegistryTokenDecodeError(_) => "RegistryTokenDecodeError",
            Self::ServerError { .. } => "ServerError",
            Self::SinkFault => "SinkFault",
            Self::SourceFault => "SourceFault",
            Self::SpecViolationError(_) => "SpecViolationError",
            Self::StreamFailed => "StreamFailed",
            Self::TransportFault => "TransportFault",
            Self::UnauthorizedError { .. } => "UnauthorizedError",
            Self::UnsupportedMediaTypeError(_) => "UnsupportedMediaTypeError",
            Self::UnsupportedSchemaVersionError(_) => "UnsupportedSchemaVersionError",
            Self::UrlParseError(_) => "UrlParseError",
            Self::VersionedParsingError(_) => "VersionedParsingError",
            Self::WantOfMemory => "WantOfMemory",
        }
    }
}

// Copies an enum's value. Its variants are given as those with one value, those with named fields, and those without
// fields.
macro_rules! copied_variant {
    ($alloc:expr, $source:expr,
        { $($one:ident),* $(,)? },
        { $($named:ident { $($field:ident),* }),* $(,)? },
        { $($bare:ident),* $(,)? }) => {
        match $source {
            $(Self::$one(kept) => Ok(Self::$one(kept.copy($alloc)?)),)*
            $(Self::$named { $($field),* } => {
                let row![$($field),*] = copy_all($alloc, row![$($field),*])?;
                Ok(Self::$named { $($field),* })
            })*
            $(Self::$bare => Ok(Self::$bare),)*
        }
    };
}

impl Copied for GenericCause {
    fn copy(&self, _alloc: Global) -> Result<GenericCause, AllocError> {
        Ok(*self)
    }
}

impl Copied for SpecViolation {
    fn copy(&self, alloc: Global) -> Result<SpecViolation, AllocError> {
        match self {
            Self::ReferrersTag(tag) => Ok(Self::ReferrersTag(tag.copy(alloc)?)),
            Self::Status { expected, got, url } => {
                let url = url.copy(alloc)?;
                Ok(Self::Status {
                    expected: *expected,
                    got: *got,
                    url,
                })
            }
        }
    }
}

impl Copied for OciDistributionError {
    fn copy(&self, alloc: Global) -> Result<OciDistributionError, AllocError> {
        copied_variant!(alloc, self, {
            AmbiguousManifest,
            AuthenticationFailure,
            ConfigConversionError,
            DigestError,
            GenericError,
            HeaderValueError,
            ImageManifestNotFoundError,
            IncompatibleLayerMediaTypeError,
            JsonError,
            ManifestEncodingError,
            ManifestParsingError,
            RegistryTokenDecodeError,
            SpecViolationError,
            UnsupportedMediaTypeError,
            UnsupportedSchemaVersionError,
            UrlParseError,
            VersionedParsingError,
        }, {
            RegistryError { envelope, url },
            ServerError { code, url, message },
            UnauthorizedError { url },
        }, {
            BodyTooLong,
            ImageIndexParsingNoPlatformResolverError,
            PullNoLayersError,
            PushNoDataError,
            RegistryNoLocationError,
            SinkFault,
            SourceFault,
            StreamFailed,
            TransportFault,
            WantOfMemory,
        })
    }
}

impl Display for OciDistributionError {
    ghost use Rattle.std.specs.Prelude.{Some};

    ghost output = { λ e. Some (name_of e) };

    fn fmt<W: fmt::Write>(&self, f: &mut Formatter<W>) -> fmt::Result {
        let name = self.name();
        write!(f, "{name}")
    }
}

impl Error for OciDistributionError {}

impl From<AllocError> for OciDistributionError {
    ghost use Rattle.engine_terms.specs.declared.error.OciDistributionError.TheVariants.{WantOfMemory};

    ghost from_gives = { λ _ e. e ≡ WantOfMemory };

    fn from(_: AllocError) -> Self {
        OciDistributionError::WantOfMemory
    }
}

impl<T: Drop> From<AllocFailed<T>> for OciDistributionError {
    ghost use Rattle.engine_terms.specs.declared.error.OciDistributionError.TheVariants.{WantOfMemory};

    ghost from_gives = { λ _ e. e ≡ WantOfMemory };

    fn from(_: AllocFailed<T>) -> Self {
        OciDistributionError::WantOfMemory
    }
}
