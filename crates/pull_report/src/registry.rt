// Prints of the errors of the registry's client.
use crate::printed::{Printed, print_row, word};
use engine_terms::{GenericCause, OciDistributionError, SpecViolation, TokenBody};
use json_values::{Blob, row};
use oci_digests::DigestError;
use registry_calls::SigstoreError;
use std::alloc::{AllocError, Global};

impl Printed for DigestError {
    ghost use Rattle.pull_report.specs.Prints.{digest_print};

    ghost print = { digest_print };

    fn write_print(&self, alloc: Global, out: &mut Blob) -> Result<(), AllocError> {
        match self {
            Self::InvalidHeader(header) => print_row(alloc, out, "InvalidHeader", row![header]),
            Self::UnsupportedAlgorithm(name) => {
                print_row(alloc, out, "UnsupportedAlgorithm", row![name])
            }
            Self::MissingAlgorithm => word(out, "MissingAlgorithm"),
            Self::VerificationError { expected, actual } => {
                print_row(alloc, out, "VerificationError", row![expected, actual])
            }
            Self::WantOfMemory => word(out, "WantOfMemory"),
        }
    }
}

impl Printed for GenericCause {
    ghost use Rattle.pull_report.specs.Prints.{cause_print};

    ghost print = { cause_print };

    fn write_print(&self, _alloc: Global, out: &mut Blob) -> Result<(), AllocError> {
        match self {
            Self::ConfigNotText => word(out, "ConfigNotText"),
            Self::HeaderText => word(out, "HeaderText"),
            Self::NoDigest => word(out, "NoDigest"),
            Self::NoSize => word(out, "NoSize"),
            Self::RangeOverflow => word(out, "RangeOverflow"),
            Self::SizeDiffers => word(out, "SizeDiffers"),
        }
    }
}

impl Printed for SpecViolation {
    ghost use Rattle.pull_report.specs.Prints.{violation_print};

    ghost print = { violation_print };

    fn write_print(&self, alloc: Global, out: &mut Blob) -> Result<(), AllocError> {
        match self {
            Self::ReferrersTag(tag) => print_row(alloc, out, "ReferrersTag", row![tag]),
            Self::Status { expected, got, url } => print_row(
                alloc,
                out,
                "Status",
                row![expected, got, url],
            ),
        }
    }
}

impl Printed for TokenBody {
    ghost use Rattle.pull_report.specs.Prints.{bytes_print};

    ghost print = { bytes_print };

    fn write_print(&self, alloc: Global, out: &mut Blob) -> Result<(), AllocError> {
        self.bytes().write_print(alloc, out)
    }
}

impl Printed for OciDistributionError {
    ghost use Rattle.pull_report.specs.Prints.{distribution_print};

    ghost print = { distribution_print };

    fn write_print(&self, alloc: Global, out: &mut Blob) -> Result<(), AllocError> {
        let name = self.name();
        match self {
            Self::AmbiguousManifest(bytes)
            | Self::ConfigConversionError(bytes)
            | Self::HeaderValueError(bytes)
            | Self::JsonError(bytes)
            | Self::ManifestEncodingError(bytes)
            | Self::ManifestParsingError(bytes)
            | Self::VersionedParsingError(bytes) => print_row(alloc, out, name, row![bytes]),
            Self::AuthenticationFailure(body) | Self::RegistryTokenDecodeError(body) => {
                print_row(alloc, out, name, row![body])
            }
            Self::DigestError(error) => print_row(alloc, out, name, row![error]),
            Self::GenericError(cause) => print_row(alloc, out, name, row![cause]),
            Self::ImageManifestNotFoundError(text)
            | Self::IncompatibleLayerMediaTypeError(text)
            | Self::UnauthorizedError { url: text }
            | Self::UnsupportedMediaTypeError(text)
            | Self::UrlParseError(text) => print_row(alloc, out, name, row![text]),
            Self::RegistryError { envelope, url } => {
                print_row(alloc, out, name, row![envelope, url])
            }
            Self::ServerError { code, url, message } => {
                print_row(alloc, out, name, row![code, url, message])
            }
            Self::SpecViolationError(violation) => print_row(alloc, out, name, row![violation]),
            Self::UnsupportedSchemaVersionError(version) => {
                print_row(alloc, out, name, row![version])
            }
            Self::BodyTooLong
            | Self::ImageIndexParsingNoPlatformResolverError
            | Self::PullNoLayersError
            | Self::PushNoDataError
            | Self::RegistryNoLocationError
            | Self::SinkFault
            | Self::SourceFault
            | Self::StreamFailed
            | Self::TransportFault
            | Self::WantOfMemory => word(out, name),
        }
    }
}

impl Printed for SigstoreError {
    ghost use Rattle.pull_report.specs.Prints.{sigstore_print};

    ghost print = { sigstore_print };

    fn write_print(&self, alloc: Global, out: &mut Blob) -> Result<(), AllocError> {
        match self {
            Self::OciReferenceNotValidError { reference } => {
                print_row(alloc, out, "OciReferenceNotValidError", row![reference])
            }
            Self::RegistryFetchManifestError { image, error } => {
                print_row(alloc, out, "RegistryFetchManifestError", row![image, error])
            }
            Self::RegistryPullError { image, error } => {
                print_row(alloc, out, "RegistryPullError", row![image, error])
            }
            Self::RegistryPullManifestError { image, error } => {
                print_row(alloc, out, "RegistryPullManifestError", row![image, error])
            }
            Self::RegistryPushError { image, error } => {
                print_row(alloc, out, "RegistryPushError", row![image, error])
            }
            Self::WantOfMemory => word(out, "WantOfMemory"),
        }
    }
}
