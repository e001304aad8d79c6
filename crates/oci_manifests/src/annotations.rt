//! Names of annotations (OCI image specification, annotations.md, "Pre-Defined Annotation Keys").
/// When the image was built (RFC 3339).
pub const ORG_OPENCONTAINERS_IMAGE_CREATED: &'static str = "org.opencontainers.image.created";

/// Who is responsible for the image.
pub const ORG_OPENCONTAINERS_IMAGE_AUTHORS: &'static str = "org.opencontainers.image.authors";

/// Where to find out more about the image.
pub const ORG_OPENCONTAINERS_IMAGE_URL: &'static str = "org.opencontainers.image.url";

/// Where its documentation is.
pub const ORG_OPENCONTAINERS_IMAGE_DOCUMENTATION: &'static str =
    "org.opencontainers.image.documentation";

/// Where its source code is.
pub const ORG_OPENCONTAINERS_IMAGE_SOURCE: &'static str = "org.opencontainers.image.source";

/// The version of the packaged software.
pub const ORG_OPENCONTAINERS_IMAGE_VERSION: &'static str = "org.opencontainers.image.version";

/// The revision of its source code.
pub const ORG_OPENCONTAINERS_IMAGE_REVISION: &'static str = "org.opencontainers.image.revision";

/// Who distributes the image.
pub const ORG_OPENCONTAINERS_IMAGE_VENDOR: &'static str = "org.opencontainers.image.vendor";

/// The licenses of its contents, as an SPDX expression.
pub const ORG_OPENCONTAINERS_IMAGE_LICENSES: &'static str = "org.opencontainers.image.licenses";

/// The name of a reference.
pub const ORG_OPENCONTAINERS_IMAGE_REF_NAME: &'static str = "org.opencontainers.image.ref.name";

/// A title for people.
pub const ORG_OPENCONTAINERS_IMAGE_TITLE: &'static str = "org.opencontainers.image.title";

/// What the software does, for people.
pub const ORG_OPENCONTAINERS_IMAGE_DESCRIPTION: &'static str =
    "org.opencontainers.image.description";

/// The digest of its base image.
pub const ORG_OPENCONTAINERS_IMAGE_BASE_DIGEST: &'static str =
    "org.opencontainers.image.base.digest";

/// The reference of its base image.
pub const ORG_OPENCONTAINERS_IMAGE_BASE_NAME: &'static str = "org.opencontainers.image.base.name";
