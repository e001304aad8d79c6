//! Names of header fields (OCI distribution specification, "Pulling manifests").
/// The response header with the digest of the body.
pub const DOCKER_DIGEST_HEADER: &'static str = "Docker-Content-Digest";
