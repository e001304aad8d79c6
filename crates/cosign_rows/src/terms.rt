//! The arguments of a search and of a pull.
use cosign_layers::PullPolicy;
use cosign_parts::Trusted;
use json_values::Text;
use oci_auth::RegistryAuth;
use oci_names::Reference;

/// The image, the credentials, and the moment in seconds since 1970.
#[derive(Drop)]
pub struct Asked<'a> {
    pub moment: u64,
    pub image: &'a Reference,
    pub auth: &'a RegistryAuth,
}

/// The arguments of a referrers search: the digest, the reference by it, the call's arguments, and whom the reader of
/// the layers trusts.
#[derive(Drop)]
pub struct Referred<'a, V, O> {
    pub moment: u64,
    pub image: &'a Reference,
    pub auth: &'a RegistryAuth,
    pub digest: &'a str,
    pub trusted: &'a Trusted<'a, V, O>,
}

/// The terms of a pull: the media types of its layers, the policy, and whom the reader trusts.
#[derive(Drop)]
pub struct Terms<'a, V, O> {
    pub accepted: &'a [Text],
    pub policy: &'a PullPolicy,
    pub trusted: Trusted<'a, V, O>,
}
