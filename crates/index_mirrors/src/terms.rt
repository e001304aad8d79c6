// How the images of an index are pulled.
use cosign_layers::PullPolicy;
use cosign_parts::LogKeys;
use json_values::Text;
use oci_engine::ClientConfig;
use registry_cache::Auth;
use registry_calls::OciReference;

/// How the images of an index are pulled: from where, as whom, and under which policy.
#[derive(Drop)]
pub struct EntryTerms<'a, V, O> {
    /// The index, by its digest.
    pub index: OciReference,
    pub auth: Auth,
    /// The configuration of the clients. Each entry has a new one, whose platform resolver selects that entry.
    pub config: ClientConfig,
    /// In seconds since 1970, for the requests to both registries.
    pub moment: u64,
    /// The accepted media types of layers.
    pub accepted: &'a [Text],
    pub policy: &'a PullPolicy,
    pub log_keys: &'a LogKeys,
    pub verifier: &'a V,
    pub judge: &'a O,
}
