// What is the same for all calls of a client.
ghost use Rattle.std.specs.Prelude.{◌≡◌};
ghost use Rattle.engine_terms.specs.Settings.{is_listed, scheme_for};
ghost use Rattle.engine_terms.specs.declared.settings.ClientProtocol.TheVariants.{Https as https_alone};

use json_values::{Copied, List, Text, copied};
use oci_manifests::PlatformResolver;
use std::alloc::{AllocError, Global};

/// The scheme of a registry's URLs.
#[derive(Debug, Drop, PartialEq, Eq)]
pub enum ClientProtocol {
    Http,
    Https,
    /// `http` for these registries, `https` for all others.
    HttpsExcept(List<Text>),
}

/// The settings of a client's requests.
#[derive(Debug, Drop)]
pub struct Settings {
    pub protocol: ClientProtocol,
    /// The value of the header `user-agent`.
    pub user_agent: Text,
    /// The maximum size of one body, in bytes.
    pub max_body_bytes: u64,
    /// Whether a blob is pushed by one request instead of in chunks.
    pub use_monolithic_push: bool,
    /// Which entry of an index is selected. If `None`, an index is refused.
    pub platform_resolver: Option<PlatformResolver>,
}

fn is_listed(registries: &[Text], registry: &str) -> bool
    ensures { result ≡ is_listed registry.now registries.now }
{
    for listed in registries {
        if listed.as_str() == registry {
            return true;
        }
    }
    false
}

impl ClientProtocol {
    /// Returns `https` for all registries.
    pub fn default() -> ClientProtocol
        ensures { result ≡ https_alone }
    {
        ClientProtocol::Https
    }

    /// Returns `http` or `https`, for this registry.
    pub fn scheme_for(&self, registry: &str) -> &'static str
        ensures { result.now ≡ scheme_for self.now registry.now }
    {
        match self {
            ClientProtocol::Http => "http",
            ClientProtocol::Https => "https",
            ClientProtocol::HttpsExcept(registries) => {
                if is_listed(registries.as_slice(), registry) {
                    return "http";
                }
                "https"
            }
        }
    }
}

impl Copied for ClientProtocol {
    fn copy(&self, alloc: Global) -> Result<ClientProtocol, AllocError> {
        match self {
            ClientProtocol::Http => Ok(ClientProtocol::Http),
            ClientProtocol::Https => Ok(ClientProtocol::Https),
            ClientProtocol::HttpsExcept(registries) => {
                let registries = registries.copy(alloc)?;
                Ok(ClientProtocol::HttpsExcept(registries))
            }
        }
    }
}

impl Copied for Settings {
    fn copy(&self, alloc: Global) -> Result<Settings, AllocError> {
        copied!(
            alloc,
            self,
            Settings {
                protocol,
                user_agent,
                max_body_bytes,
                use_monolithic_push,
                platform_resolver
            }
        )
    }
}
