ghost use Rattle.std.specs.Prelude.{◌≡◌, IfOk};
ghost use Rattle.sig_services.specs.Configuration.{usual};

use json_values::{Copied, Text, copied};
use std::alloc::{AllocError, Global};

/// A user's name and password.
pub type BasicAuth = (Text, Option<Text>);

/// A key of Rekor's API.
#[derive(Drop)]
pub struct ApiKey {
    pub prefix: Option<Text>,
    pub key: Text,
}

/// The address of the log, and the settings of requests to it.
#[derive(Drop)]
pub struct Configuration {
    /// The URL before `/api/v1`.
    pub base_path: Text,
    /// The value of the header `user-agent`.
    pub user_agent: Option<Text>,
    /// Sent by no call.
    pub basic_auth: Option<BasicAuth>,
    /// Sent by no call.
    pub oauth_access_token: Option<Text>,
    /// Sent by no call.
    pub bearer_access_token: Option<Text>,
    /// Sent by no call.
    pub api_key: Option<ApiKey>,
    /// The greatest length of an answer's body in bytes.
    pub max_body_bytes: u64,
}

impl Configuration {
    /// Returns the public log, `https://rekor.sigstore.dev`, without credentials, and with bodies of less than 4 GiB.
    pub fn new(alloc: Global) -> Result<Configuration, AllocError>
        ensures { IfOk result (λ configuration. configuration ≡ usual) }
    {
        let base_path = Text::new(alloc, "https://rekor.sigstore.dev")?;
        let user_agent = Text::new(alloc, "sigstore-rs/0.15.0")?;
        Ok(Configuration {
            base_path,
            user_agent: Some(user_agent),
            basic_auth: None,
            oauth_access_token: None,
            bearer_access_token: None,
            api_key: None,
            max_body_bytes: 4294967295,
        })
    }
}

impl Copied for ApiKey {
    fn copy(&self, alloc: Global) -> Result<ApiKey, AllocError> {
        copied!(alloc, self, ApiKey { prefix, key })
    }
}

impl Copied for Configuration {
    fn copy(&self, alloc: Global) -> Result<Configuration, AllocError> {
        copied!(
            alloc,
            self,
            Configuration {
                base_path,
                user_agent,
                basic_auth,
                oauth_access_token,
                bearer_access_token,
                api_key,
                max_body_bytes
            }
        )
    }
}
