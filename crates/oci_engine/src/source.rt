// Sources of a client's configuration.
ghost use Rattle.std.specs.Prelude.{◌≡◌, IfOk};

use crate::config::ClientConfig;
use std::alloc::{AllocError, Global};

/// A source of a client's configuration.
pub trait ClientConfigSource {
    ghost use Rattle.oci_engine.specs.declared.config.ClientConfig.{ClientConfig};

    /// The configuration that it gives.
    ghost configured: { Self → ClientConfig };

    fn client_config(&self, alloc: Global) -> Result<ClientConfig, AllocError>
        ensures { IfOk result (λ config. config ≡ configured self.now) };
}
