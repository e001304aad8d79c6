//! The requested image and its credentials.
ghost use Rattle.std.specs.Prelude.{◌≡◌, Ok, IsOk, IfOk};
ghost use Rattle.oci_engine.specs.Clients.{default_config};
ghost use Rattle.oci_names.specs.Reference.{reference_of};
ghost use Rattle.registry_calls.specs.Direct.{reference_in};
ghost use Rattle.registry_cache.specs.Auths.{registry_auth};

use oci_auth::RegistryAuth;
use oci_engine::ClientConfig;
use sig_registry::{Auth, OciReference, SigstoreError};
use std::alloc::{AllocError, Global};

/// The requested image and its credentials, and a client's default configuration.
#[derive(Drop)]
pub struct Asked {
    pub image: OciReference,
    pub auth: Auth,
    pub usual: ClientConfig,
}

/// Allocates everything that a pull needs before the first request: after it nothing else can fail before that.
pub fn ask_for(alloc: Global, reference: &str, auth: &RegistryAuth) -> Result<Asked, AllocError>
    requires { IsOk (reference_of reference.now) }
    ensures image { IfOk result (λ made. reference_of reference.now ≡ Ok (reference_in made.image)) }
    ensures auth { IfOk result (λ made. registry_auth made.auth ≡ auth.now) }
    ensures usual { IfOk result (λ made. made.usual ≡ default_config) }
{
    Ok(Asked {
        image: image_in(alloc, reference)?,
        auth: Auth::from_registry(alloc, auth)?,
        usual: ClientConfig::default(alloc)?,
    })
}

/// Returns the reference that a text parses as.
pub fn image_in(alloc: Global, text: &str) -> Result<OciReference, AllocError>
    requires { IsOk (reference_of text.now) }
    ensures { IfOk result (λ image. reference_of text.now ≡ Ok (reference_in image)) }
{
    match OciReference::parse(alloc, text) {
        Ok(image) => Ok(image),
        Err(SigstoreError::WantOfMemory) => Err(AllocError),
        Err(_) => unreachable!(),
    }
}
