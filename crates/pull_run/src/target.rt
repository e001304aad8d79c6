// From a target to the client of its pushes.
ghost use Rattle.std.specs.Prelude.{◌≡◌, Ok, IsOk, IsErr, IfOk};
ghost use Rattle.oci_engine.specs.Clients.{default_config};
ghost use Rattle.oci_names.specs.Reference.{reference_of};
ghost use Rattle.registry_cache.specs.Auths.{registry_auth};
ghost use Rattle.registry_calls.specs.Direct.{reference_in};
ghost use Rattle.pull_run.specs.Targets.{OpensTarget};

use crate::mirror_input::Target;
use cosign_client::{Asked, ask_for};
use json_values::List;
use oci_engine::Client;
use oci_transport::Recorded;
use sig_registry::{Auth, OciReference};
use std::alloc::{AllocError, Global};

/// A target with a client that was built for it.
#[derive(Drop)]
pub struct OpenedTarget {
    /// It is new, with the protocol of the target; all other settings have their defaults.
    pub client: Client,
    pub image: OciReference,
    pub auth: Auth,
    /// The answers to the client's requests, in order.
    pub answers: List<Recorded>,
}

fn open_with(alloc: Global, asked: Asked, target: Target) -> OpenedTarget
    ensures { asked.usual ≡ default_config → registry_auth asked.auth ≡ target.auth
        → reference_of target.reference ≡ Ok (reference_in asked.image) → OpensTarget target result }
{
    let Asked { image, auth, usual } = asked;
    let mut config = usual;
    config.protocol = target.protocol;
    OpenedTarget {
        client: Client::new(alloc, config),
        image,
        auth,
        answers: target.answers,
    }
}

/// Builds the client of a target. Everything else is allocated that the first request needs. Returns an error if memory
/// runs out.
pub fn open_target(alloc: Global, target: Target) -> Result<OpenedTarget, AllocError>
    requires { IsOk (reference_of target.reference) }
    ensures { IfOk result (OpensTarget target) }
{
    match ask_for(alloc, target.reference.as_str(), &target.auth) {
        Ok(asked) => Ok(open_with(alloc, asked, target)),
        Err(_) => without_memory(target),
    }
}

fn without_memory(_target: Target) -> Result<OpenedTarget, AllocError>
    ensures { IsErr result }
{
    Err(AllocError)
}
