// From a case to the client and the terms of its pulls.
ghost use Rattle.std.specs.Prelude.{◌≡◌, Ok, IsErr, IfOk};
ghost use Rattle.oci_engine.specs.Clients.{default_config};
ghost use Rattle.oci_names.specs.Reference.{reference_of};
ghost use Rattle.registry_calls.specs.Direct.{reference_in};
ghost use Rattle.registry_cache.specs.Auths.{registry_auth};
ghost use Rattle.recorded_case.specs.Case.{IsReady};
ghost use Rattle.recorded_case.specs.Policy.{constraints_by};
ghost use Rattle.pulled_cases.specs.Opening.{Opens};

use cosign_client::{Asked, Client, WrittenClient, ask_for, client_by};
use cosign_layers::{Constraint, PullPolicy};
use cosign_parts::{TableJudge, TableVerifier};
use json_values::{List, Text};
use recorded_case::{Case, Registry};
use sig_registry::{Auth, OciReference};
use std::alloc::{AllocError, Global};

/// The arguments of each pull of a case, beside the moment: what is pulled, with which credentials, and under which
/// policy.
#[derive(Drop)]
pub struct Terms {
    pub image: OciReference,
    pub auth: Auth,
    /// The accepted media types of layers.
    pub accepted: List<Text>,
    pub policy: PullPolicy,
    /// The signatures that are valid.
    pub verifier: TableVerifier,
    /// What is vouched for certificates.
    pub judge: TableJudge,
}

/// A case with a client that was built for it, and the terms of its pulls.
#[derive(Drop)]
pub struct Opened {
    /// It is new, with the settings and the keys of logs of the case.
    pub client: Client,
    pub terms: Terms,
    /// What responds to the client's requests.
    pub registry: Registry,
    /// In seconds since 1970.
    pub moments: List<u64>,
}

fn open_with(alloc: Global, asked: Asked, constraints: List<Constraint>, case: Case) -> Opened
    ensures { asked.usual ≡ default_config → registry_auth asked.auth ≡ case.auth
        → reference_of case.reference ≡ Ok (reference_in asked.image)
        → constraints ≡ constraints_by case.constraints → Opens case result }
{
    let Asked { image, auth, usual } = asked;
    let written = WrittenClient {
        protocol: case.protocol,
        limit: case.limit,
        platform: case.platform,
        caching: case.caching,
        log_keys: case.log_keys,
    };
    Opened {
        client: client_by(alloc, usual, written),
        terms: Terms {
            image,
            auth,
            accepted: case.accepted,
            policy: PullPolicy {
                keys: case.keys,
                constraints,
            },
            verifier: TableVerifier {
                rows: case.signatures,
            },
            judge: case.vouched,
        },
        registry: case.registry,
        moments: case.moments,
    }
}

/// Builds the client of a case and the terms of its pulls, with these constraints, which are the case's
/// (`constraints_from`). Everything else is allocated that the first request needs. Returns an error if memory runs out.
pub fn open_case(
    alloc: Global,
    constraints: List<Constraint>,
    case: Case,
) -> Result<Opened, AllocError>
    requires ready { IsReady case }
    requires constraints { constraints ≡ constraints_by case.constraints }
    ensures { IfOk result (Opens case) }
{
    match ask_for(alloc, case.reference.as_str(), &case.auth) {
        Ok(asked) => Ok(open_with(alloc, asked, constraints, case)),
        Err(_) => without_memory(constraints, case),
    }
}

fn without_memory(_constraints: List<Constraint>, _case: Case) -> Result<Opened, AllocError>
    ensures { IsErr result }
{
    Err(AllocError)
}
