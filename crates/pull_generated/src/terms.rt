// The terms that the generated image is pulled by.
ghost use Rattle.std.specs.Prelude.{◌≡◌, [], ◌∷◌, Some, None, IfOk, codes};
ghost use Rattle.std.specs.FinMap as map;
ghost use Rattle.cosign_client.specs.State.{client_state};
ghost use Rattle.registry_calls.specs.Direct.{reference_in};
ghost use Rattle.pull_generated.specs.Terms.{generated_settings, fresh, generated_reference};
ghost use Rattle.pull_generated.specs.Terms.{generated_types, any_layer, signed_row};

use crate::payload_digest;
use cosign_client::Client;
use cosign_layers::{AnnotationVerifier, Constraint, PullPolicy};
use cosign_parts::{SignedRow, TableVerifier};
use json_values::{Annotations, Blob, List, Text, TextMap};
use oci_engine::{ClientConfig, ClientProtocol};
use sig_registry::{OciClient, OciReference, RegistryClient};
use std::alloc::{AllocError, Global};

// One key, and one constraint, which accepts each layer.
fn policy(alloc: Global) -> Result<PullPolicy, AllocError>
    ensures keys { IfOk result (λ policy. policy.keys ≡ codes "k1" ∷ []) }
    ensures constraints { IfOk result (λ policy. policy.constraints ≡ any_layer ∷ []) }
{
    let mut keys = List::new(alloc);
    keys.push(Blob::new(alloc, "k1".as_bytes())?)?;
    let mut constraints = List::new(alloc);
    let annotations = Annotations::new(alloc);
    constraints.push(Constraint::Annotations(AnnotationVerifier { annotations }))?;
    Ok(PullPolicy { keys, constraints })
}

// The signature of the payload.
fn signed_row(alloc: Global, layers: u32) -> Result<SignedRow, AllocError>
    ensures { IfOk result (λ row. row ≡ signed_row layers) }
{
    let message = payload_digest(alloc, layers)?;
    let key = Blob::new(alloc, "k1".as_bytes())?;
    let signature = Blob::new(alloc, "sig1".as_bytes())?;
    Ok(SignedRow {
        key,
        message,
        signature,
    })
}

// `localhost:5000/gen:v1`
fn image(alloc: Global) -> Result<OciReference, AllocError>
    ensures { IfOk result (λ image. reference_in image ≡ generated_reference) }
{
    let registry = Text::new(alloc, "localhost:5000")?;
    let repository = Text::new(alloc, "gen")?;
    let tag = Text::new(alloc, "v1")?;
    Ok(OciReference::with_tag(registry, repository, tag))
}

/// Returns a client that keeps nothing yet and knows no logs.
pub(crate) fn fresh_client(alloc: Global) -> Result<Client, AllocError>
    ensures state { IfOk result (λ client.
        client_state client ≡ record { settings = generated_settings; kept = fresh }) }
    ensures log_keys { IfOk result (λ client. client.rekor_pub_keys ≡ map.empty) }
{
    let mut config = ClientConfig::default(alloc)?;
    config.protocol = ClientProtocol::Http;
    let client = oci_engine::Client::new(alloc, config);
    Ok(Client {
        registry_client: RegistryClient::Plain(OciClient::new(client)),
        rekor_pub_keys: TextMap::new(alloc),
    })
}

/// The arguments and the policy of the pull.
#[derive(Drop)]
pub(crate) struct Terms {
    pub image: OciReference,
    pub accepted: List<Text>,
    pub policy: PullPolicy,
    pub verifier: TableVerifier,
}

pub(crate) fn terms_for(alloc: Global, layers: u32) -> Result<Terms, AllocError>
    ensures image { IfOk result (λ terms. reference_in terms.image ≡ generated_reference) }
    ensures accepted { IfOk result (λ terms. terms.accepted ≡ generated_types) }
    ensures keys { IfOk result (λ terms. terms.policy.keys ≡ codes "k1" ∷ []) }
    ensures constraints { IfOk result (λ terms. terms.policy.constraints ≡ any_layer ∷ []) }
    ensures verifier { IfOk result (λ terms. terms.verifier.rows ≡ signed_row layers ∷ []) }
{
    let row = signed_row(alloc, layers)?;
    let mut rows = List::new(alloc);
    rows.push(row)?;
    let mut accepted = List::new(alloc);
    accepted.push(Text::new(alloc, "application/vnd.oci.image.layer.v1.tar")?)?;
    let policy = policy(alloc)?;
    let image = image(alloc)?;
    Ok(Terms {
        image,
        accepted,
        policy,
        verifier: TableVerifier { rows },
    })
}
