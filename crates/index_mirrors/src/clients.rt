// The pull of one image of an index, by a client of its own.
ghost use Rattle.std.specs.Prelude.{◌≡◌, IfOk, false};
ghost use Rattle.cosign_client.specs.State.{client_state};
ghost use Rattle.sig_registry.specs.States.{fresh_state};
ghost use Rattle.index_mirrors.specs.Pulled.{EntryPulled, entry_config};
ghost use Rattle.index_mirrors.specs.Terms.{meaning_of, source_of};

use crate::terms::EntryTerms;
use cosign_chain::VerifiedImage;
use cosign_client::Client;
use cosign_parts::{LogKeys, Offline, SignatureVerifier};
use cosign_rows::PullRefusal;
use json_values::{Copied, Text};
use oci_engine::ClientConfig;
use oci_manifests::PlatformResolver;
use oci_transport::Transport;
use sig_registry::RegistryClient;
use std::alloc::{AllocError, Global};

// A new client that selects this entry of an index.
fn entry_client(
    alloc: Global,
    config: &ClientConfig,
    log_keys: &LogKeys,
    entry: &Text,
) -> Result<Client, AllocError>
    ensures state { IfOk result (λ client.
        client_state client ≡ fresh_state (entry_config config.now entry.now) false) }
    ensures keys { IfOk result (λ client. client.rekor_pub_keys ≡ log_keys.now) }
{
    let digest = entry.copy(alloc)?;
    let rekor_pub_keys = log_keys.copy(alloc)?;
    let mut config = config.copy(alloc)?;
    config.platform_resolver = Some(PlatformResolver::fixed(digest));
    Ok(Client {
        registry_client: RegistryClient::fresh(alloc, config, false),
        rekor_pub_keys,
    })
}

/// Pulls the image of one entry as `Client::verified_pull` does, by a new client that selects this entry.
pub(crate) fn pull_entry<'a, A: Transport, V: SignatureVerifier, O: Offline>(
    alloc: Global,
    transport: &mut A,
    terms: &EntryTerms<'a, V, O>,
    entry: &Text,
) -> Result<VerifiedImage, PullRefusal>
    ensures { EntryPulled (meaning_of V.valid O.vouched (λ b. accepts (b.vtable, b.value)) terms.now)
        (source_of terms.now) entry.now (A.state transport.old) (A.state transport.new) result }
{
    let mut client = entry_client(alloc, &terms.config, terms.log_keys, entry)?;
    client.verified_pull(
        alloc,
        transport,
        terms.moment,
        &terms.index,
        &terms.auth,
        terms.accepted,
        terms.policy,
        terms.verifier,
        terms.judge,
    )
}
