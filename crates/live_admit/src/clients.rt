// The clients of the rules, which are kept between reviews.
ghost use Rattle.std.specs.Prelude.{◌≡◌, IfOk, unwrap_or};
ghost use Rattle.oci_engine.specs.Clients.{settings_of};
ghost use Rattle.cosign_client.specs.State.{client_state};
ghost use Rattle.live_pull.specs.Pulls.{client_settings};
ghost use Rattle.live_admit.specs.Clients.{AreIn, IsIn, new_state, new_states, nothing_kept};

use crate::Rule;
use crate::settings::settings_for;
use cosign_client::Client;
use cosign_parts::LogKeys;
use engine_terms::ClientProtocol;
use json_values::{Copied, copy_all, row};
use live_pull::LiveSettings;
use oci_engine::ClientConfig;
use oci_manifests::PlatformResolver;
use sig_registry::{OciCachingClient, RegistryClient};
use std::alloc::{AllocError, Global};

/// The settings of a rule, and the client that decides the images under it.
#[derive(Drop)]
pub struct RuleClient {
    pub settings: LiveSettings,
    /// It has the settings that these state.
    pub client: Client,
}

// The maximum number of a client's cached responses, and of its tokens.
const MAX_ANSWERS: u64 = 1000;

// The maximum number of bytes of a client's cached responses.
const MAX_BYTES: u64 = 33554432;

// A configuration with these members, all others unchanged.
fn configured(
    usual: ClientConfig,
    protocol: ClientProtocol,
    platform: Option<PlatformResolver>,
    limit: Option<u64>,
) -> ClientConfig
    ensures { result ≡ record usual {
      protocol = protocol;
      platform_resolver = platform;
      max_body_bytes = unwrap_or limit usual.max_body_bytes;
    } }
{
    let mut config = usual;
    config.protocol = protocol;
    config.max_body_bytes = limit.unwrap_or(config.max_body_bytes);
    config.platform_resolver = platform;
    config
}

// A new client with this configuration, which caches within bounds.
fn bounded_client(alloc: Global, config: ClientConfig, log_keys: LogKeys) -> Client
    ensures settings { (client_state result).settings ≡ settings_of config }
    ensures kept { config.default_token_expiration_secs ≡ 60 → (client_state result).kept ≡ nothing_kept }
    ensures log_keys { result.rekor_pub_keys ≡ log_keys }
{
    let client = oci_engine::Client::new(alloc, config);
    let client = OciCachingClient::with_bounds(alloc, client, MAX_ANSWERS, MAX_BYTES);
    Client {
        registry_client: RegistryClient::Caching(client),
        rekor_pub_keys: log_keys,
    }
}

// A new client with these settings.
fn client_for(alloc: Global, settings: &LiveSettings) -> Result<Client, AllocError>
    ensures client { IfOk result (λ client. client_state client
        ≡ record { settings = client_settings settings.now; kept = nothing_kept }) }
    ensures log_keys { IfOk result (λ client. client.rekor_pub_keys ≡ settings.now.log_keys) }
{
    let row![protocol, platform, limit, log_keys] = copy_all(
        alloc,
        row!(
            &settings.protocol,
            &settings.platform,
            &settings.limit,
            &settings.log_keys
        ),
    )?;
    let usual = ClientConfig::default(alloc)?;
    let config = configured(usual, protocol, platform, limit);
    Ok(bounded_client(alloc, config, log_keys))
}

// A rule with a new client.
fn open_rule(alloc: Global, rule: &Rule<LiveSettings>) -> Result<Rule<RuleClient>, AllocError>
    ensures { IfOk result (λ held. IsIn held (new_state rule.now)) }
{
    let own = &rule.settings;
    let images = rule.images.copy(alloc)?;
    let settings = settings_for(alloc, own, &own.reference, own.moment)?;
    let client = client_for(alloc, own)?;
    Ok(Rule {
        images,
        settings: RuleClient { settings, client },
    })
}

/// Returns the rules with a new client for each.
pub(crate) fn open_rules(
    alloc: Global,
    rules: &[Rule<LiveSettings>],
) -> Result<Vec<Rule<RuleClient>>, AllocError>
    ensures { IfOk result (λ held. AreIn held.items (new_states rules.now)) }
{
    let mut opened = Vec::new(alloc);
    for rule in rules {
        let held = open_rule(alloc, rule)?;
        opened.push(held)?;
    }
    Ok(opened)
}
