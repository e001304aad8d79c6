// The terms that documents are checked under.
ghost use Rattle.std.specs.Prelude.{◌≡◌, option_copied};

use cosign_layers::{Constraint, PullPolicy};
use cosign_parts::LogKeys;
use json_values::List;
use live_pull::LiveSettings;
use oci_manifests::{PlatformResolver, ResolverPromise};

/// The terms that documents are checked under, without a request: what picks the manifest of an index, the policy, and
/// the keys of logs.
#[derive(Drop)]
pub struct Terms {
    pub platform: Option<PlatformResolver>,
    pub policy: PullPolicy,
    pub log_keys: LogKeys,
}

/// Returns the terms of these settings, with these constraints.
pub fn terms_in(settings: LiveSettings, constraints: List<Constraint>) -> Terms
    ensures { result ≡ record {
      platform = settings.platform;
      policy = record { keys = settings.keys; constraints = constraints };
      log_keys = settings.log_keys;
    } }
{
    Terms {
        platform: settings.platform,
        policy: PullPolicy {
            keys: settings.keys,
            constraints,
        },
        log_keys: settings.log_keys,
    }
}

/// Returns the promise of a resolver, if there is one.
pub fn promise_of(platform: &Option<PlatformResolver>) -> Option<&ResolverPromise>
    ensures { option_copied result ≡ platform.now }
{
    match platform {
        Some(resolver) => Some(resolver.promise()),
        None => None,
    }
}
