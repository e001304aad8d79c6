// The builder of a client of signatures.
use cosign_client::{Client, ClientBuilder, TrustRoot};
use cosign_parts::LogKeys;
use json_values::{Blob, Text};
use std::alloc::{AllocError, Global};

// Knows no log.
struct NoLogs;

impl TrustRoot for NoLogs {
    ghost use Rattle.std.specs.FinMap as map;

    ghost known = { λ _. map.empty };

    fn rekor_keys(&self, alloc: Global) -> Result<LogKeys, AllocError> {
        Ok(LogKeys::new(alloc))
    }
}

fn built(alloc: Global) -> Option<Client> {
    let builder = ClientBuilder::new().enable_registry_caching();
    let builder = builder.with_trust_repository(alloc, &NoLogs).ok()?;
    builder.build(alloc).ok()
}

#[test]
fn a_client_is_built_that_keeps_answers_and_trusts_no_log(rt: HostRuntime) {
    assert!(rt; built(rt.alloc()).is_some());
}
