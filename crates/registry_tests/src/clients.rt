// Clients around the registry's client.
use oci_engine::Client;
use sig_registry::{OciCachingClient, OciClient};
use std::alloc::Global;

fn is_given_back(alloc: Global) -> bool {
    match Client::default(alloc) {
        Ok(client) => {
            let client = OciClient::new(client).into_client();
            client.tokens.default_expiration_secs == 60
        }
        Err(_) => false,
    }
}

fn is_bounded(alloc: Global) -> bool {
    match Client::default(alloc) {
        Ok(client) => {
            let _client = OciCachingClient::with_bounds(alloc, client, 100, 1000000);
            true
        }
        Err(_) => false,
    }
}

#[test]
fn a_client_is_kept_and_given_back(rt: HostRuntime) {
    assert!(rt; is_given_back(rt.alloc()));
    assert!(rt; is_bounded(rt.alloc()));
}
