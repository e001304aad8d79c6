// How clients are built, and what they return without a request.
use json_values::{Blob, List, Text};
use oci_auth::RegistryAuth;
use oci_engine::{
    Client, ClientConfig, ClientConfigSource, ClientProtocol, config_file,
    current_platform_resolver, linux_amd64_resolver, windows_amd64_resolver,
};
use oci_manifests::blob::Config;
use oci_names::{Arch, Os};
use std::alloc::{AllocError, Global};

// Gives the default configuration.
struct Usual;

impl ClientConfigSource for Usual {
    ghost use Rattle.oci_engine.specs.Clients.{default_config};

    ghost configured = { λ _. default_config };

    fn client_config(&self, alloc: Global) -> Result<ClientConfig, AllocError> {
        ClientConfig::default(alloc)
    }
}

fn stores_credentials(alloc: Global) -> bool {
    let Ok(mut client) = Client::from_source(alloc, &Usual) else {
        return false;
    };
    client
        .store_auth_if_needed("localhost:5000", &RegistryAuth::Anonymous)
        .is_ok()
}

#[test]
fn a_client_is_made_of_a_source_and_stores_credentials(rt: HostRuntime) {
    assert!(rt; stores_credentials(rt.alloc()));
    assert!(rt; ClientProtocol::default().scheme_for("localhost:5000") == "https");
}

fn configuration(alloc: Global, content: &[u8]) -> Option<Config> {
    let content = Blob::new(alloc, content).ok()?;
    Config::oci_v1(alloc, content, None).ok()
}

fn is_file(alloc: Global, content: &[u8]) -> bool {
    match configuration(alloc, content) {
        Some(config) => config_file(alloc, &config).is_ok(),
        None => false,
    }
}

#[test]
fn a_configuration_is_read_as_a_file(rt: HostRuntime) {
    let file = br#"{"architecture":"amd64","os":"linux","rootfs":{"type":"layers","diff_ids":[]}}"#;
    assert!(rt; is_file(rt.alloc(), file.as_slice()));
    assert!(rt; !is_file(rt.alloc(), b"[]".as_slice()));
}

fn finds_none_for(alloc: Global, os: &str, architecture: &str) -> Option<bool> {
    let os = Os::new(Text::new(alloc, os).ok()?);
    let architecture = Arch::new(Text::new(alloc, architecture).ok()?);
    let found = current_platform_resolver(alloc, &os, &architecture, &[]).ok()?;
    Some(found.is_none())
}

#[test]
fn no_entry_of_an_empty_index_is_meant(rt: HostRuntime) {
    assert!(rt; finds_none_for(rt.alloc(), Os::LINUX, Arch::AMD64) == Some(true));
    assert!(rt; linux_amd64_resolver(rt.alloc(), &[]).is_ok());
    assert!(rt; windows_amd64_resolver(rt.alloc(), &[]).is_ok());
}
