// Settings with the client that was built for them.
ghost use Rattle.live_pull.specs.Opening.{Opens};

use crate::settings::LiveSettings;
use cosign_client::{Asked, Client, WrittenClient, client_by};
use json_values::{Blob, List, Text};
use sig_registry::{Auth, OciReference};
use std::alloc::Global;

/// A client, and its arguments. It caches responses, so that the search's requests are not sent twice.
#[derive(Drop)]
pub struct Opened {
    pub client: Client,
    pub moment: u64,
    pub image: OciReference,
    pub auth: Auth,
    pub accepted: List<Text>,
    pub keys: List<Blob>,
    pub blobs: bool,
}

/// Returns the client that was built for settings, and its arguments.
pub fn open_settings(alloc: Global, asked: Asked, settings: LiveSettings) -> Opened
    ensures { Opens asked settings result }
{
    let Asked { image, auth, usual } = asked;
    let written = WrittenClient {
        protocol: settings.protocol,
        limit: settings.limit,
        platform: settings.platform,
        caching: true,
        log_keys: settings.log_keys,
    };
    Opened {
        client: client_by(alloc, usual, written),
        moment: settings.moment,
        image,
        auth,
        accepted: settings.accepted,
        keys: settings.keys,
        blobs: settings.blobs,
    }
}
