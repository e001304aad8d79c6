// The client of the target.
ghost use Rattle.std.specs.Prelude.{◌≡◌, Ok, IfOk, IsOk};
ghost use Rattle.oci_names.specs.Reference.{reference_of};
ghost use Rattle.live_blobs.specs.CarryOpening.{Opens, limit_of};
ghost use Rattle.live_blobs.specs.CarrySettings.{AreReady};

use crate::carry_settings::CarrySettings;
use json_values::Copied;
use oci_engine::{Client, ClientConfig};
use oci_names::{ParseError, Reference};
use std::alloc::{AllocError, Global};

/// The number of bytes that a response may have whatever the blob's size.
const LEAST_LIMIT: u64 = 1048576;

/// The target's client, the repository that is pushed to, and when (in seconds since 1970).
#[derive(Drop)]
pub(crate) struct Opened {
    pub client: Client,
    pub into: Reference,
    pub moment: u64,
}

// Returns the reference that a text parses as.
fn image_in(alloc: Global, text: &str) -> Result<Reference, AllocError>
    requires { IsOk (reference_of text.now) }
    ensures { IfOk result (λ image. reference_of text.now ≡ Ok image) }
{
    match Reference::parse(alloc, text) {
        Ok(image) => Ok(image),
        Err(ParseError::WantOfMemory) => Err(AllocError),
        Err(_) => unreachable!(),
    }
}

fn limit_of(size: u64) -> u64
    ensures { result ≡ limit_of size }
{
    if size < LEAST_LIMIT {
        return LEAST_LIMIT;
    }
    size
}

/// Returns a new client of the target by these settings, with the credentials of its registry.
pub(crate) fn open(alloc: Global, settings: &CarrySettings) -> Result<Opened, AllocError>
    requires { AreReady settings.now }
    ensures { IfOk result (Opens settings.now) }
{
    let into = image_in(alloc, settings.target.reference.as_str())?;
    let protocol = settings.target.protocol.copy(alloc)?;
    let mut config = ClientConfig::default(alloc)?;
    config.protocol = protocol;
    config.max_body_bytes = limit_of(settings.size);
    let mut client = Client::new(alloc, config);
    client.store_auth_if_needed(into.resolve_registry(), &settings.target.auth)?;
    Ok(Opened {
        client,
        into,
        moment: settings.moment,
    })
}
