// The registry that blobs are pulled from, and what a call begins with.
ghost use Rattle.std.specs.Prelude.{◌≡◌, Ok, IfOk, IsOk};
ghost use Rattle.oci_names.specs.Reference.{reference_of};
ghost use Rattle.live_pull.specs.Settings.{IsReady};
ghost use Rattle.live_blobs.specs.Opening.{Opens, Starts};

use engine_terms::Settings;
use live_pull::LiveSettings;
use oci_auth::{AuthState, store};
use oci_engine::ClientConfig;
use oci_names::{ParseError, Reference};
use std::alloc::{AllocError, Global};

/// What is allocated before the first request.
#[derive(Drop)]
pub struct Started {
    pub image: Reference,
    pub state: AuthState,
    pub usual: ClientConfig,
}

/// The settings of the requests, the image, and the credentials and tokens.
#[derive(Drop)]
pub struct Opened {
    pub settings: Settings,
    pub image: Reference,
    pub state: AuthState,
    pub moment: u64,
}

/// Returns the reference that a text parses as.
pub fn image_in(alloc: Global, text: &str) -> Result<Reference, AllocError>
    requires { IsOk (reference_of text.now) }
    ensures { IfOk result (λ image. reference_of text.now ≡ Ok image) }
{
    match Reference::parse(alloc, text) {
        Ok(image) => Ok(image),
        Err(ParseError::WantOfMemory) => Err(AllocError),
        Err(_) => unreachable!(),
    }
}

/// Allocates what a call needs before its first request, and stores the credentials for the image's registry.
pub fn start(alloc: Global, settings: &LiveSettings) -> Result<Started, AllocError>
    requires { IsReady settings.now }
    ensures { IfOk result (Starts settings.now) }
{
    let image = image_in(alloc, settings.reference.as_str())?;
    let usual = ClientConfig::default(alloc)?;
    let mut state = AuthState::new(alloc, 60);
    store(alloc, &mut state, image.resolve_registry(), &settings.auth)?;
    Ok(Started {
        image,
        state,
        usual,
    })
}

/// Returns a call by these settings.
pub fn open(started: Started, settings: LiveSettings) -> Opened
    requires { Starts settings started }
    ensures { Opens settings result }
{
    let Started {
        image,
        state,
        usual,
    } = started;
    Opened {
        settings: Settings {
            protocol: settings.protocol,
            user_agent: usual.user_agent,
            max_body_bytes: settings.limit.unwrap_or(usual.max_body_bytes),
            use_monolithic_push: usual.use_monolithic_push,
            platform_resolver: settings.platform,
        },
        image,
        state,
        moment: settings.moment,
    }
}
