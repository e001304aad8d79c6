// The client of the target, and its arguments.
ghost use Rattle.std.specs.Prelude.{IfOk};
ghost use Rattle.live_copy.specs.Opening.{Opens};
ghost use Rattle.live_copy.specs.Settings.{AreReady};

use crate::settings::CopySettings;
use cosign_client::{Asked, ask_for};
use json_values::Copied;
use live_pull::TargetSettings;
use oci_engine::Client;
use pull_mirror::CopyTarget;
use std::alloc::{AllocError, Global};

/// The target's client, what it pushes to, whether its tags are queried before, and when (in seconds since 1970).
#[derive(Drop)]
pub(crate) struct Opened {
    pub client: Client,
    pub to: CopyTarget,
    pub asks: bool,
    pub moment: u64,
}

/// Returns a new client of the target by these settings.
pub(crate) fn open(alloc: Global, settings: &CopySettings) -> Result<Opened, AllocError>
    requires { AreReady settings.now }
    ensures { IfOk result (Opens settings.now) }
{
    let target: &TargetSettings = &settings.target;
    let protocol = target.protocol.copy(alloc)?;
    let Asked { image, auth, usual } = ask_for(alloc, target.reference.as_str(), &target.auth)?;
    let mut config = usual;
    config.protocol = protocol;
    Ok(Opened {
        client: Client::new(alloc, config),
        to: CopyTarget {
            image,
            auth,
            tag: settings.tag,
        },
        asks: settings.tag && !settings.replace,
        moment: settings.settings.moment,
    })
}
