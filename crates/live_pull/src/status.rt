// The exit statuses of a live pull.
ghost use Rattle.std.specs.Prelude.{◌≡◌};
ghost use Rattle.live_pull.specs.Status.{code_of};

use live_host::HostError;
use std::alloc::AllocError;

/// How a live pull ended.
#[derive(Clone, Copy, Debug, PartialEq, Eq)]
pub enum Status {
    /// The image was pulled and sent.
    Pulled,
    /// The pull was refused, and the error was sent.
    Refused,
    /// The settings are malformed.
    UnreadableSettings,
    /// The host's stream failed, ended, or sent something malformed.
    HostBroken,
    /// The output failed.
    SinkFault,
    /// Memory ran out.
    WantOfMemory,
}

impl Status {
    /// Returns the exit status of the process.
    pub fn code(self) -> u8
        ensures { result ≡ code_of self }
    {
        match self {
            Status::Pulled => 0,
            Status::Refused => 1,
            Status::UnreadableSettings => 3,
            Status::HostBroken => 4,
            Status::SinkFault => 5,
            Status::WantOfMemory => 6,
        }
    }
}

impl From<HostError> for Status {
    ghost use Rattle.live_pull.specs.Status.{status_of};

    ghost from_gives = { λ error status. status ≡ status_of error };

    fn from(error: HostError) -> Status {
        match error {
            HostError::Broken => Status::HostBroken,
            HostError::Unwritten => Status::SinkFault,
            HostError::WantOfMemory => Status::WantOfMemory,
        }
    }
}

impl From<AllocError> for Status {
    ghost use Rattle.live_pull.specs.declared.status.Status.TheVariants.{WantOfMemory};

    ghost from_gives = { λ _ status. status ≡ WantOfMemory };

    fn from(_error: AllocError) -> Status {
        Status::WantOfMemory
    }
}
