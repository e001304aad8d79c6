// The exit statuses.
use json_tables::ReadError;
use live_host::HostError;
use std::alloc::AllocError;

/// Why not all lines were sent.
#[derive(Clone, Copy, Debug, PartialEq, Eq)]
pub enum Failure {
    /// The settings are malformed.
    Settings,
    /// The host's stream failed, ended, or sent something malformed.
    Host,
    /// The output failed.
    Output,
    /// Memory ran out.
    Memory,
}

impl Failure {
    /// Returns the exit status of the process.
    pub fn code(self) -> u8 {
        match self {
            Failure::Settings => 3,
            Failure::Host => 4,
            Failure::Output => 5,
            Failure::Memory => 6,
        }
    }
}

impl From<HostError> for Failure {
    fn from(error: HostError) -> Failure {
        match error {
            HostError::Broken => Failure::Host,
            HostError::Unwritten => Failure::Output,
            HostError::WantOfMemory => Failure::Memory,
        }
    }
}

impl From<ReadError> for Failure {
    fn from(error: ReadError) -> Failure {
        match error {
            ReadError::WantOfMemory => Failure::Memory,
            _ => Failure::Settings,
        }
    }
}

impl From<AllocError> for Failure {
    fn from(_error: AllocError) -> Failure {
        Failure::Memory
    }
}
