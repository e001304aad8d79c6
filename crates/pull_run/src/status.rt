// The exit statuses of the program.
ghost use Rattle.std.specs.Prelude.{◌≡◌};
ghost use Rattle.pull_run.specs.Status.{code_of};

use byte_streams::ReadRefusal;
use std::alloc::AllocError;

/// How the program ended.
#[derive(Clone, Copy, Debug, PartialEq, Eq)]
pub enum Status {
    /// Each pull returned an image, or the value has a text, and the output was written.
    Done,
    /// A pull was refused, or the value has no text, and the output, which says so, was written.
    Refused,
    /// The arguments match no supported form. Nothing was read or written.
    Usage,
    /// The input is not a case, or not JSON. Nothing was written.
    UnreadableInput,
    /// The source failed. Nothing was written.
    SourceFault,
    /// The sink failed. The output was not written whole.
    SinkFault,
    /// Memory ran out. The output was not written whole, or not at all.
    WantOfMemory,
    /// More than 67108864 bytes of the input were read. Nothing was written.
    TooLong,
}

impl Status {
    /// Returns the exit status of the process.
    pub fn code(self) -> u8
        ensures { result ≡ code_of self }
    {
        match self {
            Status::Done => 0,
            Status::Refused => 1,
            Status::Usage => 2,
            Status::UnreadableInput => 3,
            Status::SourceFault => 4,
            Status::SinkFault => 5,
            Status::WantOfMemory => 6,
            Status::TooLong => 7,
        }
    }
}

impl From<ReadRefusal> for Status {
    ghost use Rattle.pull_run.specs.Status.{status_of};

    ghost from_gives = { λ refusal status. status ≡ status_of refusal };

    fn from(refusal: ReadRefusal) -> Status {
        match refusal {
            ReadRefusal::TooLong => Status::TooLong,
            ReadRefusal::SourceFault => Status::SourceFault,
            ReadRefusal::WantOfMemory => Status::WantOfMemory,
        }
    }
}

impl From<AllocError> for Status {
    ghost use Rattle.pull_run.specs.declared.status.Status.TheVariants.{WantOfMemory};

    ghost from_gives = { λ _ status. status ≡ WantOfMemory };

    fn from(_error: AllocError) -> Status {
        Status::WantOfMemory
    }
}
