// What a transport knows of its streams.
use crate::reading::FrameError;
use byte_streams::SinkError;
use json_values::Copied;
use oci_transport::AnswerHead;
use std::alloc::{AllocError, Global};

/// Why the streams are out of step.
#[derive(Clone, Copy, Debug, PartialEq, Eq)]
pub enum Breach {
    /// The source failed or ended.
    Source,
    /// The sink failed.
    Sink,
    /// What was received is not a frame, or is one that is out of turn.
    Frame,
    /// Memory ran out within a frame.
    Memory,
}

impl Copied for Breach {
    fn copy(&self, _alloc: Global) -> Result<Breach, AllocError> {
        Ok(*self)
    }
}

impl From<SinkError> for Breach {
    fn from(error: SinkError) -> Breach {
        match error {
            SinkError::Failed => Breach::Sink,
            SinkError::WantOfMemory => Breach::Memory,
        }
    }
}

impl From<FrameError> for Breach {
    fn from(error: FrameError) -> Breach {
        match error {
            FrameError::SourceFault => Breach::Source,
            FrameError::Ended => Breach::Source,
            FrameError::TooLong => Breach::Frame,
            FrameError::NoFrame => Breach::Frame,
            FrameError::WantOfMemory => Breach::Memory,
        }
    }
}

impl From<AllocError> for Breach {
    fn from(_: AllocError) -> Breach {
        Breach::Memory
    }
}

/// The stage of the conversation.
#[derive(Clone, Copy, Debug, PartialEq, Eq)]
pub(crate) enum Stage {
    /// Nothing is left of the last response's body.
    Ended,
    /// The body of the last response is being read.
    Open,
    /// The body of the last response is truncated.
    Cut,
    /// Nothing more is sent.
    Broken(Breach),
}

/// The outcome of a request: the head of its response, if one arrived, and the fault count when it was sent.
#[derive(Drop)]
pub(crate) struct Heard {
    pub head: Option<AnswerHead>,
    pub faults: u64,
}
