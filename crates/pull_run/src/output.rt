// Writing the output.
ghost use Rattle.pull_run.specs.Output.{Puts};

use crate::status::Status;
use byte_streams::{Sink, SinkError, put_all};
use pulled_cases::Report;

/// Writes the output, and returns how that ended.
pub fn deliver<K: Sink>(sink: &mut K, report: &Report) -> Status
    ensures { Puts result report.now (K.state sink.old) (K.state sink.new) }
{
    match put_all(sink, report.bytes.as_slice()) {
        Ok(()) => {
            if report.refused {
                return Status::Refused;
            }
            Status::Done
        }
        Err(SinkError::Failed) => Status::SinkFault,
        Err(SinkError::WantOfMemory) => Status::WantOfMemory,
    }
}
