use json_values::{Blob, List};
use oci_transport::Script;
use pull_generated::pull_generated;
use pull_report::{drop_outcome, write_report};
use std::alloc::{AllocError, Global};

/// The report of the pull of the generated image where nothing answers: its two requests, and the refusal.
pub fn report(alloc: Global) -> Result<Blob, AllocError> {
    let mut script = Script::new(alloc, List::new(alloc));
    let outcome = pull_generated(alloc, 3, &mut script);
    let mut bytes = Blob::empty(alloc);
    let conversation = script.conversation().as_slice();
    let written = write_report(alloc, &mut bytes, 100, conversation, &outcome);
    drop_outcome(outcome);
    written?;
    Ok(bytes)
}
