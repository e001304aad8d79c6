// What the tests share.
use byte_streams::MemorySink;
use json_values::List;
use std::alloc::{AllocError, Global};

/// Returns a sink that fails at this call.
pub(crate) fn failing_at(alloc: Global, call: u64) -> Result<MemorySink, AllocError> {
    let mut failing = List::new(alloc);
    failing.push(call)?;
    Ok(MemorySink::new(alloc, failing))
}
