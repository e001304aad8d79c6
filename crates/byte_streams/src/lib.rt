//! Where bytes come from and go to: sources and sinks in memory, standard input and standard output.
#![tactic(auto)]

mod give;
mod memory_sink;
mod memory_source;
mod plain_sink;
mod plain_source;
mod reading;
mod sink;
mod source;
mod std_sink;
mod std_source;

pub use memory_sink::MemorySink;
pub use memory_source::MemorySource;
pub use plain_sink::PlainSink;
pub use plain_source::PlainSource;
pub use reading::{INPUT_LIMIT, ReadRefusal, read_all};
pub use sink::{Sink, SinkError, put_all};
pub use source::{Failed, Source};
pub use std_sink::StdSink;
pub use std_source::StdSource;
