//! The canonical text of JSON (RFC 8785).
#![tactic(auto)]

mod feed;
mod laws;
mod plain;
mod serializer;
mod walk;
mod whole;

pub use byte_streams::{MemorySink, PlainSink, Sink, SinkError, put_all};
pub use json_events::{
    CanonError, JcsFormatter, JsonProperty, events_write, first_refusal_has_its_cause, one_text,
    order_of_names,
};
pub use json_values::{
    Annotations, Blob, Copied, Json, List, Text, TextMap, TextSet, ToValue, read_json, write_quoted,
};
pub use laws::texts_tell_values;
pub use serializer::JcsSerializer;
pub use whole::{json_to_vec, pipe, to_string, to_vec, to_writer};
