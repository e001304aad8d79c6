//! Values as events, and the formatter that writes their canonical text (RFC 8785).
#![tactic(auto)]

mod array_events;
mod error;
mod formatter;
mod laws;
mod members;
mod object_events;
mod pieces;
mod property;
mod scalars;
mod spot;
mod state;
mod turns;
mod units;
mod value_events;

pub use error::CanonError;
pub use formatter::JcsFormatter;
pub use laws::{events_write, first_refusal_has_its_cause, one_text, order_of_names};
pub use property::JsonProperty;
pub use scalars::{MAX_SAFE_INTEGER, refused_integer};
