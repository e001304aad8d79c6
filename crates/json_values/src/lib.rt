//! The values that all crates share, and the canonical text of a text.
#![tactic(auto)]

mod blob;
mod copied;
mod copies;
mod decimal;
mod json_value;
mod list;
mod map;
mod numbers;
mod quoted;
mod read;
mod set;
mod text;
mod to_value;

pub use blob::Blob;
pub use copied::Copied;
pub use copies::{CopyRow, copy_all};
pub use decimal::{decimals_round_trip, read_decimal, write_decimal};
pub use json_value::Json;
pub use list::List;
pub use map::{Annotations, TextMap};
pub use quoted::write_quoted;
pub use read::read_json;
pub use set::TextSet;
pub use text::Text;
pub use to_value::ToValue;
