//! JSON documents that are read by tables, and written so that their tables read them again; and whether a text is an
//! object with given members only.
#![tactic(auto)]

mod blobs;
mod document;
mod error;
mod field;
mod floats;
mod lists;
mod maps;
mod member;
mod member_names;
mod numbers;
mod objects;
mod paths;
mod plain;
mod reads;
mod rows;
mod sets;
mod unless_empty;
mod values;
mod writes;
mod written_objects;

pub use blobs::{decode_base64, required_base64};
pub use document::{read_document, read_or_none};
pub use error::ReadError;
pub use field::{Field, Required, put_field};
pub use floats::holds_float;
pub use member::{Member, optional, or_null, present, required};
pub use member_names::{has_only, may_have_only};
pub use objects::{an_object, only};
pub use paths::text_at;
pub use plain::{read_plain, read_plain_json};
pub use reads::Reads;
pub use rows::{Row, read_row};
pub use unless_empty::{Holder, UnlessEmpty};
pub use writes::{Lasting, Writes};
pub use written_objects::{FieldRow, write_object};
