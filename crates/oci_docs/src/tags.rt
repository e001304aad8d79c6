ghost use Rattle.std.specs.Prelude.{option_map};
ghost use Rattle.serde_json.specs.View.{view};
ghost use Rattle.json_tables.specs.Outcomes.{ReadsTo, ReadsDocument};
ghost use Rattle.oci_docs.specs.Tags.{tags_of};

use json_tables::{ReadError, Reads, read_document, required};
use json_values::{Copied, List, Text, copied};
use serde_json::Value;
use std::alloc::{AllocError, Global};

/// The tags of a repository (OCI distribution specification, "Listing Tags").
#[derive(Debug, Drop)]
pub struct TagResponse {
    /// The repository.
    pub name: Text,
    /// Empty if the registry sent null.
    pub tags: List<Text>,
}

impl TagResponse {
    ghost use Rattle.oci_docs.specs.Tags.{tag_response_of};

    /// Reads a listing. Returns `Float` if and only if it contains a float, otherwise `Shape` if it does not match.
    pub fn read(alloc: Global, value: &Value) -> Result<TagResponse, ReadError>
        ensures { ReadsDocument result tag_response_of (view value.now) }
    {
        read_document(alloc, value)
    }
}

impl Reads for TagResponse {
    ghost use Rattle.oci_docs.specs.Tags.{tag_response_of};

    ghost reading = { tag_response_of };

    #[tactic(auto, unfolding(crate::specs::Tags::tag_response_of))]
    fn read_value(alloc: Global, value: &Value) -> Result<TagResponse, ReadError> {
        let name = required(alloc, value, "name")?;
        let tags = tags_in(alloc, value.get("tags"))?;
        Ok(TagResponse { name, tags })
    }
}

fn tags_in(alloc: Global, member: Option<&Value>) -> Result<List<Text>, ReadError>
    ensures { ReadsTo result (tags_of (option_map (λ v. view v.now) member.entry)) }
{
    match member {
        None => Err(ReadError::Shape),
        Some(Value::Null) => Ok(List::new(alloc)),
        Some(value) => List::read_value(alloc, value),
    }
}

impl Copied for TagResponse {
    fn copy(&self, alloc: Global) -> Result<TagResponse, AllocError> {
        copied!(alloc, self, TagResponse { name, tags })
    }
}
