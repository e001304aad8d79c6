ghost use Rattle.std.specs.Prelude.{◌≡◌, ◌↔◌, IfOk, IsTrue, Ok};
ghost use Rattle.serde_json.specs.View.{view};
ghost use Rattle.json_tables.specs.Outcomes.{ReadsTo, ReadsDocument};
ghost use Rattle.oci_docs.specs.History.{history_members};

use crate::time::Time;
use json_tables::{ReadError, Reads, Writes, an_object, object, read_document, read_row};
use json_values::{Copied, Text, ToValue, copied, row};
use serde_json::Value;
use std::alloc::{AllocError, Global};

/// A step in the creation of an image (OCI image specification, config.md, `history`).
#[derive(Debug, Drop)]
pub struct History {
    /// When the step was performed.
    pub created: Option<Time>,
    /// Who performed the step.
    pub author: Option<Text>,
    /// The command that performed the step.
    pub created_by: Option<Text>,
    /// A remark on the step.
    pub comment: Option<Text>,
    /// Whether the step left the file system unchanged.
    pub empty_layer: Option<bool>,
}

impl History {
    ghost use Rattle.oci_docs.specs.History.{history_of, no_history};

    /// Reads a step. Returns `Float` if and only if it contains a float, otherwise `Shape` if it does not match.
    pub fn read(alloc: Global, value: &Value) -> Result<History, ReadError>
        ensures { ReadsDocument result history_of (view value.now) }
    {
        read_document(alloc, value)
    }

    /// Returns a step in which all fields are `None`.
    pub fn default(_alloc: Global) -> Result<History, AllocError>
        ensures { IfOk result (λ history. history ≡ no_history) }
    {
        Ok(History {
            created: None,
            author: None,
            created_by: None,
            comment: None,
            empty_layer: None,
        })
    }
}

impl Reads for History {
    ghost use Rattle.oci_docs.specs.History.{history_of};

    ghost reading = { history_of };

    #[tactic(auto, unfolding(crate::specs::History::history_of), using(crate::proofs::Again::object_rules))]
    fn read_value(alloc: Global, value: &Value) -> Result<History, ReadError> {
        an_object(value)?;
        let history = history_members(alloc, value)?;
        Ok(history)
    }
}

#[tactic(auto, unfolding(crate::specs::History::history_members))]
fn history_members(alloc: Global, value: &Value) -> Result<History, ReadError>
    ensures { ReadsTo result (history_members (view value.now)) }
{
    let row![created, author, created_by, comment, empty_layer] = read_row::<History, _>(
        alloc,
        value,
        &["created", "author", "created_by", "comment", "empty_layer"],
    )?;
    Ok(History {
        created,
        author,
        created_by,
        comment,
        empty_layer,
    })
}

impl Writes for History {
    ghost use Rattle.oci_docs.specs.History.{history_written};

    ghost written = { history_written };

    #[tactic(auto, unfolding(crate::specs::History::history_written))]
    fn write_value(&self, alloc: Global) -> Result<Value, AllocError> {
        let value = object!(alloc, {
            "created": &self.created,
            "author": &self.author,
            "created_by": &self.created_by,
            "comment": &self.comment,
            "empty_layer": &self.empty_layer,
        })?;
        Ok(value)
    }
}

impl ToValue for History {
    ghost use Rattle.oci_docs.specs.History.{history_of, history_written};

    ghost written = { history_written };

    /// Writes the step without its members that are `None`. The result round-trips.
    #[tactic(auto, using(json_tables::proofs::Whole::document_again))]
    fn to_value(&self, alloc: Global) -> Result<Value, AllocError>
        ensures exact { IfOk result (λ v. view v ≡ history_written self.now) }
        ensures reads_back { IfOk result (λ v. ReadsDocument (Ok self.now) history_of (view v)) }
    {
        let value = self.write_value(alloc)?;
        Ok(value)
    }
}

impl Copied for History {
    fn copy(&self, alloc: Global) -> Result<History, AllocError> {
        copied!(
            alloc,
            self,
            History {
                created,
                author,
                created_by,
                comment,
                empty_layer
            }
        )
    }
}

/// Steps are equal if all fields are equal.
impl PartialEq for History {
    ghost use Rattle.std.specs.Cmp.{partial_equiv_from_equiv};
    ghost use Rattle.oci_docs.specs.Equalities.{is_same_history, histories};

    ghost eq = { is_same_history };

    ghost laws = { partial_equiv_from_equiv histories };

    fn eq(&self, other: &History) -> bool
        ensures value { result ≡ is_same_history self.now other.now }
        ensures same { IsTrue result ↔ (self.now ≡ other.now) }
    {
        self.created == other.created
            && self.author == other.author
            && self.created_by == other.created_by
            && self.comment == other.comment
            && self.empty_layer == other.empty_layer
    }
}

impl Eq for History {
    ghost use Rattle.oci_docs.specs.Equalities.{histories};

    ghost laws = { histories };
}
