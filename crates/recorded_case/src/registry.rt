// The responses of a case's registry.
ghost use Rattle.serde_json.specs.View.{view};
ghost use Rattle.json_tables.specs.Outcomes.{ReadsTo};
ghost use Rattle.recorded_case.specs.Registry.{registry_of};

use crate::entries::Entries;
use crate::shelf::read_shelf;
use json_tables::{Member, ReadError};
use json_values::List;
use oci_link::Shelf;
use oci_transport::Recorded;
use serde_json::Value;
use std::alloc::Global;

/// The responses of a case's registry.
#[derive(Drop)]
pub enum Registry {
    /// A list of answers, in order. Each is `"fail"`, a send that fails, or an object with the member `status`
    /// (100 to 999) and optionally `headers` (a list of pairs of a name and a string, which `Headers::add` accepts),
    /// `pieces` (the body, a list of bytes none of which is empty) and `fault` (before how many pieces a call fails).
    Answers(List<Recorded>),
    /// `{"repository": text, "tags": {tag: digest}, "documents": {digest: {"media_type": text, "content": bytes}},
    /// "blobs": {digest: bytes}, "referrers": {digest: bytes}}`, and optionally `redirects`, an object from URLs to
    /// the URLs that they redirect to, which must all end (`Shelf::redirects_lead`).
    Shelf(Shelf),
}

/// Reads the registry of a case: exactly one of the members `answers` and `shelf`. Fails with `Shape` if none of them
/// is there, or both, and as the member that is there fails.
#[tactic(auto, unfolding(crate::specs::Registry::registry_of))]
pub fn read_registry(alloc: Global, value: &Value) -> Result<Registry, ReadError>
    ensures reads { ReadsTo result (registry_of (view value.now)) }
{
    match (value.get("answers"), value.get("shelf")) {
        (Some(answers), None) => {
            let answers: Entries<Recorded> = Member::read_member(alloc, Some(answers))?;
            Ok(Registry::Answers(answers.list))
        }
        (None, Some(shelf)) => {
            let shelf = read_shelf(alloc, shelf)?;
            Ok(Registry::Shelf(shelf))
        }
        _ => Err(ReadError::Shape),
    }
}
