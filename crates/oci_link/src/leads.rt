// Whether redirects end.
ghost use Rattle.std.specs.Prelude.{◌≡◌, IfOk};
ghost use Rattle.std.specs.List.{list_all};
ghost use Rattle.std.specs.Option.{option_copied};
ghost use Rattle.oci_transport.specs.Urls.{request_url};
ghost use Rattle.oci_link.specs.Leads as words;

use crate::paths::path_of;
use crate::shelf::Shelf;
use json_values::{Annotations, Text};
use oci_transport::{UrlError, request_url};
use std::alloc::{AllocError, Global};

fn is_own_text(alloc: Global, text: &str) -> Result<bool, AllocError>
    ensures { IfOk result (λ own. own ≡ words.is_own_text text.now (request_url text.now)) }
{
    match request_url(alloc, text) {
        Ok(url) => Ok(url.as_str() == text),
        Err(UrlError::Refused) => Ok(false),
        Err(UrlError::WantOfMemory) => Err(AllocError),
    }
}

fn same_path(a: Option<&str>, b: Option<&str>) -> bool
    ensures { result ≡ words.same_path (option_copied a.entry) (option_copied b.entry) }
{
    match (a, b) {
        (Some(a), Some(b)) => a == b,
        _ => false,
    }
}

// Returns whether at most `steps` steps of the map lead to a string that is not a name.
fn ends_within(steps: usize, redirects: &Annotations, text: &str) -> bool
    ensures { result ≡ words.ends_within steps redirects.now text.now }
{
    let mut text = text;
    for _step in 0..steps {
        match redirects.get(text) {
            Some(next) => text = next.as_str(),
            None => return true,
        }
    }
    redirects.get(text).is_none()
}

fn entry_leads(
    alloc: Global,
    redirects: &Annotations,
    name: &str,
    value: &str,
) -> Result<bool, AllocError>
    ensures { IfOk result (λ leads. leads ≡ words.entry_leads redirects.now (name.now, value.now)) }
{
    if !is_own_text(alloc, value)? {
        return Ok(false);
    }
    Ok(same_path(path_of(name), path_of(value)) && ends_within(10, redirects, name))
}

fn all_lead(
    alloc: Global,
    redirects: &Annotations,
    entries: &[(Text, Text)],
) -> Result<bool, AllocError>
    ensures { IfOk result (λ lead. lead ≡ list_all (words.entry_leads redirects.now) entries.now) }
{
    for entry in entries {
        if !entry_leads(alloc, redirects, entry.0.as_str(), entry.1.as_str())? {
            return Ok(false);
        }
    }
    Ok(true)
}

impl Shelf {
    ghost use Rattle.std.specs.Prelude.{◌≡◌, IfOk};
    ghost use Rattle.oci_link.specs.Leads.{redirects_lead};

    /// Returns whether the redirects lead: each value is the text of the URL to which it parses, each name has the path
    /// of its value, and at most ten steps of the map lead to a string that is not a name.
    #[tactic(auto, unfolding(crate::specs::Leads::redirects_lead))]
    pub fn redirects_lead(&self, alloc: Global) -> Result<bool, AllocError>
        ensures { IfOk result (λ lead. lead ≡ redirects_lead self.now) }
    {
        let lead = all_lead(alloc, &self.redirects, self.redirects.entries())?;
        Ok(lead)
    }
}
