// Requests lists of tags and of repositories.
ghost use Rattle.std.specs.Prelude.{option_copied};
ghost use Rattle.oci_protocol.specs.Runs.{Meets};
ghost use Rattle.engine_terms.specs.Contexts.{context_of};
ghost use Rattle.json_values.specs.Refusals.{Matches};
ghost use Rattle.engine_terms.specs.Error.{is_memory};
ghost use Rattle.engine_pull.specs.Listings.{list_asked, list_in, list_tags, catalog};

use crate::addresses::{catalog_text, tags_text, with_page};
use crate::requests::bare;
use engine_answers::accepted;
use engine_requests::read_url;
use engine_steps::whole;
use engine_terms::{Call, OciDistributionError};
use json_tables::{Reads, read_plain};
use json_values::Blob;
use oci_auth::{AuthState, RegistryAuth, store};
use oci_docs::{CatalogResponse, TagResponse};
use oci_transport::{Method, Transport};
use std::alloc::Global;
use url::Url;

// Returns the body of the response for this URL.
#[tactic(none)]
fn list_asked<T: Transport>(
    alloc: Global,
    transport: &mut T,
    memory: &mut AuthState,
    call: &Call,
    url: &Url,
) -> Result<Blob, OciDistributionError>
    ensures { Meets is_memory (list_asked (context_of call.now) call.now.image.now url.now)
        (T.state transport.old) (T.state transport.new) memory.old memory.new result }
{
    let request = bare(alloc, transport, memory, call, Method::Get, url)?;
    let got = whole(alloc, transport, 10, &request, call.settings.max_body_bytes)?;
    let answer = accepted(alloc, 200, got)?;
    Ok(answer.body)
}

// Reads a list from a body: `ManifestEncodingError` if it is not UTF-8, `JsonError` if the list's table does not match.
#[tactic(auto, using(crate::proofs::Encodings::text_read, crate::proofs::Encodings::other_read))]
fn list_in<R: Reads + Drop>(alloc: Global, body: Blob) -> Result<R, OciDistributionError>
    ensures { Matches is_memory result (list_in R.reading body) }
{
    match str::from_utf8(body.as_slice()) {
        Ok(_) => match read_plain(alloc, body.as_slice())? {
            Some(list) => Ok(list),
            None => Err(OciDistributionError::JsonError(body)),
        },
        Err(_) => Err(OciDistributionError::ManifestEncodingError(body)),
    }
}

/// Returns the tags of the image's repository, after storing the credentials unless some are stored for the registry
/// already: at most `n` of them, after the one named `last`, if the registry heeds this.
///
/// `ManifestEncodingError` if the response's body is not UTF-8, `JsonError` if it is not a list of tags.
#[tactic(none)]
pub fn list_tags<T: Transport>(
    alloc: Global,
    transport: &mut T,
    memory: &mut AuthState,
    call: &Call,
    auth: &RegistryAuth,
    n: Option<usize>,
    last: Option<&str>,
) -> Result<TagResponse, OciDistributionError>
    ensures { Meets is_memory
        (list_tags (context_of call.now) call.now.image.now auth.now n (option_copied last.entry))
        (T.state transport.old) (T.state transport.new) memory.old memory.new result }
{
    store(alloc, memory, call.image.resolve_registry(), auth)?;
    let text = tags_text(alloc, call)?;
    let read = read_url(alloc, text)?;
    let url = with_page(alloc, read, n, last)?;
    let body = list_asked(alloc, transport, memory, call, &url)?;
    let tags = list_in(alloc, body)?;
    Ok(tags)
}

/// Returns the repositories of the image's registry, after storing the credentials unless some are stored for the
/// registry already: at most `n` of them, after the one named `last`, if the registry heeds this.
///
/// `ManifestEncodingError` if the response's body is not UTF-8, `JsonError` if it is not a list of repositories.
#[tactic(none)]
pub fn catalog<T: Transport>(
    alloc: Global,
    transport: &mut T,
    memory: &mut AuthState,
    call: &Call,
    auth: &RegistryAuth,
    n: Option<usize>,
    last: Option<&str>,
) -> Result<CatalogResponse, OciDistributionError>
    ensures { Meets is_memory
        (catalog (context_of call.now) call.now.image.now auth.now n (option_copied last.entry))
        (T.state transport.old) (T.state transport.new) memory.old memory.new result }
{
    store(alloc, memory, call.image.resolve_registry(), auth)?;
    let text = catalog_text(alloc, call)?;
    let read = read_url(alloc, text)?;
    let url = with_page(alloc, read, n, last)?;
    let body = list_asked(alloc, transport, memory, call, &url)?;
    let repositories = list_in(alloc, body)?;
    Ok(repositories)
}
