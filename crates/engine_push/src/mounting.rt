// Mounts blobs of another repository.
ghost use Rattle.std.specs.Prelude.{◌≡◌, [], ◌∷◌, IfOk};
ghost use Rattle.oci_protocol.specs.Runs.{Meets};
ghost use Rattle.engine_terms.specs.Contexts.{context_of};
ghost use Rattle.engine_terms.specs.Error.{is_memory};
ghost use Rattle.push_rows.specs.Calls.{mount_url, mount_blob};

use crate::uploads::sent;
use engine_requests::uploads_url;
use engine_steps::Target;
use engine_terms::{Call, OciDistributionError};
use oci_auth::AuthState;
use oci_names::Reference;
use oci_transport::{Method, Transport};
use push_rows::Content;
use std::alloc::{AllocError, Global};
use url::Url;

fn mount_url(mut url: Url, source: &Reference, digest: &str) -> Result<Url, AllocError>
    ensures { IfOk result (λ made. made ≡ mount_url source.now digest.now url) }
{
    match url.append_query_pairs(&[("mount", digest), ("from", source.repository())]) {
        Ok(()) => Ok(url),
        Err(_) => Err(AllocError),
    }
}

/// Asks the registry to mount a blob of another of its repositories in the image's.
#[tactic(none)]
pub fn mount_blob<T: Transport>(
    alloc: Global,
    transport: &mut T,
    memory: &mut AuthState,
    call: &Call,
    source: &Reference,
    digest: &str,
) -> Result<(), OciDistributionError>
    ensures { Meets is_memory (mount_blob (context_of call.now) call.now.image.now source.now digest.now)
        (T.state transport.old) (T.state transport.new) memory.old memory.new result }
{
    let uploads = uploads_url(alloc, call.settings, call.image)?;
    let url = mount_url(uploads, source, digest)?;
    let target = Target {
        method: Method::Post,
        url: &url,
    };
    sent(
        alloc,
        transport,
        memory,
        call,
        &target,
        Content::Nothing,
        201,
    )?;
    Ok(())
}
