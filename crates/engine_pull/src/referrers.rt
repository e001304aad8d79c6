// Pulls the referrers of a manifest.
ghost use Rattle.std.specs.Prelude.{◌≡◌, option_copied};
ghost use Rattle.oci_auth.specs.declared.auth_state.AuthState.{AuthState};
ghost use Rattle.oci_protocol.specs.Runs.{Meets};
ghost use Rattle.engine_terms.specs.Contexts.{context_of};
ghost use Rattle.engine_terms.specs.Error.{is_memory};
ghost use Rattle.engine_rows.specs.Referrers.{referrers_asked, referrers_tagged, referrers_by};
ghost use Rattle.engine_rows.specs.Referrers.{pull_referrers};

use crate::documents::manifest_asked;
use engine_answers::{Got, fallback_reference, referrers_in, tagged_index};
use engine_requests::{MANIFEST_TYPES, digest_given, referrers_url};
use engine_steps::{Target, prepared, whole};
use engine_terms::{Call, OciDistributionError};
use oci_auth::{AuthState, RegistryOperation};
use oci_manifests::OciImageIndex;
use oci_transport::{Method, Transport};
use std::alloc::Global;

// Returns the response to the request for the list.
fn referrers_asked<T: Transport>(
    alloc: Global,
    transport: &mut T,
    memory: &mut AuthState,
    call: &Call,
    digest: &str,
    artifact_type: Option<&str>,
) -> Result<Got, OciDistributionError>
    ensures { Meets is_memory
        (referrers_asked (context_of call.now) call.now.image.now digest.now (option_copied artifact_type.entry))
        (T.state transport.old) (T.state transport.new) memory.old memory.new result }
{
    let url = referrers_url(alloc, call.settings, call.image, digest, artifact_type)?;
    let target = Target {
        method: Method::Get,
        url: &url,
    };
    let request = prepared(
        alloc,
        transport,
        memory,
        call,
        RegistryOperation::Pull,
        &target,
        MANIFEST_TYPES,
    )?;
    let got = whole(alloc, transport, 10, &request, call.settings.max_body_bytes)?;
    Ok(got)
}

// Returns the index under the tag that replaces the list.
fn referrers_tagged<T: Transport>(
    alloc: Global,
    transport: &mut T,
    memory: &mut AuthState,
    call: &Call,
    digest: &str,
    artifact_type: Option<&str>,
) -> Result<OciImageIndex, OciDistributionError>
    ensures { Meets is_memory
        (referrers_tagged (context_of call.now) call.now.image.now digest.now (option_copied artifact_type.entry))
        (T.state transport.old) (T.state transport.new) memory.old memory.new result }
{
    let image = fallback_reference(alloc, call.image, digest)?;
    let tag = Call {
        settings: call.settings,
        image: &image,
        moment: call.moment,
    };
    let answer = manifest_asked(alloc, transport, memory, &tag);
    tagged_index(alloc, digest, artifact_type, answer)
}

// Requests the tag if the registry has no such list.
fn referrers_by<T: Transport>(
    alloc: Global,
    transport: &mut T,
    memory: &mut AuthState,
    call: &Call,
    digest: &str,
    artifact_type: Option<&str>,
    got: Got,
) -> Result<OciImageIndex, OciDistributionError>
    ensures { Meets is_memory
        (referrers_by (context_of call.now) call.now.image.now digest.now (option_copied artifact_type.entry) got)
        (T.state transport.old) (T.state transport.new) memory.old memory.new result }
{
    if got.answer.status != 404 {
        let index = referrers_in(alloc, got)?;
        return Ok(index);
    }
    let index = referrers_tagged(alloc, transport, memory, call, digest, artifact_type)?;
    Ok(index)
}

/// Returns the index of the referrers of the image's digest, restricted to an artifact type if one is given. If the
/// registry responds with 404, the tag that replaces the list is requested: if the tag does not exist, the index has no
/// entries; if it holds a manifest, the call returns `ReferrersTag`. `NoDigest` if the reference has no digest.
pub fn pull_referrers<T: Transport>(
    alloc: Global,
    transport: &mut T,
    memory: &mut AuthState,
    call: &Call,
    artifact_type: Option<&str>,
) -> Result<OciImageIndex, OciDistributionError>
    ensures { Meets is_memory
        (pull_referrers (context_of call.now) call.now.image.now (option_copied artifact_type.entry))
        (T.state transport.old) (T.state transport.new) memory.old memory.new result }
{
    let digest = digest_given(alloc, call.image)?;
    let got = referrers_asked(
        alloc,
        transport,
        memory,
        call,
        digest.as_str(),
        artifact_type,
    )?;
    let index = referrers_by(
        alloc,
        transport,
        memory,
        call,
        digest.as_str(),
        artifact_type,
        got,
    )?;
    Ok(index)
}
