// Where an upload continues, as a response states.
ghost use Rattle.std.specs.Prelude.{◌≡◌, IfOk, option_copied};
ghost use Rattle.json_values.specs.Refusals.{Matches};
ghost use Rattle.engine_terms.specs.Error.{is_memory};
ghost use Rattle.push_rows.specs.Locations.{resolved, location_of, located};

use engine_requests::registry_text;
use engine_terms::{Call, OciDistributionError, SpecViolation};
use json_values::{Blob, Text};
use oci_transport::{AnswerHead, header_text};
use std::alloc::{AllocError, Global};

fn resolved(alloc: Global, call: &Call, location: &str) -> Result<Text, AllocError>
    ensures { IfOk result (λ text. text ≡ resolved call.now.settings.now call.now.image.now location.now) }
{
    if location.as_bytes().first() != Some(&b'/') {
        return Text::new(alloc, location);
    }
    let mut text = registry_text(alloc, call.settings, call.image)?;
    text.push_str(location)?;
    Ok(text)
}

fn location_of(
    alloc: Global,
    call: &Call,
    value: Option<&[u8]>,
) -> Result<Text, OciDistributionError>
    ensures { Matches is_memory result
        (location_of call.now.settings.now call.now.image.now (option_copied value.entry)) }
{
    let Some(value) = value else {
        return Err(OciDistributionError::RegistryNoLocationError);
    };
    let Some(location) = header_text(value) else {
        let value = Blob::new(alloc, value)?;
        return Err(OciDistributionError::HeaderValueError(value));
    };
    let location = resolved(alloc, call, location)?;
    Ok(location)
}

/// Returns the location that a response from this URL names, if it has the expected status.
#[tactic(auto, unfolding(push_rows::specs::Locations::located))]
pub(crate) fn located(
    alloc: Global,
    call: &Call,
    expected: u16,
    url: Text,
    head: &AnswerHead,
) -> Result<Text, OciDistributionError>
    ensures { Matches is_memory result (located call.now.settings.now call.now.image.now expected url head.now) }
{
    if head.status != expected {
        return Err(OciDistributionError::SpecViolationError(SpecViolation::Status {
            expected,
            got: head.status,
            url,
        }));
    }
    let location = location_of(alloc, call, head.headers.first("location"))?;
    Ok(location)
}
