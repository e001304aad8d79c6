// The response to a review.
ghost use Rattle.std.specs.Prelude.{◌≡◌, ◌↔◌, ◌&&◌, length, true, All, IfOk, OnOk, IsTrue, ⊤, Option, option_map};
ghost use Rattle.pod_reviews.specs.Pins.{EachPins, PatchOf, pins_if};
ghost use Rattle.pod_reviews.specs.Verdicts.{IsAllowed, Responds, all_allowed, json_patch, message, outcome_data};
ghost use Rattle.pod_reviews.specs.Verdicts.{response_data, status_if};

use crate::message::message;
use crate::pins::{patch_of, pins};
use crate::places::PlacedImage;
use crate::pod::PodReview;
use crate::verdict::{Verdict, all_allowed};
use json_canon::to_string;
use json_tables::{Field, Required, object};
use json_values::{Json, List, Text};
use serde_json::{Map, Value, put};
use std::alloc::{AllocError, Global};

// The member `status`, which is absent if everything is allowed.
#[derive(Drop)]
struct Status<'a> {
    allowed: bool,
    message: &'a Text,
}

impl<'a> Field for Status<'a> {
    ghost field = { λ status. status_if status.allowed status.message.now };

    ghost Known = { λ _. ⊤ };

    fn put_in(
        &self,
        alloc: Global,
        members: &mut Map<String, Value>,
        name: &str,
    ) -> Result<(), AllocError> {
        if self.allowed {
            return Ok(());
        }
        let value = object!(alloc, { "message": self.message })?;
        put(members, alloc, name, value)
    }
}

// The member `patchType`, which is absent without a patch.
#[derive(Drop)]
struct PatchType<'a> {
    patch: &'a Option<Text>,
}

impl<'a> Field for PatchType<'a> {
    ghost field = { λ type. option_map json_patch type.patch.now };

    ghost Known = { λ _. ⊤ };

    fn put_in(
        &self,
        alloc: Global,
        members: &mut Map<String, Value>,
        name: &str,
    ) -> Result<(), AllocError> {
        match self.patch {
            None => Ok(()),
            Some(_) => {
                let text = String::from_str(alloc, "JSONPatch")?;
                put(members, alloc, name, Value::String(text))
            }
        }
    }
}

// The member `response`.
fn outcome(
    alloc: Global,
    review: &PodReview,
    verdicts: &[Verdict],
    patch: &Option<Text>,
) -> Result<Json, AllocError>
    ensures { IfOk result (λ json. json ≡ outcome_data (all_allowed verdicts.now) patch.now
        (message review.now.images verdicts.now) review.now.uid) }
{
    let allowed = all_allowed(verdicts);
    let message = message(alloc, review.images.as_slice(), verdicts)?;
    let value = object!(alloc, {
        "allowed": &Required(&allowed),
        "patch": patch,
        "patchType": &PatchType { patch },
        "status": &Status { allowed, message: &message },
        "uid": &review.uid,
    })?;
    Ok(Json::new(value))
}

fn response_json(
    alloc: Global,
    review: &PodReview,
    verdicts: &[Verdict],
    patch: &Option<Text>,
) -> Result<Json, AllocError>
    ensures { IfOk result (λ json. json ≡ response_data review.now verdicts.now patch.now) }
{
    let outcome = outcome(alloc, review, verdicts, patch)?;
    let value = object!(alloc, {
        "apiVersion": &"admission.k8s.io/v1",
        "kind": &"AdmissionReview",
        "response": &outcome,
    })?;
    Ok(Json::new(value))
}

// The patch, if one is asked for.
fn patch_if(
    alloc: Global,
    asked: bool,
    images: &[PlacedImage],
    verdicts: &[Verdict],
) -> Result<Option<Text>, AllocError>
    ensures patch { IfOk result (λ patch. PatchOf (pins_if asked images.now verdicts.now) patch) }
    ensures means { OnOk result (IsTrue asked → EachPins images.now verdicts.now) }
{
    if !asked {
        return Ok(None);
    }
    let pins = pins(alloc, images, verdicts)?;
    let patch = patch_of(alloc, &pins)?;
    Ok(patch)
}

/// Returns the response to a review, an `AdmissionReview` as canonical JSON (RFC 8785): `response.allowed` is true if
/// and only if every verdict is `Allowed`; otherwise `response.status.message` has, for each denied image, its name,
/// `: ` and the cause on one line, separated by `; `. There is one verdict for each image, in order. If `mutate`, and
/// all images are allowed, `response.patch` is the base64 of a JSON Patch (RFC 6902) that puts, in place of the text of
/// each image without a digest, its whole text with the digest.
///
/// Returns an error if memory runs out.
pub fn respond_verdicts(
    alloc: Global,
    review: &PodReview,
    verdicts: &List<Verdict>,
    mutate: bool,
) -> Result<Text, AllocError>
    requires { length verdicts.now ≡ length review.now.images }
    ensures text { IfOk result (λ text. Responds mutate review.now verdicts.now text) }
    ensures allowed { (all_allowed verdicts.now ≡ true) ↔ All IsAllowed verdicts.now }
    ensures pinned { OnOk result (IsTrue (mutate && all_allowed verdicts.now)
        → EachPins review.now.images verdicts.now) }
{
    let asked = mutate && all_allowed(verdicts.as_slice());
    let patch = patch_if(alloc, asked, review.images.as_slice(), verdicts.as_slice())?;
    let json = response_json(alloc, review, verdicts.as_slice(), &patch)?;
    // It holds no number, so that only memory may be wanting.
    match to_string(alloc, &json) {
        Ok(text) => Ok(text),
        Err(_) => Err(AllocError),
    }
}
