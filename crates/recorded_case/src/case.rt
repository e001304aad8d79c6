ghost use Rattle.std.specs.Prelude.{◌≡◌, ◌<◌, IfOk, IfSome, length, option_map};
ghost use Rattle.serde_json.specs.View.{view};
ghost use Rattle.json_values.specs.JsonText.{json_of, plain_json_of};
ghost use Rattle.json_tables.specs.Outcomes.{ReadsTo};
ghost use Rattle.recorded_case.specs.Case.{case_in, case_of, IsReady};

use crate::constraint::WrittenConstraint;
use crate::entries::{Entries, OrUsual};
use crate::members::{Moments, ReferenceText};
use crate::moved::take_registry;
use crate::platform::Platform;
use crate::registry::{Registry, read_registry};
use cosign_parts::{LogKeys, SignedRow, TableJudge};
use engine_terms::ClientProtocol;
use json_tables::{ReadError, Reads, holds_float, only, read_row};
use json_values::{Blob, List, Text, row};
use oci_auth::RegistryAuth;
use oci_manifests::PlatformResolver;
use serde_json::Value;
use std::alloc::{AllocError, Global};

/// A recorded case: a JSON object with exactly one member for each field, of the field's name. Bytes are a string,
/// which means its UTF-8, or `{"base64": text}` with padded standard base64 (RFC 4648, 4).
#[derive(Drop)]
pub struct Case {
    /// A string that parses as a reference.
    pub reference: Text,
    /// `"http"` or `"https"`; `https` if the member is absent.
    pub protocol: ClientProtocol,
    /// `"anonymous"`, `{"basic": [user, password]}` or `{"bearer": token}`; anonymous if the member is absent.
    pub auth: RegistryAuth,
    /// A list of strings, the accepted media types of layers.
    pub accepted: List<Text>,
    /// `"os/architecture"`, split at the first slash, for the first image of an index that is for it, or
    /// `{"digest": text}` for the image of that digest; an index is refused if the member is absent or null.
    pub platform: Option<PlatformResolver>,
    /// Whether the client caches responses between its pulls; false if the member is absent.
    pub caching: bool,
    /// A list with at least one integer, in seconds since 1970: the image is pulled at each.
    pub moments: List<u64>,
    /// The maximum number of bytes of a body that is held; the client's default if the member is absent.
    pub limit: Option<u64>,
    /// A list of bytes, the keys of the policy.
    pub keys: List<Blob>,
    /// The constraints of the policy, a list of `{"annotations": {name: text}}`, `{"email": text, "issuer": text or
    /// null}` and `{"url": text, "issuer": text}`.
    pub constraints: List<WrittenConstraint>,
    /// An object from the ids of transparency logs to bytes, their keys; none if the member is absent.
    pub log_keys: LogKeys,
    /// A list of `{"key": bytes, "message": text, "signature": bytes}`, the signatures that are valid.
    pub signatures: List<SignedRow>,
    /// A list of `{"certificate": bytes, "key": bytes, "email": text, "url": text, "issuer": text}`, the last three of
    /// which may be absent or null: what is vouched for certificates, no two of which are equal; nothing if the member
    /// is absent.
    pub vouched: TableJudge,
    /// The registry's responses: the member `answers` or the member `shelf`, not both.
    pub registry: Registry,
}

const NAMES: &[&str] = &[
    "reference",
    "protocol",
    "auth",
    "accepted",
    "platform",
    "caching",
    "moments",
    "limit",
    "keys",
    "constraints",
    "log_keys",
    "signatures",
    "vouched",
    "answers",
    "shelf",
];

// The members from each one on, in the order of `NAMES`; the registry is read by itself.
type Judge = (OrUsual<TableJudge>, ());

type Signatures = (Entries<SignedRow>, Judge);

type Logs = (OrUsual<LogKeys>, Signatures);

type Constraints = (Entries<WrittenConstraint>, Logs);

type Keys = (List<Blob>, Constraints);

type Limit = (OrUsual<Option<u64>>, Keys);

type Times = (Moments, Limit);

type Caching = (OrUsual<bool>, Times);

type Platforms = (Platform, Caching);

type Accepted = (List<Text>, Platforms);

type Auth = (OrUsual<RegistryAuth>, Accepted);

type Protocol = (OrUsual<ClientProtocol>, Auth);

type Members = (ReferenceText, Protocol);

// The case with these members and this registry.
fn case_with(members: Members, registry: Registry) -> Case
    ensures { result ≡ record {
      reference = members.0;
      protocol = members.1.0;
      auth = members.1.1.0;
      accepted = members.1.1.1.0;
      platform = members.1.1.1.1.0;
      caching = members.1.1.1.1.1.0;
      moments = members.1.1.1.1.1.1.0;
      limit = members.1.1.1.1.1.1.1.0;
      keys = members.1.1.1.1.1.1.1.1.0;
      constraints = members.1.1.1.1.1.1.1.1.1.0;
      log_keys = members.1.1.1.1.1.1.1.1.1.1.0;
      signatures = members.1.1.1.1.1.1.1.1.1.1.1.0;
      vouched = members.1.1.1.1.1.1.1.1.1.1.1.1.0;
      registry = registry;
    } }
{
    let row![
        reference,
        protocol,
        auth,
        accepted,
        platform,
        caching,
        moments,
        limit,
        keys,
        constraints,
        log_keys,
        signatures,
        vouched
    ] = members;
    Case {
        reference: reference.text,
        protocol: protocol.value,
        auth: auth.value,
        accepted,
        platform: platform.resolver,
        caching: caching.value,
        moments: moments.list,
        limit: limit.value,
        keys,
        constraints: constraints.list,
        log_keys: log_keys.value,
        signatures: signatures.list,
        vouched: vouched.value,
        registry,
    }
}

impl Reads for Case {
    ghost reading = { case_of };

    #[tactic(auto, unfolding(crate::specs::Case::case_of))]
    fn read_value(alloc: Global, value: &Value) -> Result<Case, ReadError> {
        only(value, NAMES)?;
        let registry = read_registry(alloc, value)?;
        let members: Members = read_row::<Case, _>(alloc, value, NAMES)?;
        Ok(case_with(members, registry))
    }
}

// Reads a case as `read_value` does, and leaves the value unusable: the bodies of recorded answers are moved out of it.
#[tactic(auto, unfolding(crate::specs::Case::case_of))]
fn take_case(alloc: Global, value: &mut Value) -> Result<Case, ReadError>
    ensures { ReadsTo result (case_of (view value.old)) }
{
    only(value, NAMES)?;
    let members: Members = read_row::<Case, _>(alloc, value, NAMES)?;
    let registry = take_registry(alloc, value)?;
    Ok(case_with(members, registry))
}

// The case in a JSON value without floats.
fn case_of_value(alloc: Global, value: Value) -> Result<Option<Case>, AllocError>
    ensures { IfOk result (λ found. found ≡ case_of (view value)) }
{
    let mut value = value;
    match take_case(alloc, &mut value) {
        Ok(case) => Ok(Some(case)),
        Err(ReadError::Shape) => Ok(None),
        Err(_) => Err(AllocError),
    }
}

// Parses JSON, as `read_json` does.
fn json_value(alloc: Global, bytes: &[u8]) -> Result<Option<Value>, AllocError>
    ensures { IfOk result (λ found. option_map view found ≡ json_of bytes.now) }
{
    match Value::from_slice(alloc, bytes) {
        Ok(value) => Ok(Some(value)),
        Err(error) if error.is_memory() => Err(AllocError),
        Err(_) => Ok(None),
    }
}

// Parses JSON without floats, as `read_plain_json` does.
fn plain_value(alloc: Global, bytes: &[u8]) -> Result<Option<Value>, AllocError>
    ensures { IfOk result (λ found. option_map view found ≡ plain_json_of bytes.now) }
{
    let Some(value) = json_value(alloc, bytes)? else {
        return Ok(None);
    };
    if holds_float(&value) {
        return Ok(None);
    }
    Ok(Some(value))
}

/// Parses a case. Returns `None` if and only if the bytes are not a JSON text (RFC 8259) with at most 127 levels of
/// nesting, contain a float, or are not an object with the members of `Case`.
pub fn read_case(alloc: Global, bytes: &[u8]) -> Result<Option<Case>, AllocError>
    ensures exact { IfOk result (λ found. found ≡ case_in bytes.now) }
    ensures ready { IfOk result (λ found. IfSome found IsReady) }
    ensures timed { IfOk result (λ found. IfSome found (λ case. 0 < length case.moments)) }
{
    let Some(value) = plain_value(alloc, bytes)? else {
        return Ok(None);
    };
    let case = case_of_value(alloc, value)?;
    Ok(case)
}
