// The settings of a live pull.
ghost use Rattle.std.specs.Prelude.{IfOk};
ghost use Rattle.serde_json.specs.View.{view};
ghost use Rattle.json_tables.specs.Outcomes.{ReadsTo};
ghost use Rattle.live_pull.specs.Settings.{settings_of, documents_of, IsReady};

use crate::keys::{KeyList, KeyMap};
use crate::statements::{StatementTypes, with_statements};
use cosign_parts::LogKeys;
use engine_terms::ClientProtocol;
use json_tables::{ReadError, Reads, only, read_row};
use json_values::{Blob, List, Text, row};
use live_host::is_frame;
use oci_auth::RegistryAuth;
use oci_manifests::PlatformResolver;
use recorded_case::{Entries, OrUsual, Platform, ReferenceText, WrittenConstraint};
use serde_json::Value;
use std::alloc::Global;

/// What to pull, under which policy: the frame `settings`, with one member for each field, of the field's name, and
/// `statements`.
#[derive(Drop)]
pub struct LiveSettings {
    /// A string that parses as a reference.
    pub reference: Text,
    /// `"http"` or `"https"`; `https` if the member is absent.
    pub protocol: ClientProtocol,
    /// `"anonymous"`, `{"basic": [user, password]}` or `{"bearer": token}`; anonymous if the member is absent.
    pub auth: RegistryAuth,
    /// A list of strings, the accepted media types of layers.
    pub accepted: List<Text>,
    /// `"os/architecture"` or `{"digest": text}`; an index is refused if the member is absent or null.
    pub platform: Option<PlatformResolver>,
    /// When the image is pulled, in seconds since 1970.
    pub moment: u64,
    /// The maximum number of bytes of a body that is held; the client's default if the member is absent.
    pub limit: Option<u64>,
    /// A list of base64 strings, the keys of the policy.
    pub keys: List<Blob>,
    /// The constraints of the policy, written as in a recorded case, and the one that the member `statements`, a list
    /// of strings, states, if it is present: which types the predicate of a bundle's statement may have.
    pub constraints: List<WrittenConstraint>,
    /// An object from the ids of transparency logs to base64 strings, their keys; none if the member is absent.
    pub log_keys: LogKeys,
    /// Whether the blobs of layers are sent.
    pub blobs: bool,
}

const NAMES: &[&str] = &[
    "reference",
    "protocol",
    "auth",
    "accepted",
    "platform",
    "moment",
    "limit",
    "keys",
    "constraints",
    "log_keys",
    "statements",
    "blobs",
    "frame",
];

const DOCUMENT_NAMES: &[&str] = &[
    "reference",
    "protocol",
    "auth",
    "accepted",
    "platform",
    "moment",
    "limit",
    "keys",
    "constraints",
    "log_keys",
    "statements",
    "frame",
];

// The members from each one on, in the order of `NAMES`; the frame's name is read by itself.
type Blobs = (bool, ());

type Statements<R> = (StatementTypes, R);

type Logs<R> = (KeyMap, Statements<R>);

type Constraints<R> = (Entries<WrittenConstraint>, Logs<R>);

type Keys<R> = (KeyList, Constraints<R>);

type Limit<R> = (OrUsual<Option<u64>>, Keys<R>);

type Moment<R> = (u64, Limit<R>);

type Platforms<R> = (Platform, Moment<R>);

type Accepted<R> = (List<Text>, Platforms<R>);

type Auth<R> = (OrUsual<RegistryAuth>, Accepted<R>);

type Protocol<R> = (OrUsual<ClientProtocol>, Auth<R>);

type Members<R> = (ReferenceText, Protocol<R>);

impl Reads for LiveSettings {
    ghost use Rattle.live_pull.specs.Settings.{settings_of};

    ghost reading = { settings_of };

    #[tactic(auto, unfolding(crate::specs::Settings::settings_of))]
    fn read_value(alloc: Global, value: &Value) -> Result<LiveSettings, ReadError> {
        only(value, NAMES)?;
        if !is_frame(value, "settings") {
            return Err(ReadError::Shape);
        }
        let row![
            reference,
            protocol,
            auth,
            accepted,
            platform,
            moment,
            limit,
            keys,
            constraints,
            log_keys,
            statements,
            blobs
        ]: Members<Blobs> = read_row::<LiveSettings, _>(alloc, value, NAMES)?;
        let constraints = with_statements(alloc, constraints.list, statements.types)?;
        Ok(LiveSettings {
            reference: reference.text,
            protocol: protocol.value,
            auth: auth.value,
            accepted,
            platform: platform.resolver,
            moment,
            limit: limit.value,
            keys: keys.list,
            constraints,
            log_keys: log_keys.map,
            blobs,
        })
    }
}

/// Reads settings. Returns `Shape` if and only if the value is not a frame with the members of `LiveSettings`.
pub fn read_settings(alloc: Global, value: &Value) -> Result<LiveSettings, ReadError>
    ensures exact { ReadsTo result (settings_of (view value.now)) }
    ensures ready { IfOk result IsReady }
{
    let settings = LiveSettings::read_value(alloc, value)?;
    Ok(settings)
}

// The settings in the frame `documents`.
#[tactic(auto, unfolding(crate::specs::Settings::documents_of))]
fn document_settings(alloc: Global, value: &Value) -> Result<LiveSettings, ReadError>
    ensures { ReadsTo result (documents_of (view value.now)) }
{
    only(value, DOCUMENT_NAMES)?;
    if !is_frame(value, "documents") {
        return Err(ReadError::Shape);
    }
    let row![
        reference,
        protocol,
        auth,
        accepted,
        platform,
        moment,
        limit,
        keys,
        constraints,
        log_keys,
        statements
    ]: Members<()> = read_row::<LiveSettings, _>(alloc, value, DOCUMENT_NAMES)?;
    let constraints = with_statements(alloc, constraints.list, statements.types)?;
    Ok(LiveSettings {
        reference: reference.text,
        protocol: protocol.value,
        auth: auth.value,
        accepted,
        platform: platform.resolver,
        moment,
        limit: limit.value,
        keys: keys.list,
        constraints,
        log_keys: log_keys.map,
        blobs: false,
    })
}

/// Reads the settings of a pull of documents, of which no blob is sent: the frame `documents`, with the members of
/// `settings` but `blobs`. Returns `Shape` if and only if the value is not such a frame.
pub fn read_document_settings(alloc: Global, value: &Value) -> Result<LiveSettings, ReadError>
    ensures exact { ReadsTo result (documents_of (view value.now)) }
    ensures ready { IfOk result IsReady }
{
    let settings = document_settings(alloc, value)?;
    Ok(settings)
}
