// Where the image is pushed.
use engine_terms::ClientProtocol;
use json_tables::{Member, ReadError, only, required};
use json_values::Text;
use live_host::is_frame;
use oci_auth::RegistryAuth;
use oci_names::Reference;
use recorded_case::OrUsual;
use serde_json::Value;
use std::alloc::Global;

/// The frame `settings`: where the image is pushed, as whom, and when, with one member for each field, of its name.
#[derive(Drop)]
pub struct Target {
    /// A string that parses as a reference: where the image is pushed.
    pub reference: Reference,
    /// A string that parses as a reference: where a blob of the image is mounted.
    pub other: Reference,
    /// `"anonymous"`, `{"basic": [user, password]}` or `{"bearer": token}`; anonymous if the member is absent.
    pub auth: RegistryAuth,
    /// `"http"` or `"https"`; `https` if the member is absent.
    pub protocol: ClientProtocol,
    /// In seconds since 1970.
    pub moment: u64,
    /// The signature of the manifest that is pushed as bytes, in base64.
    pub signature: Text,
}

fn read_reference(alloc: Global, value: &Value, name: &str) -> Result<Reference, ReadError> {
    let text: Text = required(alloc, value, name)?;
    match Reference::parse(alloc, text.as_str()) {
        Ok(reference) => Ok(reference),
        Err(_) => Err(ReadError::Shape),
    }
}

fn read_target(alloc: Global, value: &Value) -> Result<Target, ReadError> {
    let reference = read_reference(alloc, value, "reference")?;
    let other = read_reference(alloc, value, "other")?;
    let auth: OrUsual<RegistryAuth> = OrUsual::read_member(alloc, value.get("auth"))?;
    let protocol: OrUsual<ClientProtocol> = OrUsual::read_member(alloc, value.get("protocol"))?;
    let moment: u64 = required(alloc, value, "moment")?;
    let signature: Text = required(alloc, value, "signature")?;
    Ok(Target {
        reference,
        other,
        auth: auth.value,
        protocol: protocol.value,
        moment,
        signature,
    })
}

const NAMES: &[&str] = &[
    "frame",
    "reference",
    "other",
    "protocol",
    "auth",
    "moment",
    "signature",
];

/// Reads settings. Returns `Shape` if the value is not a frame with the members of `Target`.
pub fn read_settings(alloc: Global, value: &Value) -> Result<Target, ReadError> {
    only(value, NAMES)?;
    if !is_frame(value, "settings") {
        return Err(ReadError::Shape);
    }
    read_target(alloc, value)
}
