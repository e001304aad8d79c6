// The target of a copy, as its frames name it.
ghost use Rattle.json_tables.specs.Member.{present};

use engine_terms::ClientProtocol;
use json_tables::{Member, ReadError, Reads, only, present, read_row};
use json_values::{Text, row};
use oci_auth::RegistryAuth;
use recorded_case::{OrUsual, ReferenceText};
use serde_json::Value;
use std::alloc::Global;

/// Where a copy goes: an object with one member for each field, of the field's name.
#[derive(Drop)]
pub struct TargetSettings {
    /// A string that parses as a reference.
    pub reference: Text,
    /// `"http"` or `"https"`; `https` if the member is absent.
    pub protocol: ClientProtocol,
    /// `"anonymous"`, `{"basic": [user, password]}` or `{"bearer": token}`; anonymous if the member is absent.
    pub auth: RegistryAuth,
}

const TARGET_NAMES: &[&str] = &["reference", "protocol", "auth"];

type TargetMembers = (
    ReferenceText,
    (OrUsual<ClientProtocol>, (OrUsual<RegistryAuth>, ())),
);

impl Reads for TargetSettings {
    ghost use Rattle.live_pull.specs.Target.{target_of};

    ghost reading = { target_of };

    #[tactic(auto, unfolding(crate::specs::Target::target_of))]
    fn read_value(alloc: Global, value: &Value) -> Result<TargetSettings, ReadError> {
        only(value, TARGET_NAMES)?;
        let row![reference, protocol, auth]: TargetMembers = read_row::<TargetSettings, _>(
            alloc,
            value,
            TARGET_NAMES,
        )?;
        Ok(TargetSettings {
            reference: reference.text,
            protocol: protocol.value,
            auth: auth.value,
        })
    }
}

impl Member for TargetSettings {
    ghost use Rattle.live_pull.specs.Target.{target_of};

    ghost found = { present target_of };

    fn read_member(alloc: Global, member: Option<&Value>) -> Result<TargetSettings, ReadError> {
        present(alloc, member)
    }
}
