// The first frame: the rules, and how many reviews come.
ghost use Rattle.std.specs.Prelude.{◌≡◌, IfOk};
ghost use Rattle.serde_json.specs.View.{view};
ghost use Rattle.json_tables.specs.Outcomes.{ReadsTo};
ghost use Rattle.live_admit.specs.Settings.{admit_of, settings_for};

use crate::Rule;
use json_tables::{ReadError, Reads, only, required};
use json_values::{Copied, List, Text, copy_all, row};
use live_host::is_frame;
use live_pull::LiveSettings;
use serde_json::Value;
use std::alloc::{AllocError, Global};

/// The frame `admit`.
#[derive(Drop)]
pub struct AdmitSettings {
    /// How many reviews come before the program ends.
    pub reviews: u64,
    /// The first rule that covers an image counts. The images under it are decided by its settings, the frame
    /// `settings`, of which the reference, the moment and `blobs` play no role.
    pub rules: List<Rule<LiveSettings>>,
}

impl Reads for AdmitSettings {
    ghost use Rattle.live_admit.specs.Settings.{admit_of};

    ghost reading = { admit_of };

    #[tactic(auto, unfolding(crate::specs::Settings::admit_of))]
    fn read_value(alloc: Global, value: &Value) -> Result<AdmitSettings, ReadError> {
        only(value, &["frame", "reviews", "rules"])?;
        if !is_frame(value, "admit") {
            return Err(ReadError::Shape);
        }
        let reviews = required(alloc, value, "reviews")?;
        let rules = required(alloc, value, "rules")?;
        Ok(AdmitSettings { reviews, rules })
    }
}

/// Reads the frame `admit`. Returns `Shape` if and only if the value is not such a frame.
pub fn read_admit_settings(alloc: Global, value: &Value) -> Result<AdmitSettings, ReadError>
    ensures exact { ReadsTo result (admit_of (view value.now)) }
{
    AdmitSettings::read_value(alloc, value)
}

/// Returns the settings of a rule for an image and a moment.
pub(crate) fn settings_for(
    alloc: Global,
    settings: &LiveSettings,
    image: &Text,
    moment: u64,
) -> Result<LiveSettings, AllocError>
    ensures { IfOk result (λ found. found ≡ settings_for settings.now image.now moment) }
{
    let row![
        reference,
        protocol,
        auth,
        accepted,
        platform,
        limit,
        keys,
        constraints,
        log_keys
    ] = copy_all(
        alloc,
        row!(
            image,
            &settings.protocol,
            &settings.auth,
            &settings.accepted,
            &settings.platform,
            &settings.limit,
            &settings.keys,
            &settings.constraints,
            &settings.log_keys
        ),
    )?;
    Ok(LiveSettings {
        reference,
        protocol,
        auth,
        accepted,
        platform,
        moment,
        limit,
        keys,
        constraints,
        log_keys,
        blobs: settings.blobs,
    })
}
