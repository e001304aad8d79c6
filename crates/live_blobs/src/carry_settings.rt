// The settings of a carry.
ghost use Rattle.std.specs.Prelude.{◌≡◌, IfOk};
ghost use Rattle.std.specs.Char.{is_ascii_hexdigit};
ghost use Rattle.std.specs.List.{list_all};
ghost use Rattle.json_tables.specs.Member.{present};
ghost use Rattle.serde_json.specs.View.{view};
ghost use Rattle.json_tables.specs.Outcomes.{ReadsTo};
ghost use Rattle.live_blobs.specs.CarrySettings.{AreReady, are_digits, carry_of, digest_of, is_sha256};

use json_tables::{Member, ReadError, Reads, only, present, read_row};
use json_values::{Text, row};
use live_host::is_frame;
use live_pull::TargetSettings;
use serde_json::Value;
use std::alloc::Global;
use std::marker::Model;

/// Which blob is carried, and where to: the frame `carry`, with one member for each field, of the field's name.
#[derive(Drop)]
pub struct CarrySettings {
    pub target: TargetSettings,
    /// The blob's digest, `sha256:` and 64 hexadecimal digits.
    pub digest: Text,
    /// The number of bytes of the blob. A longer one is refused, by its digest if it has at most 1048576 bytes.
    pub size: u64,
    /// When the blob is carried, in seconds since 1970.
    pub moment: u64,
}

const NAMES: &[&str] = &["target", "digest", "size", "moment", "frame"];

// A SHA-256 digest. A contract sees its text.
#[derive(Drop)]
struct DigestText {
    text: Text,
}

impl Model for DigestText {
    ghost use Rattle.std.specs.Prelude.{ℕ, List};

    ghost Value = { List ℕ };

    ghost view = { λ digest. digest.text };
}

fn are_hexadecimal(digits: &[u8]) -> bool
    ensures { result ≡ list_all is_ascii_hexdigit digits.now }
{
    digits.iter().all(|b| b.is_ascii_hexdigit())
}

fn are_digits(digits: &[u8]) -> bool
    ensures { result ≡ are_digits digits.now }
{
    digits.len() == 64 && are_hexadecimal(digits)
}

// Returns whether the text is `sha256:` and 64 hexadecimal digits.
fn is_sha256(text: &str) -> bool
    ensures { result ≡ is_sha256 text.now }
{
    match text.split_once(':') {
        Some((algorithm, digits)) => algorithm == "sha256" && are_digits(digits.as_bytes()),
        None => false,
    }
}

impl Member for DigestText {
    ghost found = { present digest_of };

    #[tactic(auto, unfolding(crate::specs::CarrySettings::digest_of))]
    fn read_member(alloc: Global, member: Option<&Value>) -> Result<DigestText, ReadError> {
        let text: Text = present(alloc, member)?;
        if !is_sha256(text.as_str()) {
            return Err(ReadError::Shape);
        }
        Ok(DigestText { text })
    }
}

type CarryMembers = (TargetSettings, (DigestText, (u64, (u64, ()))));

impl Reads for CarrySettings {
    ghost use Rattle.live_blobs.specs.CarrySettings.{carry_of};

    ghost reading = { carry_of };

    #[tactic(auto, unfolding(crate::specs::CarrySettings::carry_of))]
    fn read_value(alloc: Global, value: &Value) -> Result<CarrySettings, ReadError> {
        only(value, NAMES)?;
        if !is_frame(value, "carry") {
            return Err(ReadError::Shape);
        }
        let row![target, digest, size, moment]: CarryMembers = read_row::<CarrySettings, _>(
            alloc, value, NAMES,
        )?;
        Ok(CarrySettings {
            target,
            digest: digest.text,
            size,
            moment,
        })
    }
}

/// Reads the settings of a carry. Returns `Shape` if and only if the value is not a frame `carry` with the members of
/// `CarrySettings`.
pub fn read_carry_settings(alloc: Global, value: &Value) -> Result<CarrySettings, ReadError>
    ensures exact { ReadsTo result (carry_of (view value.now)) }
    ensures ready { IfOk result AreReady }
{
    let settings: CarrySettings = Reads::read_value(alloc, value)?;
    Ok(settings)
}
