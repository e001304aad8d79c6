// The input of `mirror`.
ghost use Rattle.std.specs.Prelude.{◌≡◌, IfOk, IfSome, length};
ghost use Rattle.serde_json.specs.View.{view};
ghost use Rattle.json_tables.specs.Outcomes.{ReadsTo};
ghost use Rattle.pull_run.specs.MirrorInput.{has_one, mirror_input_in, source_of, once_only, IsForMirror};

use engine_terms::ClientProtocol;
use json_tables::{ReadError, Reads, only, read_plain, read_row, required};
use json_values::{List, Text, row};
use oci_auth::RegistryAuth;
use oci_transport::Recorded;
use recorded_case::{Case, Entries, OrUsual, ReferenceText};
use serde_json::Value;
use std::alloc::{AllocError, Global};

/// The registry that an image is mirrored to: an object with the members `reference`, `protocol`, `auth` and `answers`,
/// each as in a case.
#[derive(Drop)]
pub struct Target {
    /// A string that parses as a reference.
    pub reference: Text,
    /// `"http"` or `"https"`; `https` if the member is absent.
    pub protocol: ClientProtocol,
    /// `"anonymous"`, `{"basic": [user, password]}` or `{"bearer": token}`; anonymous if the member is absent.
    pub auth: RegistryAuth,
    /// A list of the registry's answers, in order.
    pub answers: List<Recorded>,
}

/// An image, and where it is mirrored to: `{"case": case, "target": target}`. The case has one moment.
#[derive(Drop)]
pub struct MirrorInput {
    pub case: Case,
    pub target: Target,
}

const NAMES: &[&str] = &["reference", "protocol", "auth", "answers"];

// The members from each one on, in the order of `NAMES`.
type Answers = (Entries<Recorded>, ());

type Auth = (OrUsual<RegistryAuth>, Answers);

type Protocol = (OrUsual<ClientProtocol>, Auth);

type Members = (ReferenceText, Protocol);

impl Reads for Target {
    ghost use Rattle.pull_run.specs.MirrorInput.{target_of};

    ghost reading = { target_of };

    #[tactic(auto, unfolding(crate::specs::MirrorInput::target_of))]
    fn read_value(alloc: Global, value: &Value) -> Result<Target, ReadError> {
        only(value, NAMES)?;
        let row![reference, protocol, auth, answers]: Members = read_row::<Target, _>(
            alloc, value, NAMES,
        )?;
        Ok(Target {
            reference: reference.text,
            protocol: protocol.value,
            auth: auth.value,
            answers: answers.list,
        })
    }
}

fn has_one(moments: &[u64]) -> bool
    ensures { result ≡ has_one moments.now }
{
    matches!(moments, [_])
}

// Accepts a case with one moment.
fn once_only(case: Case) -> Result<Case, ReadError>
    ensures { ReadsTo result (once_only case) }
{
    if !has_one(case.moments.as_slice()) {
        return Err(ReadError::Shape);
    }
    Ok(case)
}

#[tactic(auto, unfolding(crate::specs::MirrorInput::source_of))]
fn read_source(alloc: Global, value: &Value) -> Result<Case, ReadError>
    ensures { ReadsTo result (source_of (view value.now)) }
{
    let case = Reads::read_value(alloc, value)?;
    once_only(case)
}

impl Reads for MirrorInput {
    ghost use Rattle.pull_run.specs.MirrorInput.{mirror_input_of};

    ghost reading = { mirror_input_of };

    #[tactic(auto, unfolding(crate::specs::MirrorInput::mirror_input_of))]
    fn read_value(alloc: Global, value: &Value) -> Result<MirrorInput, ReadError> {
        only(value, &["case", "target"])?;
        let target: Target = required(alloc, value, "target")?;
        let Some(case) = value.get("case") else {
            return Err(ReadError::Shape);
        };
        let case = read_source(alloc, case)?;
        Ok(MirrorInput { case, target })
    }
}

/// Parses a case with a target. Returns `None` if and only if the bytes are not a JSON text (RFC 8259) with at most 127
/// levels of nesting, contain a float, or are not an object of a case with one moment and a target.
pub fn read_mirror_input(alloc: Global, bytes: &[u8]) -> Result<Option<MirrorInput>, AllocError>
    ensures exact { IfOk result (λ found. found ≡ mirror_input_in bytes.now) }
    ensures ready { IfOk result (λ found. IfSome found IsForMirror) }
{
    let input = read_plain(alloc, bytes)?;
    Ok(input)
}
