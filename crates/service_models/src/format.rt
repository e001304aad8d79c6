ghost use Rattle.std.specs.Prelude.{◌≡◌, IfOk, Ok};
ghost use Rattle.serde_json.specs.View.{view};
ghost use Rattle.service_models.specs.ModelError.{ReadsModel};
ghost use Rattle.service_models.specs.Format.{known_format, format_text};

use crate::model_error::{ModelError, read_model};
use json_tables::{Member, ReadError, Reads, Writes, present};
use json_values::{Copied, ToValue};
use serde_json::Value;
use std::alloc::{AllocError, Global};

/// The format of a public key for a search in Rekor (its API, `SearchIndex`).
#[derive(Clone, Copy, Debug, PartialEq, Eq)]
pub enum Format {
    Pgp,
    X509,
    Minisign,
    Ssh,
    Tuf,
}

// Returns the format with a text of the table.
#[tactic(auto, unfolding(crate::specs::Format::known_format))]
fn known_format(text: &str) -> Option<Format>
    ensures { result ≡ known_format text.now }
{
    let format = match text {
        "pgp" => Format::Pgp,
        "x509" => Format::X509,
        "minisign" => Format::Minisign,
        "ssh" => Format::Ssh,
        "tuf" => Format::Tuf,
        _ => return None,
    };
    Some(format)
}

// Returns the text of a format.
#[tactic(auto, unfolding(crate::specs::Format::format_text))]
fn format_text(format: &Format) -> &str
    ensures { result.now ≡ format_text format.now }
{
    match format {
        Format::Pgp => "pgp",
        Format::X509 => "x509",
        Format::Minisign => "minisign",
        Format::Ssh => "ssh",
        Format::Tuf => "tuf",
    }
}

impl Format {
    ghost use Rattle.service_models.specs.Format.{format_of};

    /// Reads a format. Returns `Float` if and only if the value is a float, else `Shape` if it is not in the table.
    pub fn read(alloc: Global, value: &Value) -> Result<Format, ModelError>
        ensures { ReadsModel result format_of (view value.now) }
    {
        read_model(alloc, value)
    }
}

impl Reads for Format {
    ghost use Rattle.service_models.specs.Format.{format_of};

    ghost reading = { format_of };

    #[tactic(auto, unfolding(crate::specs::Format::format_of))]
    fn read_value(_alloc: Global, value: &Value) -> Result<Format, ReadError> {
        let Some(text) = value.as_str() else {
            return Err(ReadError::Shape);
        };
        match known_format(text) {
            Some(format) => Ok(format),
            None => Err(ReadError::Shape),
        }
    }
}

impl Member for Format {
    ghost use Rattle.json_tables.specs.Member.{present};
    ghost use Rattle.service_models.specs.Format.{format_of};

    ghost found = { present format_of };

    fn read_member(alloc: Global, member: Option<&Value>) -> Result<Format, ReadError> {
        present(alloc, member)
    }
}

impl Writes for Format {
    ghost use Rattle.service_models.specs.Format.{format_written};

    ghost written = { format_written };

    #[tactic(auto, unfolding(crate::specs::Format::format_written))]
    fn write_value(&self, alloc: Global) -> Result<Value, AllocError> {
        let text = String::from_str(alloc, format_text(self))?;
        Ok(Value::String(text))
    }
}

impl ToValue for Format {
    ghost use Rattle.service_models.specs.Format.{format_of, format_written};

    ghost written = { format_written };

    /// Writes the format. The result round-trips.
    #[tactic(auto, using(json_tables::proofs::Whole::document_again))]
    fn to_value(&self, alloc: Global) -> Result<Value, AllocError>
        ensures exact { IfOk result (λ v. view v ≡ format_written self.now) }
        ensures reads_back { IfOk result (λ v. ReadsModel (Ok self.now) format_of (view v)) }
    {
        let value = self.write_value(alloc)?;
        Ok(value)
    }
}

impl Copied for Format {
    fn copy(&self, _alloc: Global) -> Result<Format, AllocError> {
        Ok(*self)
    }
}
