ghost use Rattle.std.specs.Prelude.{◌≡◌, IfOk, Ok, None};
ghost use Rattle.serde_json.specs.View.{view};
ghost use Rattle.service_models.specs.ModelError.{ReadsModel};

use crate::format::Format;
use crate::model_error::{ModelError, read_model};
use json_tables::{ReadError, Reads, Required, Writes, object, read_row};
use json_values::{Copied, Text, ToValue, copied, row};
use serde_json::Value;
use std::alloc::{AllocError, Global};

/// A public key for a search in Rekor (its API, `SearchIndex`).
#[derive(Debug, Drop)]
pub struct SearchIndexPublicKey {
    pub format: Format,
    /// The key itself.
    pub content: Option<Text>,
    /// The URL of the key.
    pub url: Option<Text>,
}

impl SearchIndexPublicKey {
    ghost use Rattle.service_models.specs.PublicKey.{public_key_of};

    /// Creates a key with this format, without content and URL.
    pub fn new(format: Format) -> SearchIndexPublicKey
        ensures { result ≡ record { format = format; content = None; url = None } }
    {
        SearchIndexPublicKey {
            format,
            content: None,
            url: None,
        }
    }

    /// Reads a key. Returns `Float` if and only if it contains a float, otherwise `Shape` if it does not match.
    pub fn read(alloc: Global, value: &Value) -> Result<SearchIndexPublicKey, ModelError>
        ensures { ReadsModel result public_key_of (view value.now) }
    {
        read_model(alloc, value)
    }
}

impl Reads for SearchIndexPublicKey {
    ghost use Rattle.service_models.specs.PublicKey.{public_key_of};

    ghost reading = { public_key_of };

    #[tactic(auto, unfolding(crate::specs::PublicKey::public_key_of))]
    fn read_value(alloc: Global, value: &Value) -> Result<SearchIndexPublicKey, ReadError> {
        let row![format, content, url] = read_row::<Self, _>(
            alloc,
            value,
            &["format", "content", "url"],
        )?;
        Ok(SearchIndexPublicKey {
            format,
            content,
            url,
        })
    }
}

impl Writes for SearchIndexPublicKey {
    ghost use Rattle.service_models.specs.PublicKey.{public_key_written};

    ghost written = { public_key_written };

    #[tactic(auto, unfolding(crate::specs::PublicKey::public_key_written))]
    fn write_value(&self, alloc: Global) -> Result<Value, AllocError> {
        let value = object!(alloc, {
            "format": &Required(&self.format),
            "content": &self.content,
            "url": &self.url,
        })?;
        Ok(value)
    }
}

impl ToValue for SearchIndexPublicKey {
    ghost use Rattle.service_models.specs.PublicKey.{public_key_of, public_key_written};

    ghost written = { public_key_written };

    /// Writes the key without its members that are `None`. The result round-trips.
    #[tactic(auto, using(json_tables::proofs::Whole::document_again))]
    fn to_value(&self, alloc: Global) -> Result<Value, AllocError>
        ensures exact { IfOk result (λ v. view v ≡ public_key_written self.now) }
        ensures reads_back { IfOk result (λ v. ReadsModel (Ok self.now) public_key_of (view v)) }
    {
        let value = self.write_value(alloc)?;
        Ok(value)
    }
}

impl Copied for SearchIndexPublicKey {
    fn copy(&self, alloc: Global) -> Result<SearchIndexPublicKey, AllocError> {
        copied!(
            alloc,
            self,
            SearchIndexPublicKey {
                format,
                content,
                url
            }
        )
    }
}
