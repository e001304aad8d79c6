ghost use Rattle.std.specs.Prelude.{◌≡◌};
ghost use Rattle.serde_json.specs.View.{view};

use crate::copied::Copied;
use serde_json::Value;
use std::alloc::{AllocError, Global};
use std::marker::Model;

/// A JSON value. A contract sees its data.
#[derive(Debug, Drop)]
pub struct Json {
    inner: Value,
}

impl Model for Json {
    ghost use Rattle.serde_json.specs.Data.{Data};
    ghost use Rattle.serde_json.specs.View.{view as data_of};
    ghost use Rattle.json_values.specs.Coding.{coded_data};

    ghost Value = { Data };

    ghost coded = { coded_data };

    ghost view = { λ j. data_of j.inner };
}

impl Json {
    /// Wraps the value unchanged.
    pub fn new(value: Value) -> Json
        ensures { result ≡ view value }
    {
        Json { inner: value }
    }

    /// Returns the value.
    pub fn value(&self) -> &Value
        ensures { view result.now ≡ self.now }
    {
        &self.inner
    }
}

impl Copied for Json {
    fn copy(&self, _alloc: Global) -> Result<Json, AllocError> {
        Ok(Json {
            inner: self.inner.clone()?,
        })
    }
}
