ghost use Rattle.serde_json.specs.View.{view};
ghost use Rattle.service_models.specs.ModelError.{ReadsModel};

use json_tables::{ReadError, Reads, read_document};
use json_values::Copied;
use serde_json::Value;
use std::alloc::{AllocError, Global};
use thiserror::Error;

/// Why a value is not the model.
#[derive(Clone, Copy, Debug, PartialEq, Eq, Error)]
pub enum ModelError {
    /// The value contains a float.
    #[error("the value contains a float: write its numbers as integers")]
    Float,
    /// The value does not match its table.
    #[error("the value does not match the model: compare their members")]
    Shape,
    /// The allocator is out of memory.
    #[error("out of memory: free some and try again")]
    WantOfMemory,
}

impl Copied for ModelError {
    fn copy(&self, _alloc: Global) -> Result<ModelError, AllocError> {
        Ok(*self)
    }
}

impl From<AllocError> for ModelError {
    ghost use Rattle.std.specs.Prelude.{◌≡◌};
    ghost use Rattle.service_models.specs.declared.model_error.ModelError.TheVariants.{WantOfMemory};

    ghost from_gives = { λ _ e. e ≡ WantOfMemory };

    fn from(_error: AllocError) -> ModelError {
        ModelError::WantOfMemory
    }
}

// Reads a model by its table.
pub(crate) fn read_model<T: Reads + Drop>(alloc: Global, value: &Value) -> Result<T, ModelError>
    ensures { ReadsModel result T.reading (view value.now) }
{
    match read_document(alloc, value) {
        Ok(model) => Ok(model),
        Err(ReadError::Float) => Err(ModelError::Float),
        Err(ReadError::Shape) => Err(ModelError::Shape),
        Err(ReadError::Ambiguous) => unreachable!(),
        Err(ReadError::WantOfMemory) => Err(ModelError::WantOfMemory),
    }
}
