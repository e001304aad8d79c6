use json_values::Copied;
use std::alloc::{AllocError, AllocFailed, Global};
use thiserror::Error;

/// Why a value, a text or an event has no canonical text (RFC 8785).
#[derive(Clone, Copy, Debug, PartialEq, Eq, Error)]
pub enum CanonError {
    /// The value contains a float.
    #[error("a float has no canonical text here: use integers or strings")]
    Float,
    /// The value contains an integer of a magnitude greater than 9007199254740991.
    #[error("an integer has a magnitude greater than 9007199254740991: write it as a string")]
    IntegerOutOfRange,
    /// An object has a duplicate name.
    #[error("an object has a duplicate name: use each name once")]
    DuplicateKey,
    /// A fragment of JSON was to be written verbatim.
    #[error("a raw fragment has no canonical text: pass its value")]
    RawFragment,
    /// The event is not part of a value at this place.
    #[error("the event is not valid at this place: begin arrays, objects and members before their contents")]
    NotWellNested,
    /// The text is not JSON.
    #[error("the text is not JSON: pass one JSON value")]
    Unreadable,
    /// The sink failed.
    #[error("the sink failed after a prefix of the text: write the value again to another sink")]
    SinkFault,
    #[error("out of memory: free some and try again")]
    WantOfMemory,
}

impl Copied for CanonError {
    fn copy(&self, _alloc: Global) -> Result<CanonError, AllocError> {
        Ok(*self)
    }
}

impl From<AllocError> for CanonError {
    ghost use Rattle.std.specs.Prelude.{◌≡◌};
    ghost use Rattle.json_events.specs.declared.error.CanonError.TheVariants.{WantOfMemory};

    ghost from_gives = { λ _ e. e ≡ WantOfMemory };

    fn from(_error: AllocError) -> CanonError {
        CanonError::WantOfMemory
    }
}

impl<T: Drop> From<AllocFailed<T>> for CanonError {
    ghost use Rattle.std.specs.Prelude.{◌≡◌};
    ghost use Rattle.json_events.specs.declared.error.CanonError.TheVariants.{WantOfMemory};

    ghost from_gives = { λ _ e. e ≡ WantOfMemory };

    fn from(_error: AllocFailed<T>) -> CanonError {
        CanonError::WantOfMemory
    }
}
