ghost use Rattle.std.specs.Prelude.{◌≡◌};
ghost use Rattle.json_events.specs.Turns.{kept};

use crate::error::CanonError;
use crate::pieces::empty_container;
use crate::spot::Spot;
use crate::state::State;
use json_values::Blob;
use std::alloc::Global;

/// Writes the canonical text of a value that is received as events (RFC 8785, 3.2). Text outside of objects is
/// written at once, that of an object at its end, when all its members are known.
///
/// After a refusal each call returns the first one, and writes nothing.
#[derive(Drop)]
pub struct JcsFormatter {
    pub(crate) alloc: Global,
    pub(crate) refusal: Option<CanonError>,
    pub(crate) state: State,
}

impl JcsFormatter {
    ghost use Rattle.json_events.specs.Drafts.{fresh};
    ghost use Rattle.json_events.specs.Formatters.{stage_of};

    pub fn new(alloc: Global) -> JcsFormatter
        ensures { stage_of result ≡ fresh }
    {
        JcsFormatter {
            alloc,
            refusal: None,
            state: State {
                text: Blob::empty(alloc),
                inner: empty_container(alloc, Spot::Start, false, Blob::empty(alloc)),
                outer: Vec::new(alloc),
            },
        }
    }

    /// Returns the first refusal, if a call was refused.
    pub fn first_refusal(&self) -> Option<CanonError>
        ensures { result ≡ (stage_of self.now).refusal }
    {
        self.refusal
    }

    /// Returns the text so far of the member that is being written in the innermost unclosed object.
    pub fn member_text(&self) -> &[u8]
        ensures { result.now ≡ (stage_of self.now).draft.text }
    {
        self.state.text.as_slice()
    }
}

// Returns the refusal in a result.
pub(crate) fn kept(answer: &Result<(), CanonError>) -> Option<CanonError>
    ensures { result ≡ kept answer.now }
{
    match answer {
        Ok(()) => None,
        Err(refusal) => Some(*refusal),
    }
}
