// Writes text to a member or the sink, and opens and closes containers.
ghost use Rattle.std.specs.Prelude.{◌≡◌, ◌≤◌, [], OnOk, IfSome, IfNone};
ghost use Rattle.json_events.specs.Drafts.{level, opened, writes};
ghost use Rattle.json_events.specs.Members.{kept_object};
ghost use Rattle.json_events.specs.States.{draft_of, level_of};
ghost use Rattle.json_events.specs.Turns.{Tries, Closes};

use crate::error::CanonError;
use crate::members::{Members, with_object};
use crate::spot::Spot;
use crate::state::{Container, State};
use byte_streams::{Sink, SinkError, put_all};
use json_values::Blob;
use std::alloc::{AllocError, Global};
use std::mem;

/// Writes a piece of text to the member that is being written, or to the sink if no object is unclosed.
pub(crate) fn write_piece<K: Sink>(
    state: &mut State,
    sink: &mut K,
    piece: &[u8],
) -> Result<(), CanonError>
    ensures tries { Tries (writes piece.now (draft_of state.old)) result (draft_of state.new)
        (K.state sink.old) (K.state sink.new) }
    ensures count { (K.state sink.old).faults ≤ (K.state sink.new).faults }
{
    if state.inner.held {
        match state.text.append(piece) {
            Ok(()) => return Ok(()),
            Err(_) => return Err(CanonError::WantOfMemory),
        }
    }
    match put_all(sink, piece) {
        Ok(()) => Ok(()),
        Err(SinkError::Failed) => Err(CanonError::SinkFault),
        Err(SinkError::WantOfMemory) => Err(CanonError::WantOfMemory),
    }
}

/// Writes the object of these members.
pub(crate) fn write_object<K: Sink>(
    alloc: Global,
    state: &mut State,
    sink: &mut K,
    members: Members,
) -> Result<(), CanonError>
    ensures tries { Tries (writes (kept_object members.keys) (draft_of state.old)) result
        (draft_of state.new) (K.state sink.old) (K.state sink.new) }
    ensures count { (K.state sink.old).faults ≤ (K.state sink.new).faults }
{
    if state.inner.held {
        let text = mem::replace(&mut state.text, Blob::empty(alloc));
        match with_object(text, members) {
            Ok(text) => state.text = text,
            Err(_) => return Err(CanonError::WantOfMemory),
        }
        return Ok(());
    }
    let object = match with_object(Blob::empty(alloc), members) {
        Ok(object) => object,
        Err(_) => return Err(CanonError::WantOfMemory),
    };
    match put_all(sink, object.as_slice()) {
        Ok(()) => Ok(()),
        Err(SinkError::Failed) => Err(CanonError::SinkFault),
        Err(SinkError::WantOfMemory) => Err(CanonError::WantOfMemory),
    }
}

/// Returns a container of which nothing is written yet.
pub(crate) fn empty_container(alloc: Global, spot: Spot, held: bool, around: Blob) -> Container
    ensures { level_of result ≡ level spot held around }
{
    Container {
        spot,
        held,
        begun: false,
        members: Members::new(alloc),
        name: String::new(alloc),
        around,
    }
}

/// Opens a container.
pub(crate) fn open(state: &mut State, container: Container) -> Result<(), AllocError>
    ensures { OnOk result (draft_of state.new ≡ opened (level_of container) (draft_of state.old)) }
{
    let around = mem::replace(&mut state.inner, container);
    state.outer.push(around)?;
    Ok(())
}

/// Closes the innermost container, if another one encloses it, and returns it.
pub(crate) fn close(state: &mut State) -> Option<Container>
    ensures none { IfNone result
        (((draft_of state.old).outer ≡ []) × (draft_of state.new ≡ draft_of state.old)) }
    ensures some { IfSome result
        (λ closed. Closes (level_of closed) (draft_of state.old) (draft_of state.new)) }
{
    match state.outer.pop() {
        Some(around) => Some(mem::replace(&mut state.inner, around)),
        None => None,
    }
}
