// The effect of each event on a state.
ghost use Rattle.std.specs.Prelude.{◌≡◌, ◌≤◌, [], IsErr, IfErr};
ghost use Rattle.json_events.specs.Drafts.{places, begins_array, begins_object, begins_item};
ghost use Rattle.json_events.specs.Drafts.{ends_array, ends_object, ends_member, takes_string};
ghost use Rattle.json_events.specs.Drafts.{takes_whole, after_value, where_due, only_at, refused};
ghost use Rattle.json_events.specs.Drafts.{moves, at};
ghost use Rattle.json_events.specs.States.{draft_of};
ghost use Rattle.json_events.specs.Turns.{Turns, Ends};
ghost use Rattle.json_events.specs.declared.spot.Spot.TheVariants.{Items, Names, ValueDone};
ghost use Rattle.serde_json.specs.Written.{comma_if};

use crate::error::CanonError;
use crate::pieces::{close, empty_container, open, write_object, write_piece};
use crate::property::JsonProperty;
use crate::scalars::{integer_text, refused_integer, string_text};
use crate::spot::Spot;
use crate::state::{Container, State};
use byte_streams::Sink;
use json_values::Blob;
use std::alloc::Global;
use std::mem;

/// Places a value with this text.
pub(crate) fn place<K: Sink>(
    state: &mut State,
    sink: &mut K,
    piece: &[u8],
) -> Result<(), CanonError>
    ensures turns { Turns (places piece.now (draft_of state.old)) result (draft_of state.old)
        (draft_of state.new) (K.state sink.old) (K.state sink.new) }
    ensures count { (K.state sink.old).faults ≤ (K.state sink.new).faults }
{
    let Some(spot) = state.inner.spot.after_value() else {
        return Err(CanonError::NotWellNested);
    };
    state.inner.spot = spot;
    let written = write_piece(state, sink, piece);
    written
}

/// Begins an array.
pub(crate) fn begin_array<K: Sink>(
    alloc: Global,
    state: &mut State,
    sink: &mut K,
) -> Result<(), CanonError>
    ensures turns { Turns (begins_array (draft_of state.old)) result (draft_of state.old)
        (draft_of state.new) (K.state sink.old) (K.state sink.new) }
    ensures count { (K.state sink.old).faults ≤ (K.state sink.new).faults }
{
    let Some(spot) = state.inner.spot.after_value() else {
        return Err(CanonError::NotWellNested);
    };
    state.inner.spot = spot;
    let array = empty_container(alloc, Spot::Items, state.inner.held, Blob::empty(alloc));
    open(state, array)?;
    let written = write_piece(state, sink, b"[");
    written
}

/// Begins an item of an array.
pub(crate) fn begin_item<K: Sink>(state: &mut State, sink: &mut K) -> Result<(), CanonError>
    ensures turns { Turns (only_at Items (draft_of state.old) (begins_item (draft_of state.old)))
        result (draft_of state.old) (draft_of state.new) (K.state sink.old) (K.state sink.new) }
    ensures count { (K.state sink.old).faults ≤ (K.state sink.new).faults }
{
    if !state.inner.spot.is_at(Spot::Items) {
        return Err(CanonError::NotWellNested);
    }
    let later = state.inner.begun;
    state.inner.spot = Spot::ItemDue;
    state.inner.begun = true;
    let written = write_piece(state, sink, comma(later));
    written
}

/// Ends an array.
pub(crate) fn end_array<K: Sink>(state: &mut State, sink: &mut K) -> Result<(), CanonError>
    ensures turns { Turns (only_at Items (draft_of state.old) (ends_array (draft_of state.old)))
        result (draft_of state.old) (draft_of state.new) (K.state sink.old) (K.state sink.new) }
    ensures count { (K.state sink.old).faults ≤ (K.state sink.new).faults }
{
    if !state.inner.spot.is_at(Spot::Items) {
        return Err(CanonError::NotWellNested);
    }
    let Some(_array) = close(state) else {
        return Err(CanonError::NotWellNested);
    };
    let written = write_piece(state, sink, b"]");
    written
}

/// Begins an object. Nothing of it is written before it ends.
pub(crate) fn begin_object<K: Sink>(
    alloc: Global,
    state: &mut State,
    sink: &mut K,
) -> Result<(), CanonError>
    ensures turns { Turns (begins_object (draft_of state.old)) result (draft_of state.old)
        (draft_of state.new) (K.state sink.old) (K.state sink.new) }
    ensures count { (K.state sink.old).faults ≤ (K.state sink.new).faults }
{
    let Some(spot) = state.inner.spot.after_value() else {
        return Err(CanonError::NotWellNested);
    };
    state.inner.spot = spot;
    let around = mem::replace(&mut state.text, Blob::empty(alloc));
    let object = empty_container(alloc, Spot::Names, true, around);
    open(state, object)?;
    Ok(())
}

/// Ends an object, and writes its text.
pub(crate) fn end_object<K: Sink>(
    alloc: Global,
    state: &mut State,
    sink: &mut K,
) -> Result<(), CanonError>
    ensures turns { Turns (only_at Names (draft_of state.old) (ends_object (draft_of state.old)))
        result (draft_of state.old) (draft_of state.new) (K.state sink.old) (K.state sink.new) }
    ensures count { (K.state sink.old).faults ≤ (K.state sink.new).faults }
{
    if !state.inner.spot.is_at(Spot::Names) {
        return Err(CanonError::NotWellNested);
    }
    let Some(object) = close(state) else {
        return Err(CanonError::NotWellNested);
    };
    let Container {
        spot: _,
        held: _,
        begun: _,
        members,
        name: _,
        around,
    } = object;
    state.text = around;
    let written = write_object(alloc, state, sink, members);
    written
}

/// Ends a member of an object. Returns `DuplicateKey` if the name is already present.
pub(crate) fn end_member(alloc: Global, state: &mut State) -> Result<(), CanonError>
    ensures { Ends (only_at ValueDone (draft_of state.old) (ends_member (draft_of state.old)))
        result (draft_of state.old) (draft_of state.new) }
{
    if !state.inner.spot.is_at(Spot::ValueDone) {
        return Err(CanonError::NotWellNested);
    }
    let key = string_text(alloc, state.inner.name.as_str())?;
    let mut member = JsonProperty::new(alloc, state.inner.name.as_str(), key, Blob::empty(alloc))?;
    if state.inner.members.contains(&member) {
        return Err(CanonError::DuplicateKey);
    }
    member.value = mem::replace(&mut state.text, Blob::empty(alloc));
    state.inner.members.insert(member)?;
    state.inner.spot = Spot::Names;
    Ok(())
}

/// Takes a string: the name of a member, or a value.
pub(crate) fn take_string<K: Sink>(
    alloc: Global,
    state: &mut State,
    sink: &mut K,
    text: &str,
) -> Result<(), CanonError>
    ensures turns { Turns (takes_string text.now (draft_of state.old)) result (draft_of state.old)
        (draft_of state.new) (K.state sink.old) (K.state sink.new) }
    ensures count { (K.state sink.old).faults ≤ (K.state sink.new).faults }
{
    if state.inner.spot.is_at(Spot::NameDue) {
        state.inner.name = String::from_str(alloc, text)?;
        state.inner.spot = Spot::NameDone;
        return Ok(());
    }
    let quoted = string_text(alloc, text)?;
    let placed = place(state, sink, quoted.as_slice());
    placed
}

/// Takes an integer.
pub(crate) fn take_whole<K: Sink>(
    alloc: Global,
    state: &mut State,
    sink: &mut K,
    value: i128,
) -> Result<(), CanonError>
    ensures turns { Turns (takes_whole value (draft_of state.old)) result (draft_of state.old)
        (draft_of state.new) (K.state sink.old) (K.state sink.new) }
    ensures count { (K.state sink.old).faults ≤ (K.state sink.new).faults }
{
    let Some(spot) = state.inner.spot.after_value() else {
        return Err(CanonError::NotWellNested);
    };
    if let Some(refusal) = refused_integer(value) {
        return Err(refusal);
    }
    let digits = integer_text(alloc, value)?;
    state.inner.spot = spot;
    let written = write_piece(state, sink, digits.as_slice());
    written
}

/// Refuses a value that has no canonical text.
pub(crate) fn refuse_value(state: &State, refusal: CanonError) -> Result<(), CanonError>
    ensures refusal { IfErr result
        (λ e. where_due (after_value (draft_of state.now).inner.spot) (λ s. refused refusal) ≡ refused e) }
    ensures err { IsErr result }
{
    match state.inner.spot.after_value() {
        Some(_) => Err(refusal),
        None => Err(CanonError::NotWellNested),
    }
}

/// Moves from the only spot at which the event is valid to another.
pub(crate) fn move_on(state: &mut State, from: Spot, to: Spot) -> Result<(), CanonError>
    ensures { Ends (only_at from (draft_of state.old) (moves (at to (draft_of state.old)) []))
        result (draft_of state.old) (draft_of state.new) }
{
    if !state.inner.spot.is_at(from) {
        return Err(CanonError::NotWellNested);
    }
    state.inner.spot = to;
    Ok(())
}

fn comma(later: bool) -> &'static [u8]
    ensures { result.now ≡ comma_if later }
{
    if later { b"," } else { b"" }
}
