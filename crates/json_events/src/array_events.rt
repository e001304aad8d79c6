// The events of arrays.
ghost use Rattle.std.specs.Prelude.{◌≤◌};

use crate::error::CanonError;
use crate::formatter::{JcsFormatter, kept};
use crate::spot::Spot;
use crate::turns::{begin_array, begin_item, end_array, move_on};
use byte_streams::Sink;

impl JcsFormatter {
    ghost use Rattle.json_events.specs.Events.{begin_array, begin_array_value, end_array_value};
    ghost use Rattle.json_events.specs.Events.{end_array};
    ghost use Rattle.json_events.specs.Formatters.{stage_of};
    ghost use Rattle.json_events.specs.Turns.{Answers};

    /// Begins an array.
    pub fn begin_array<K: Sink>(&mut self, sink: &mut K) -> Result<(), CanonError>
        ensures answers { Answers begin_array result (stage_of self.old) (stage_of self.new)
            (K.state sink.old) (K.state sink.new) }
        ensures count { (K.state sink.old).faults ≤ (K.state sink.new).faults }
    {
        if let Some(refusal) = self.refusal {
            return Err(refusal);
        }
        let answer = begin_array(self.alloc, &mut self.state, sink);
        self.refusal = kept(&answer);
        answer
    }

    /// Ends an array, after any number of items.
    pub fn end_array<K: Sink>(&mut self, sink: &mut K) -> Result<(), CanonError>
        ensures answers { Answers end_array result (stage_of self.old) (stage_of self.new)
            (K.state sink.old) (K.state sink.new) }
        ensures count { (K.state sink.old).faults ≤ (K.state sink.new).faults }
    {
        if let Some(refusal) = self.refusal {
            return Err(refusal);
        }
        let answer = end_array(&mut self.state, sink);
        self.refusal = kept(&answer);
        answer
    }

    /// Begins an item of an array. Its value comes next.
    pub fn begin_array_value<K: Sink>(&mut self, sink: &mut K) -> Result<(), CanonError>
        ensures answers { Answers begin_array_value result (stage_of self.old) (stage_of self.new)
            (K.state sink.old) (K.state sink.new) }
        ensures count { (K.state sink.old).faults ≤ (K.state sink.new).faults }
    {
        if let Some(refusal) = self.refusal {
            return Err(refusal);
        }
        let answer = begin_item(&mut self.state, sink);
        self.refusal = kept(&answer);
        answer
    }

    /// Ends an item of an array, after its value.
    pub fn end_array_value<K: Sink>(&mut self, _sink: &mut K) -> Result<(), CanonError>
        ensures answers { Answers end_array_value result (stage_of self.old) (stage_of self.new)
            (K.state _sink.old) (K.state _sink.new) }
        ensures count { (K.state _sink.old).faults ≤ (K.state _sink.new).faults }
    {
        if let Some(refusal) = self.refusal {
            return Err(refusal);
        }
        let answer = move_on(&mut self.state, Spot::ItemDone, Spot::Items);
        self.refusal = kept(&answer);
        answer
    }
}
