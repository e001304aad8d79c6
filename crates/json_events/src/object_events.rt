// The events of objects.
ghost use Rattle.std.specs.Prelude.{◌≤◌};

use crate::error::CanonError;
use crate::formatter::{JcsFormatter, kept};
use crate::spot::Spot;
use crate::turns::{begin_object, end_member, end_object, move_on};
use byte_streams::Sink;

impl JcsFormatter {
    ghost use Rattle.json_events.specs.Events.{begin_object, begin_object_key, end_object_key};
    ghost use Rattle.json_events.specs.Events.{begin_object_value, end_object_value, end_object};
    ghost use Rattle.json_events.specs.Formatters.{stage_of};
    ghost use Rattle.json_events.specs.Turns.{Answers};

    /// Begins an object.
    pub fn begin_object<K: Sink>(&mut self, sink: &mut K) -> Result<(), CanonError>
        ensures answers { Answers begin_object result (stage_of self.old) (stage_of self.new)
            (K.state sink.old) (K.state sink.new) }
        ensures count { (K.state sink.old).faults ≤ (K.state sink.new).faults }
    {
        if let Some(refusal) = self.refusal {
            return Err(refusal);
        }
        let answer = begin_object(self.alloc, &mut self.state, sink);
        self.refusal = kept(&answer);
        answer
    }

    /// Ends an object, after any number of members, and writes its text.
    pub fn end_object<K: Sink>(&mut self, sink: &mut K) -> Result<(), CanonError>
        ensures answers { Answers end_object result (stage_of self.old) (stage_of self.new)
            (K.state sink.old) (K.state sink.new) }
        ensures count { (K.state sink.old).faults ≤ (K.state sink.new).faults }
    {
        if let Some(refusal) = self.refusal {
            return Err(refusal);
        }
        let answer = end_object(self.alloc, &mut self.state, sink);
        self.refusal = kept(&answer);
        answer
    }

    /// Begins the name of a member. A string comes next.
    pub fn begin_object_key<K: Sink>(&mut self, _sink: &mut K) -> Result<(), CanonError>
        ensures answers { Answers begin_object_key result (stage_of self.old) (stage_of self.new)
            (K.state _sink.old) (K.state _sink.new) }
        ensures count { (K.state _sink.old).faults ≤ (K.state _sink.new).faults }
    {
        if let Some(refusal) = self.refusal {
            return Err(refusal);
        }
        let answer = move_on(&mut self.state, Spot::Names, Spot::NameDue);
        self.refusal = kept(&answer);
        answer
    }

    /// Ends the name of a member.
    pub fn end_object_key<K: Sink>(&mut self, _sink: &mut K) -> Result<(), CanonError>
        ensures answers { Answers end_object_key result (stage_of self.old) (stage_of self.new)
            (K.state _sink.old) (K.state _sink.new) }
        ensures count { (K.state _sink.old).faults ≤ (K.state _sink.new).faults }
    {
        if let Some(refusal) = self.refusal {
            return Err(refusal);
        }
        let answer = move_on(&mut self.state, Spot::NameDone, Spot::Named);
        self.refusal = kept(&answer);
        answer
    }

    /// Begins the value of a member.
    pub fn begin_object_value<K: Sink>(&mut self, _sink: &mut K) -> Result<(), CanonError>
        ensures answers { Answers begin_object_value result (stage_of self.old) (stage_of self.new)
            (K.state _sink.old) (K.state _sink.new) }
        ensures count { (K.state _sink.old).faults ≤ (K.state _sink.new).faults }
    {
        if let Some(refusal) = self.refusal {
            return Err(refusal);
        }
        let answer = move_on(&mut self.state, Spot::Named, Spot::ValueDue);
        self.refusal = kept(&answer);
        answer
    }

    /// Ends a member, after its value. Returns `DuplicateKey` if the object already has the name.
    pub fn end_object_value<K: Sink>(&mut self, _sink: &mut K) -> Result<(), CanonError>
        ensures answers { Answers end_object_value result (stage_of self.old) (stage_of self.new)
            (K.state _sink.old) (K.state _sink.new) }
        ensures count { (K.state _sink.old).faults ≤ (K.state _sink.new).faults }
    {
        if let Some(refusal) = self.refusal {
            return Err(refusal);
        }
        let answer = end_member(self.alloc, &mut self.state);
        self.refusal = kept(&answer);
        answer
    }
}
