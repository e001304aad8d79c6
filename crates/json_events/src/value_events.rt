// The events of scalars, and the end.
ghost use Rattle.std.specs.Prelude.{◌≤◌};

use crate::error::CanonError;
use crate::formatter::{JcsFormatter, kept};
use crate::scalars::truth_word;
use crate::spot::Spot;
use crate::turns::{move_on, place, refuse_value, take_string, take_whole};
use byte_streams::Sink;

impl JcsFormatter {
    ghost use Rattle.json_events.specs.Events.{write_null, write_bool, write_integer, write_float};
    ghost use Rattle.json_events.specs.Events.{write_string, write_raw_fragment, finish};
    ghost use Rattle.json_events.specs.Formatters.{stage_of};
    ghost use Rattle.json_events.specs.Turns.{Answers};

    /// Writes null.
    pub fn write_null<K: Sink>(&mut self, sink: &mut K) -> Result<(), CanonError>
        ensures answers { Answers write_null result (stage_of self.old) (stage_of self.new)
            (K.state sink.old) (K.state sink.new) }
        ensures count { (K.state sink.old).faults ≤ (K.state sink.new).faults }
    {
        if let Some(refusal) = self.refusal {
            return Err(refusal);
        }
        let answer = place(&mut self.state, sink, b"null");
        self.refusal = kept(&answer);
        answer
    }

    /// Writes a `bool`.
    pub fn write_bool<K: Sink>(&mut self, sink: &mut K, value: bool) -> Result<(), CanonError>
        ensures answers { Answers (write_bool value) result (stage_of self.old) (stage_of self.new)
            (K.state sink.old) (K.state sink.new) }
        ensures count { (K.state sink.old).faults ≤ (K.state sink.new).faults }
    {
        if let Some(refusal) = self.refusal {
            return Err(refusal);
        }
        let answer = place(&mut self.state, sink, truth_word(value));
        self.refusal = kept(&answer);
        answer
    }

    /// Writes an integer. Returns `IntegerOutOfRange` if its magnitude is greater than 9007199254740991.
    pub fn write_integer<K: Sink>(&mut self, sink: &mut K, value: i128) -> Result<(), CanonError>
        ensures answers { Answers (write_integer value) result (stage_of self.old)
            (stage_of self.new) (K.state sink.old) (K.state sink.new) }
        ensures count { (K.state sink.old).faults ≤ (K.state sink.new).faults }
    {
        if let Some(refusal) = self.refusal {
            return Err(refusal);
        }
        let answer = take_whole(self.alloc, &mut self.state, sink, value);
        self.refusal = kept(&answer);
        answer
    }

    /// Refuses a float, which has no canonical text: returns `Float`.
    pub fn write_float<K: Sink>(&mut self, _sink: &mut K) -> Result<(), CanonError>
        ensures answers { Answers write_float result (stage_of self.old) (stage_of self.new)
            (K.state _sink.old) (K.state _sink.new) }
        ensures count { (K.state _sink.old).faults ≤ (K.state _sink.new).faults }
    {
        if let Some(refusal) = self.refusal {
            return Err(refusal);
        }
        let answer = refuse_value(&self.state, CanonError::Float);
        self.refusal = kept(&answer);
        answer
    }

    /// Writes a string, or the name of a member.
    pub fn write_string<K: Sink>(&mut self, sink: &mut K, text: &str) -> Result<(), CanonError>
        ensures answers { Answers (write_string text.now) result (stage_of self.old)
            (stage_of self.new) (K.state sink.old) (K.state sink.new) }
        ensures count { (K.state sink.old).faults ≤ (K.state sink.new).faults }
    {
        if let Some(refusal) = self.refusal {
            return Err(refusal);
        }
        let answer = take_string(self.alloc, &mut self.state, sink, text);
        self.refusal = kept(&answer);
        answer
    }

    /// Refuses JSON that is to be written verbatim: returns `RawFragment`.
    pub fn write_raw_fragment<K: Sink>(
        &mut self,
        _sink: &mut K,
        _text: &str,
    ) -> Result<(), CanonError>
        ensures answers { Answers write_raw_fragment result (stage_of self.old) (stage_of self.new)
            (K.state _sink.old) (K.state _sink.new) }
        ensures count { (K.state _sink.old).faults ≤ (K.state _sink.new).faults }
    {
        if let Some(refusal) = self.refusal {
            return Err(refusal);
        }
        let answer = refuse_value(&self.state, CanonError::RawFragment);
        self.refusal = kept(&answer);
        answer
    }

    /// Ends the value. Returns `NotWellNested` unless the events are exactly one complete value.
    pub fn finish<K: Sink>(&mut self, _sink: &mut K) -> Result<(), CanonError>
        ensures answers { Answers finish result (stage_of self.old) (stage_of self.new)
            (K.state _sink.old) (K.state _sink.new) }
        ensures count { (K.state _sink.old).faults ≤ (K.state _sink.new).faults }
    {
        if let Some(refusal) = self.refusal {
            return Err(refusal);
        }
        let answer = move_on(&mut self.state, Spot::Whole, Spot::Finished);
        self.refusal = kept(&answer);
        answer
    }
}
