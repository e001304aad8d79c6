ghost use Rattle.std.specs.Prelude.{◌≡◌, ◌≤◌, OnOk};
ghost use Rattle.json_events.specs.Values.{IsValue};
ghost use Rattle.json_canon.specs.Outcomes.{WritesText};

use crate::whole::to_writer;
use byte_streams::Sink;
use json_events::CanonError;
use json_values::ToValue;
use std::alloc::Global;

/// Writes canonical texts one after another to its sink.
#[derive(Drop)]
pub struct JcsSerializer<K> {
    alloc: Global,
    sink: K,
}

impl<K: Sink> JcsSerializer<K> {
    ghost use Rattle.json_canon.specs.Serializers.{sink_of};

    /// Creates a serializer that writes to this sink.
    pub fn new(alloc: Global, sink: K) -> JcsSerializer<K>
        ensures { sink_of result ≡ sink }
    {
        JcsSerializer { alloc, sink }
    }

    /// Writes one value as `to_writer` does, whatever the calls before it returned.
    pub fn serialize<V: ToValue>(&mut self, value: &V) -> Result<(), CanonError>
        ensures text { WritesText result (V.written value.now) (K.state (sink_of self.old))
            (K.state (sink_of self.new)) }
        ensures value { OnOk result (IsValue (V.written value.now)) }
        ensures count { (K.state (sink_of self.old)).faults ≤ (K.state (sink_of self.new)).faults }
    {
        to_writer(self.alloc, value, &mut self.sink)
    }

    /// Returns the sink.
    pub fn into_inner(self) -> K
        ensures { result ≡ sink_of self }
    {
        let JcsSerializer { alloc: _, sink } = self;
        sink
    }
}
