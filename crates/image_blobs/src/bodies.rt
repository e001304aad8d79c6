// The body of a response, piece by piece into a sink and cut at a number of bytes.
ghost use Rattle.std.specs.Prelude.{◌≡◌, ◌≤◌, OnOk, IsErrOf};
ghost use Rattle.json_values.specs.Counts.{Increased};
ghost use Rattle.oci_protocol.specs.StreamedBody.{StreamsBody, StreamsPrefix};
ghost use Rattle.oci_transport.specs.Link.{Steady, TakesPast};
ghost use Rattle.image_blobs.specs.Taken.{AddsWithin};

use byte_streams::{Sink, SinkError, put_all};
use oci_digests::Digesters;
use oci_protocol::StreamBodyError;
use oci_transport::{LinkError, Transport};
use std::alloc::Global;

/// Takes the body of the last response, hashes it and writes it to the sink, if it has at most `limit` bytes. Whatever
/// it returns, the sink took a prefix of the body with at most `limit` bytes: the size of each piece is checked before
/// it is written.
pub fn stream_within<T: Transport, S: Sink>(
    alloc: Global,
    transport: &mut T,
    sink: &mut S,
    limit: u64,
    digesters: &mut Digesters,
) -> Result<(), StreamBodyError>
    ensures told { (T.state transport.new).told ≡ (T.state transport.old).told }
    ensures steady { Steady (T.state transport.old) (T.state transport.new) }
    ensures count { (T.state transport.old).faults ≤ (T.state transport.new).faults }
    ensures sink_count { (S.state sink.old).faults ≤ (S.state sink.new).faults }
    ensures poured { OnOk result (StreamsBody limit digesters.old digesters.new
        (T.state transport.old) (T.state transport.new) (S.state sink.old) (S.state sink.new)) }
    ensures prefix { StreamsPrefix (T.state transport.old) (S.state sink.old) (S.state sink.new) }
    ensures within { AddsWithin limit (S.state sink.old) (S.state sink.new) }
    ensures long { IsErrOf result StreamBodyError.BodyTooLong
        → TakesPast limit (T.state transport.old) (T.state transport.new) }
    ensures fault { IsErrOf result StreamBodyError.TransportFault
        → Increased (T.state transport.old).faults (T.state transport.new).faults }
    ensures sink_fault { IsErrOf result StreamBodyError.SinkFault
        → Increased (S.state sink.old).faults (S.state sink.new).faults }
{
    let mut taken: u64 = 0;
    loop {
        let piece = match transport.piece(alloc) {
            Ok(piece) => piece,
            Err(LinkError::Failed) => return Err(StreamBodyError::TransportFault),
            Err(LinkError::WantOfMemory) => return Err(StreamBodyError::WantOfMemory),
        };
        let bytes = piece.as_slice();
        let more = bytes.len() as u64;
        if more == 0 {
            return Ok(());
        }
        if more > limit - taken {
            return Err(StreamBodyError::BodyTooLong);
        }
        digesters.update(bytes);
        match put_all(sink, bytes) {
            Ok(()) => {}
            Err(SinkError::Failed) => return Err(StreamBodyError::SinkFault),
            Err(SinkError::WantOfMemory) => return Err(StreamBodyError::WantOfMemory),
        }
        taken += more;
    }
}
