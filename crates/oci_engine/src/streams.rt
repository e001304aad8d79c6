// The calls that open a stream of a blob.
ghost use Rattle.std.specs.Prelude.{◌≡◌, [], Some, None, IfOk};
ghost use Rattle.oci_protocol.specs.Runs.{Meets};
ghost use Rattle.engine_requests.specs.Addresses.{blob_text};
ghost use Rattle.engine_terms.specs.Error.{is_memory};
ghost use Rattle.engine_requests.specs.Requests.{manifest_types};
ghost use Rattle.engine_streams.specs.Blobs.{blob_stream, blob_stream_partial, opening_in, response_in};
ghost use Rattle.engine_streams.specs.Blobs.{stream_in, IsLeft};
ghost use Rattle.engine_streams.specs.Streams.{IsOpen, opening_of};
ghost use Rattle.engine_rows.specs.Causes.{HasBadHeader, IsEarly, IsRefusedAs};
ghost use Rattle.oci_engine.specs.Confinement.{StaysConfined};
ghost use Rattle.oci_engine.specs.Kept.{auth_state_of};
ghost use Rattle.oci_engine.specs.Refusals.{RefusedFor, FaultCounted, UrlRefused, StreamRefused, at_moment};
ghost use Rattle.engine_streams.specs.Causes.{Overflows, Fits, range_of};

use crate::client::{Client, lent};
use engine_requests::AsLayerDescriptor;
use engine_streams::{BlobResponse, ByteRange, SizedStream};
use engine_terms::{Call, GenericCause, OciDistributionError};
use oci_names::Reference;
use oci_transport::Transport;
use std::alloc::Global;

impl Client {
    /// Returns a stream of a blob of the image's repository, requested from the same places as in `pull_blob`. Nothing
    /// of the response's body is taken yet: pass the transport to the stream's `next`, and send nothing over it before
    /// the stream's end.
    pub fn pull_blob_stream<T: Transport, L: AsLayerDescriptor>(
        &mut self,
        alloc: Global,
        transport: &mut T,
        moment: u64,
        image: &Reference,
        layer: &L,
    ) -> Result<SizedStream, OciDistributionError>
        ensures run { Meets is_memory (blob_stream (at_moment self.old moment) image.now (L.layer layer.now))
            (T.state transport.old) (T.state transport.new)
            (auth_state_of self.old) (auth_state_of self.new) (opening_in result) }
        ensures settings { self.new.settings ≡ self.old.settings }
        ensures confined { StaysConfined self.old self.new moment image.now None
            (T.state transport.old) (T.state transport.new) }
        ensures fresh { IfOk result (λ stream. IsOpen self.old.settings.max_body_bytes [] stream) }
        ensures left { IfOk result (λ stream. IsLeft None (L.layer layer.now).digest (opening_of stream)
            (T.state transport.old) (T.state transport.new)) }
        ensures causes { RefusedFor (StreamRefused None self.old moment image.now (L.layer layer.now))
            (T.state transport.old) (T.state transport.new) result }
        ensures fault { FaultCounted (T.state transport.old) (T.state transport.new) result }
        ensures invalid_url { UrlRefused (blob_text self.old.settings image.now (L.layer layer.now).digest) result }
        ensures bad_header { HasBadHeader self.old.settings manifest_types → IsEarly result }
    {
        let call = Call {
            settings: &self.settings,
            image,
            moment,
        };
        let layer = layer.as_layer_descriptor();
        lent!(
            self,
            memory,
            engine_streams::pull_blob_stream(alloc, transport, &mut memory, &call, &layer)
        )
    }

    /// Returns a stream of a part of a blob: the bytes from the offset on, at most as many as the length if one is
    /// given. A registry may respond with the whole blob. `RangeOverflow`, without a request, if the sum of offset and
    /// length is beyond 2^64 - 1.
    pub fn pull_blob_stream_partial<T: Transport, L: AsLayerDescriptor>(
        &mut self,
        alloc: Global,
        transport: &mut T,
        moment: u64,
        image: &Reference,
        layer: &L,
        offset: u64,
        length: Option<u64>,
    ) -> Result<BlobResponse, OciDistributionError>
        ensures run { Meets is_memory
            (blob_stream_partial (at_moment self.old moment) image.now (L.layer layer.now) (range_of offset length))
            (T.state transport.old) (T.state transport.new)
            (auth_state_of self.old) (auth_state_of self.new) (response_in result) }
        ensures settings { self.new.settings ≡ self.old.settings }
        ensures confined { StaysConfined self.old self.new moment image.now None
            (T.state transport.old) (T.state transport.new) }
        ensures fresh { IfOk result (λ response. IsOpen self.old.settings.max_body_bytes [] (stream_in response)) }
        ensures left { IfOk result (λ response. IsLeft (Some (range_of offset length)) (L.layer layer.now).digest
            (opening_of (stream_in response)) (T.state transport.old) (T.state transport.new)) }
        ensures causes { RefusedFor
            (StreamRefused (Some (range_of offset length)) self.old moment image.now (L.layer layer.now))
            (T.state transport.old) (T.state transport.new) result }
        ensures fault { FaultCounted (T.state transport.old) (T.state transport.new) result }
        ensures past { Overflows (Some (range_of offset length))
            → IsRefusedAs (OciDistributionError.GenericError GenericCause.RangeOverflow) result }
        ensures invalid_url { Fits (Some (range_of offset length))
            → UrlRefused (blob_text self.old.settings image.now (L.layer layer.now).digest) result }
        ensures bad_header { Fits (Some (range_of offset length))
            → HasBadHeader self.old.settings manifest_types → IsEarly result }
    {
        let call = Call {
            settings: &self.settings,
            image,
            moment,
        };
        let layer = layer.as_layer_descriptor();
        let range = ByteRange { offset, length };
        lent!(
            self,
            memory,
            engine_streams::pull_blob_stream_partial(
                alloc,
                transport,
                &mut memory,
                &call,
                &layer,
                range,
            )
        )
    }
}
