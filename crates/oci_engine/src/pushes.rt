// The calls that push blobs.
ghost use Rattle.std.specs.Prelude.{◌≡◌, false, None, IfErr};
ghost use Rattle.oci_auth.specs.declared.token_type.RegistryOperation.TheVariants.{Push};
ghost use Rattle.oci_protocol.specs.Runs.{Meets};
ghost use Rattle.engine_terms.specs.Error.{is_memory};
ghost use Rattle.push_rows.specs.Calls.{push_blob, push_blob_stream, push_blob_stream_chunked, mount_blob};
ghost use Rattle.engine_push.specs.Sources.{Pushes, Cuts, CutBy, SourceCause};
ghost use Rattle.push_rows.specs.Causes.{OfBytes, OfStream, OfNamedStream, IsSized};
ghost use Rattle.engine_requests.specs.Addresses.{uploads_text};
ghost use Rattle.engine_rows.specs.Causes.{IsEarly};
ghost use Rattle.oci_transport.specs.Headers.{is_header_value};
ghost use Rattle.oci_engine.specs.Confinement.{StaysFor};
ghost use Rattle.oci_engine.specs.Kept.{auth_state_of};
ghost use Rattle.oci_engine.specs.Refusals.{RefusedFor, FaultCounted, UrlRefused, at_moment};
ghost use Rattle.oci_engine.specs.Refusals.{PushRefused, MountRefused};

use crate::client::{Client, lent};
use engine_push::{PieceSource, PushBlobStreamChunkedResponse};
use engine_terms::{Call, OciDistributionError};
use json_values::Text;
use oci_names::Reference;
use oci_transport::Transport;
use std::alloc::Global;

impl Client {
    /// Pushes bytes to the image's repository as the blob of this digest, which is not compared with them, and returns
    /// the URL at which it is then. They are sent in chunks, or by one request if `use_monolithic_push` is set or the
    /// registry responds to a chunk with another 2xx status than expected. `moment` is in seconds since 1970.
    ///
    /// `PushNoDataError` if there are none and they are sent by one request.
    pub fn push_blob<T: Transport>(
        &mut self,
        alloc: Global,
        transport: &mut T,
        moment: u64,
        image_ref: &Reference,
        content: &[u8],
        digest: &str,
    ) -> Result<Text, OciDistributionError>
        ensures run { Meets is_memory (push_blob (at_moment self.old moment) image_ref.now content.now digest.now)
            (T.state transport.old) (T.state transport.new) (auth_state_of self.old) (auth_state_of self.new) result }
        ensures settings { self.new.settings ≡ self.old.settings }
        ensures confined { StaysFor Push self.old self.new moment image_ref.now None
            (T.state transport.old) (T.state transport.new) }
        ensures causes { RefusedFor (PushRefused (OfBytes content.now) self.old moment image_ref.now)
            (T.state transport.old) (T.state transport.new) result }
        ensures fault { FaultCounted (T.state transport.old) (T.state transport.new) result }
        ensures invalid_url { UrlRefused (uploads_text self.old.settings image_ref.now) result }
        ensures bad_header { is_header_value self.old.settings.user_agent ≡ false → IsEarly result }
    {
        let call = Call {
            settings: &self.settings,
            image: image_ref,
            moment,
        };
        lent!(
            self,
            memory,
            engine_push::push_blob(alloc, transport, &mut memory, &call, content, digest)
        )
    }

    /// Pushes what a source gives as the blob of this digest, which is not compared with it, and returns the URL at
    /// which it is then. Its pieces are sent in chunks as they are given, or held and sent by one request if
    /// `use_monolithic_push` is set. That request needs the size: `NoSize` without it, `SizeDiffers` if the source
    /// gives another number of bytes.
    ///
    /// `SourceFault` if the source failed, `BodyTooLong` if it gave more bytes than `max_body_bytes`.
    pub fn push_blob_stream<T: Transport, P: PieceSource>(
        &mut self,
        alloc: Global,
        transport: &mut T,
        moment: u64,
        image: &Reference,
        pieces: &mut P,
        blob_digest: &str,
        size: Option<u64>,
    ) -> Result<Text, OciDistributionError>
        ensures run { Meets is_memory (push_blob_stream (at_moment self.old moment) image.now blob_digest.now size)
            (T.state transport.old) (T.state transport.new) (auth_state_of self.old) (auth_state_of self.new) result }
        ensures settings { self.new.settings ≡ self.old.settings }
        ensures pushes { Pushes (P.state pieces.old) (P.state pieces.new)
            (T.state transport.old) (T.state transport.new) result }
        ensures cuts { CutBy self.old.settings.use_monolithic_push (P.state pieces.old) (P.state pieces.new)
            (T.state transport.old) (T.state transport.new) result }
        ensures source { IfErr result (SourceCause self.old.settings.max_body_bytes size
            (P.state pieces.old) (P.state pieces.new) (T.state transport.old) (T.state transport.new)) }
        ensures confined { StaysFor Push self.old self.new moment image.now None
            (T.state transport.old) (T.state transport.new) }
        ensures causes { RefusedFor (PushRefused (OfStream size) self.old moment image.now)
            (T.state transport.old) (T.state transport.new) result }
        ensures fault { FaultCounted (T.state transport.old) (T.state transport.new) result }
        ensures invalid_url { IsSized self.old.settings size
            → UrlRefused (uploads_text self.old.settings image.now) result }
        ensures bad_header { IsSized self.old.settings size
            → is_header_value self.old.settings.user_agent ≡ false → IsEarly result }
    {
        let call = Call {
            settings: &self.settings,
            image,
            moment,
        };
        lent!(
            self,
            memory,
            engine_push::push_blob_stream(
                alloc,
                transport,
                &mut memory,
                &call,
                pieces,
                blob_digest,
                size,
            )
        )
    }

    /// Pushes what a source gives, in chunks as it is given, under the SHA-256 digest that is computed from its bytes.
    ///
    /// `PushNoDataError` if the source gives nothing; `SourceFault` and `BodyTooLong` as of `push_blob_stream`.
    pub fn push_blob_stream_chunked<T: Transport, P: PieceSource>(
        &mut self,
        alloc: Global,
        transport: &mut T,
        moment: u64,
        image: &Reference,
        pieces: &mut P,
    ) -> Result<PushBlobStreamChunkedResponse, OciDistributionError>
        ensures run { Meets is_memory (push_blob_stream_chunked (at_moment self.old moment) image.now)
            (T.state transport.old) (T.state transport.new) (auth_state_of self.old) (auth_state_of self.new) result }
        ensures settings { self.new.settings ≡ self.old.settings }
        ensures pushes { Pushes (P.state pieces.old) (P.state pieces.new)
            (T.state transport.old) (T.state transport.new) result }
        ensures cuts { Cuts (P.state pieces.old) (P.state pieces.new)
            (T.state transport.old) (T.state transport.new) result }
        ensures source { IfErr result (SourceCause self.old.settings.max_body_bytes None
            (P.state pieces.old) (P.state pieces.new) (T.state transport.old) (T.state transport.new)) }
        ensures confined { StaysFor Push self.old self.new moment image.now None
            (T.state transport.old) (T.state transport.new) }
        ensures causes { RefusedFor (PushRefused OfNamedStream self.old moment image.now)
            (T.state transport.old) (T.state transport.new) result }
        ensures fault { FaultCounted (T.state transport.old) (T.state transport.new) result }
        ensures invalid_url { UrlRefused (uploads_text self.old.settings image.now) result }
        ensures bad_header { is_header_value self.old.settings.user_agent ≡ false → IsEarly result }
    {
        let call = Call {
            settings: &self.settings,
            image,
            moment,
        };
        lent!(
            self,
            memory,
            engine_push::push_blob_stream_chunked(alloc, transport, &mut memory, &call, pieces)
        )
    }

    /// Asks the registry to mount a blob of another of its repositories in the image's.
    pub fn mount_blob<T: Transport>(
        &mut self,
        alloc: Global,
        transport: &mut T,
        moment: u64,
        image: &Reference,
        source: &Reference,
        digest: &str,
    ) -> Result<(), OciDistributionError>
        ensures run { Meets is_memory (mount_blob (at_moment self.old moment) image.now source.now digest.now)
            (T.state transport.old) (T.state transport.new) (auth_state_of self.old) (auth_state_of self.new) result }
        ensures settings { self.new.settings ≡ self.old.settings }
        ensures confined { StaysFor Push self.old self.new moment image.now None
            (T.state transport.old) (T.state transport.new) }
        ensures causes { RefusedFor (MountRefused self.old moment image.now)
            (T.state transport.old) (T.state transport.new) result }
        ensures fault { FaultCounted (T.state transport.old) (T.state transport.new) result }
        ensures invalid_url { UrlRefused (uploads_text self.old.settings image.now) result }
        ensures bad_header { is_header_value self.old.settings.user_agent ≡ false → IsEarly result }
    {
        let call = Call {
            settings: &self.settings,
            image,
            moment,
        };
        lent!(
            self,
            memory,
            engine_push::mount_blob(alloc, transport, &mut memory, &call, source, digest)
        )
    }
}
