// The signature layers of a lock, about which the host is asked.
ghost use Rattle.std.specs.Prelude.{◌≡◌, [], ◌∷◌, ◌++◌, IfOk, IfErr, OnOk, option_to_list};
ghost use Rattle.json_values.specs.Refusals.{Matches};
ghost use Rattle.cosign_layers.specs.Checks.{layer_read};
ghost use Rattle.cosign_layers.specs.Rejection.{is_memory};
ghost use Rattle.pull_lock.specs.Tests.{input_with};
ghost use Rattle.live_host.specs.Everyone.{everyone};
ghost use Rattle.live_host.specs.HostErrors.{AsksCause};
ghost use Rattle.live_host.specs.Questions.{WereAsked};
ghost use Rattle.live_host.specs.Wire.{wire};
ghost use Rattle.live_check.specs.Asked.{EntriesAsked, layer_of, layers_of};

use byte_streams::{Sink, Source};
use cosign_layers::{LayerRejection, read_bundle_layer, read_payload_layer};
use cosign_parts::{LayerKind, LogKeys, SignatureLayer};
use json_values::{Blob, List};
use live_host::{Answers, Everyone, HostError, Streams, ask_layers};
use pull_lock::{Lock, LockEntry};
use std::alloc::{AllocError, Global};

// The layer of an entry with this content, if each signature were valid and each certificate vouched for.
fn layer_of(
    alloc: Global,
    log_keys: &LogKeys,
    entry: &LockEntry,
    content: &Blob,
) -> Result<SignatureLayer, LayerRejection>
    ensures { Matches is_memory result
        (layer_read (everyone log_keys.now) entry.now.digest (input_with content.now entry.now.signature)) }
{
    let (digest, locked) = (entry.digest.as_str(), &entry.signature);
    let (named, notes) = (locked.oci_digest.as_str(), &locked.annotations);
    match locked.kind {
        LayerKind::Payload => {
            read_payload_layer(
                alloc, content, named, notes, digest, log_keys, &Everyone, &Everyone,
            )
        }
        LayerKind::Bundle => {
            read_bundle_layer(
                alloc, content, named, notes, digest, log_keys, &Everyone, &Everyone,
            )
        }
    }
}

// Adds the layer of an entry, if it has one.
fn add_layer(
    alloc: Global,
    log_keys: &LogKeys,
    entry: &LockEntry,
    layers: &mut List<SignatureLayer>,
) -> Result<(), AllocError>
    ensures { OnOk result (layers.new ≡ layers.old ++ option_to_list (layer_of log_keys.now entry.now)) }
{
    let content = Blob::new(alloc, entry.signature.content.as_str().as_bytes())?;
    match layer_of(alloc, log_keys, entry, &content) {
        Ok(layer) => {
            layers.push(layer)?;
            Ok(())
        }
        Err(rejection) => {
            if rejection.is_memory() {
                return Err(AllocError);
            }
            Ok(())
        }
    }
}

/// Returns the signature layers of a lock, as if each signature were valid and each certificate vouched for. One that
/// is not about its entry's digest even so is left out: its entry is not locked.
pub(crate) fn layers_in(
    alloc: Global,
    log_keys: &LogKeys,
    lock: &Lock,
) -> Result<List<SignatureLayer>, AllocError>
    ensures { IfOk result (λ layers. layers ≡ layers_of log_keys.now lock.now.entries) }
{
    let mut layers = List::new(alloc);
    for entry in lock.entries.as_slice() {
        add_layer(alloc, log_keys, entry, &mut layers)?;
    }
    Ok(layers)
}

/// Asks the host about the signature layer of an entry, as `ask_layers` does: about the layer that its bytes and
/// annotations are read as if each signature were valid and each certificate vouched for. An entry whose layer is not
/// about its digest even so raises no question.
pub fn ask_entry<S: Source, K: Sink>(
    alloc: Global,
    streams: &mut Streams<S, K>,
    keys: &[Blob],
    log_keys: &LogKeys,
    entry: &LockEntry,
) -> Result<Answers, HostError>
    ensures asked { IfOk result (λ answers. WereAsked answers.list (wire S.state K.state streams.old)
        (wire S.state K.state streams.new)) }
    ensures about { IfOk result (λ answers. EntriesAsked answers.list keys.now log_keys.now (entry.now ∷ [])) }
    ensures cause { IfErr result (λ e. AsksCause e (wire S.state K.state streams.old)
        (wire S.state K.state streams.new)) }
{
    let mut layers = List::new(alloc);
    add_layer(alloc, log_keys, entry, &mut layers)?;
    ask_layers(alloc, streams, keys, log_keys, layers.as_slice())
}
