//! The text that a layer's signature signs.
ghost use Rattle.std.specs.Prelude.{◌≡◌, ◌++◌, IfOk, OnOk};
ghost use Rattle.cosign_parts.specs.Envelope.{counted, enveloped, pre_authentication, signed_text};
ghost use Rattle.cosign_parts.specs.Bundle.{envelope_in};

use crate::bundle::{Envelope, read_envelope};
use crate::layer::{LayerKind, SignatureLayer};
use itoa::Buffer;
use json_tables::read_plain_json;
use json_values::{Blob, Copied};
use std::alloc::{AllocError, Global};

/// Returns the text that a layer's signature signs: the content of a payload, or the pre-authentication encoding of a
/// bundle's envelope (DSSE v1), whatever its payload is. It is empty if the content does not have the form of a bundle.
pub fn signed_text(alloc: Global, layer: &SignatureLayer) -> Result<Blob, AllocError>
    ensures text { IfOk result (λ text. text ≡ signed_text layer.now.kind layer.now.content) }
{
    match layer.kind {
        LayerKind::Payload => layer.content.copy(alloc),
        LayerKind::Bundle => enveloped_text(alloc, layer.content.as_slice()),
    }
}

/// Returns the text that the signature of a bundle signs.
pub fn enveloped_text(alloc: Global, content: &[u8]) -> Result<Blob, AllocError>
    ensures { IfOk result (λ text. text ≡ enveloped (envelope_in content.now)) }
{
    let Some(envelope) = envelope_in(alloc, content)? else {
        return Ok(Blob::empty(alloc));
    };
    let text = pre_authentication(alloc, &envelope)?;
    Ok(text)
}

pub(crate) fn envelope_in(alloc: Global, content: &[u8]) -> Result<Option<Envelope>, AllocError>
    ensures { IfOk result (λ found. found ≡ envelope_in content.now) }
{
    let Some(json) = read_plain_json(alloc, content)? else {
        return Ok(None);
    };
    let envelope = read_envelope(alloc, json.value())?;
    Ok(envelope)
}

fn pre_authentication(alloc: Global, envelope: &Envelope) -> Result<Blob, AllocError>
    ensures { IfOk result (λ text. text ≡ pre_authentication envelope.now) }
{
    let mut text = Blob::new(alloc, b"DSSEv1")?;
    append_counted(&mut text, envelope.payload_type.as_str().as_bytes())?;
    append_counted(&mut text, envelope.payload.as_slice())?;
    Ok(text)
}

// Appends the length of the bytes and the bytes, each after a space.
fn append_counted(text: &mut Blob, bytes: &[u8]) -> Result<(), AllocError>
    ensures { OnOk result (text.new ≡ text.old ++ counted bytes.now) }
{
    text.append(b" ")?;
    text.append(Buffer::new().format(bytes.len()).as_bytes())?;
    text.append(b" ")?;
    text.append(bytes)?;
    Ok(())
}
