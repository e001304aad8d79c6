// The signature of the manifest that is pushed as bytes.
use crate::image::{MANIFEST_DIGEST, SIGNATURE_TAG};
use crate::settings::Target;
use cosign_client::{Client, PushResponse, WrittenClient, client_by};
use cosign_parts::{LayerKind, LogKeys, SignatureLayer, SimpleSigning};
use engine_terms::ClientProtocol;
use json_values::{Annotations, Blob, Copied, Json, List, Text};
use oci_engine::ClientConfig;
use oci_names::Reference;
use oci_transport::Transport;
use serde_json::Value;
use sig_registry::{Auth, OciReference, SigstoreError};
use std::alloc::{AllocError, Global};

/// What a push of a signature returned.
pub type Pushed = Result<PushResponse, SigstoreError>;

// Its layers, the reference under which a search looks for them, and the credentials.
#[derive(Drop)]
struct Signature {
    layers: List<SignatureLayer>,
    image: OciReference,
    auth: Auth,
}

// The payload of the manifest, without optional members.
fn signing(alloc: Global, image: &Reference) -> Result<SimpleSigning, AllocError> {
    let mut docker_reference = Text::new(alloc, image.registry())?;
    docker_reference.push_str("/")?;
    docker_reference.push_str(image.repository())?;
    let docker_manifest_digest = Text::new(alloc, MANIFEST_DIGEST)?;
    Ok(SimpleSigning {
        docker_reference,
        docker_manifest_digest,
        optional: Json::new(Value::Null),
    })
}

// The layer of that payload and this signature. Its bytes are written by the push.
fn layer(
    alloc: Global,
    signing: SimpleSigning,
    signature: &Text,
) -> Result<SignatureLayer, AllocError> {
    let signature = signature.copy(alloc)?;
    let oci_digest = Text::new(alloc, "")?;
    Ok(SignatureLayer {
        kind: LayerKind::Payload,
        content: Blob::empty(alloc),
        oci_digest,
        annotations: Annotations::new(alloc),
        simple_signing: Some(signing),
        signature,
        certificate_signature: None,
        bundle: None,
    })
}

fn layers(alloc: Global, target: &Target) -> Result<List<SignatureLayer>, AllocError> {
    let signing = signing(alloc, &target.reference)?;
    let layer = layer(alloc, signing, &target.signature)?;
    let mut layers = List::new(alloc);
    layers.push(layer)?;
    Ok(layers)
}

fn tagged(alloc: Global, image: &Reference) -> Result<OciReference, AllocError> {
    let registry = Text::new(alloc, image.registry())?;
    let repository = Text::new(alloc, image.repository())?;
    let tag = Text::new(alloc, SIGNATURE_TAG)?;
    Ok(OciReference::with_tag(registry, repository, tag))
}

fn signature_of(alloc: Global, target: &Target) -> Result<Signature, AllocError> {
    let auth = Auth::from_registry(alloc, &target.auth)?;
    let image = tagged(alloc, &target.reference)?;
    let layers = layers(alloc, target)?;
    Ok(Signature {
        layers,
        image,
        auth,
    })
}

fn signer(alloc: Global, protocol: &ClientProtocol) -> Result<Client, AllocError> {
    let usual = ClientConfig::default(alloc)?;
    let protocol = protocol.copy(alloc)?;
    let written = WrittenClient {
        protocol,
        limit: None,
        platform: None,
        caching: false,
        log_keys: LogKeys::new(alloc),
    };
    Ok(client_by(alloc, usual, written))
}

fn push_by<T: Transport>(
    alloc: Global,
    client: &mut Client,
    transport: &mut T,
    moment: u64,
    signature: &Signature,
) -> Pushed {
    client.push_signature(
        alloc,
        transport,
        moment,
        None,
        &signature.auth,
        &signature.image,
        signature.layers.as_slice(),
    )
}

/// Pushes the signature by a client of its own.
pub fn push_signed<T: Transport>(
    alloc: Global,
    transport: &mut T,
    target: &Target,
) -> Result<Pushed, AllocError> {
    let signature = signature_of(alloc, target)?;
    let mut client = signer(alloc, &target.protocol)?;
    Ok(push_by(alloc, &mut client, transport, target.moment, &signature))
}
