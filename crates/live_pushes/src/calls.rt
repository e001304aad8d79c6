// The calls, each with its line.
use crate::image::{ABSENT, BLOBS, MANIFEST, MANIFEST_TYPE, config, index, layers};
use crate::lines::{line, refused, signature_line};
use crate::settings::Target;
use crate::signature::push_signed;
use json_values::{Blob, Copied, List, Text};
use oci_engine::{Client, ClientConfig, OciDistributionError};
use oci_transport::Transport;
use std::alloc::{AllocError, Global};

/// A client with its transport, what it pushes to, and the lines so far.
#[derive(Drop)]
pub struct Calls<T> {
    client: Client,
    transport: T,
    target: Target,
    out: Blob,
}

/// Returns a new client with the target's protocol over the transport.
pub fn calls_of<T: Transport + Drop>(
    alloc: Global,
    target: Target,
    transport: T,
) -> Result<Calls<T>, AllocError> {
    let mut config = ClientConfig::default(alloc)?;
    config.protocol = target.protocol.copy(alloc)?;
    Ok(Calls {
        client: Client::new(alloc, config),
        transport,
        target,
        out: Blob::empty(alloc),
    })
}

fn push_image<T: Transport>(alloc: Global, calls: &mut Calls<T>) -> Result<(), AllocError> {
    let layers = layers(alloc)?;
    let config = config(alloc)?;
    match calls.client.push(
        alloc,
        &mut calls.transport,
        calls.target.moment,
        &calls.target.reference,
        layers.as_slice(),
        config,
        &calls.target.auth,
        None,
    ) {
        Ok(pushed) => line(
            &mut calls.out,
            "push",
            &[pushed.config_url.as_str(), pushed.manifest_url.as_str()],
        ),
        Err(error) => refused(alloc, &mut calls.out, "push", error),
    }
}

fn blob_line(
    alloc: Global,
    out: &mut Blob,
    digest: &str,
    answer: Result<bool, OciDistributionError>,
) -> Result<(), AllocError> {
    match answer {
        Ok(true) => line(out, "blob", &[digest, "is there"]),
        Ok(false) => line(out, "blob", &[digest, "is not there"]),
        Err(error) => refused(alloc, out, "blob", error),
    }
}

// Asks for a blob of the image.
fn ask_blob<T: Transport>(
    alloc: Global,
    calls: &mut Calls<T>,
    digest: &str,
) -> Result<(), AllocError> {
    let answer = calls.client.blob_exists(
        alloc,
        &mut calls.transport,
        calls.target.moment,
        &calls.target.reference,
        digest,
    );
    blob_line(alloc, &mut calls.out, digest, answer)
}

// Asks for a blob in the repository in which it was mounted.
fn ask_mounted<T: Transport>(
    alloc: Global,
    calls: &mut Calls<T>,
    digest: &str,
) -> Result<(), AllocError> {
    let answer = calls.client.blob_exists(
        alloc,
        &mut calls.transport,
        calls.target.moment,
        &calls.target.other,
        digest,
    );
    blob_line(alloc, &mut calls.out, digest, answer)
}

fn ask_blobs<T: Transport>(alloc: Global, calls: &mut Calls<T>) -> Result<(), AllocError> {
    for digest in BLOBS {
        ask_blob(alloc, calls, digest)?;
    }
    ask_blob(alloc, calls, ABSENT)
}

fn list_tags<T: Transport>(alloc: Global, calls: &mut Calls<T>) -> Result<(), AllocError> {
    match calls.client.list_tags(
        alloc,
        &mut calls.transport,
        calls.target.moment,
        &calls.target.reference,
        &calls.target.auth,
        None,
        None,
    ) {
        Ok(listed) => tags_line(&mut calls.out, &listed.name, &listed.tags),
        Err(error) => refused(alloc, &mut calls.out, "tags", error),
    }
}

fn tags_line(out: &mut Blob, name: &Text, tags: &List<Text>) -> Result<(), AllocError> {
    for tag in tags.as_slice() {
        line(out, "tag", &[name.as_str(), tag.as_str()])?;
    }
    Ok(())
}

fn push_bytes<T: Transport>(alloc: Global, calls: &mut Calls<T>) -> Result<(), AllocError> {
    let body = Blob::new(alloc, MANIFEST.as_bytes())?;
    match calls.client.push_manifest_raw(
        alloc,
        &mut calls.transport,
        calls.target.moment,
        &calls.target.reference,
        body,
        MANIFEST_TYPE,
    ) {
        Ok(url) => line(&mut calls.out, "manifest", &[url.as_str()]),
        Err(error) => refused(alloc, &mut calls.out, "manifest", error),
    }
}

fn mount<T: Transport>(
    alloc: Global,
    calls: &mut Calls<T>,
    digest: &str,
) -> Result<(), AllocError> {
    match calls.client.mount_blob(
        alloc,
        &mut calls.transport,
        calls.target.moment,
        &calls.target.other,
        &calls.target.reference,
        digest,
    ) {
        Ok(()) => line(&mut calls.out, "mount", &[digest]),
        Err(error) => refused(alloc, &mut calls.out, "mount", error),
    }
}

fn push_signature<T: Transport>(alloc: Global, calls: &mut Calls<T>) -> Result<(), AllocError> {
    let pushed = push_signed(alloc, &mut calls.transport, &calls.target)?;
    signature_line(alloc, &mut calls.out, &pushed)
}

// Pushes an index of a manifest that the registry does not have.
fn push_index<T: Transport>(alloc: Global, calls: &mut Calls<T>) -> Result<(), AllocError> {
    let Some(index) = index(alloc)? else {
        return Ok(());
    };
    match calls.client.push_manifest_list(
        alloc,
        &mut calls.transport,
        calls.target.moment,
        &calls.target.reference,
        &calls.target.auth,
        index,
    ) {
        Ok(url) => line(&mut calls.out, "index", &[url.as_str()]),
        Err(error) => refused(alloc, &mut calls.out, "index", error),
    }
}

/// Makes all calls, in the order of their lines.
pub fn make_calls<T: Transport>(alloc: Global, calls: &mut Calls<T>) -> Result<(), AllocError> {
    push_image(alloc, calls)?;
    ask_blobs(alloc, calls)?;
    list_tags(alloc, calls)?;
    push_bytes(alloc, calls)?;
    mount(alloc, calls, ABSENT)?;
    for digest in BLOBS {
        mount(alloc, calls, digest)?;
        ask_mounted(alloc, calls, digest)?;
    }
    push_signature(alloc, calls)?;
    push_index(alloc, calls)
}

/// Returns the transport and the lines.
pub fn end_calls<T>(calls: Calls<T>) -> (T, Blob) {
    let Calls { transport, out, .. } = calls;
    (transport, out)
}
