// The lock of a file.
ghost use Rattle.std.specs.Prelude.{◌≡◌, ◌↔◌, IsTrue, codes};
ghost use Rattle.serde_json.specs.View.{view};
ghost use Rattle.json_tables.specs.Member.{required, present};
ghost use Rattle.json_tables.specs.Outcomes.{ReadsTo};
ghost use Rattle.pull_lock.specs.Files.{kind_named, kind_of, version_of, ReadsLock, ReadsBack};

use crate::error::LockError;
use crate::lock::{Lock, LockEntry, LockedSignature};
use crate::writing::{increases, text_of};
use cosign_parts::LayerKind;
use json_tables::{Member, ReadError, Reads, only, present, read_plain, read_row, required};
use json_values::{Blob, row};
use serde_json::Value;
use std::alloc::Global;

fn kind_named(text: &str) -> Option<LayerKind>
    ensures { result ≡ kind_named text.now }
{
    match text {
        "payload" => Some(LayerKind::Payload),
        "bundle" => Some(LayerKind::Bundle),
        _ => None,
    }
}

fn read_kind(value: &Value) -> Result<LayerKind, ReadError>
    ensures { ReadsTo result (required kind_of (codes "kind") (view value.now)) }
{
    let Some(Value::String(text)) = value.get("kind") else {
        return Err(ReadError::Shape);
    };
    kind_named(text.as_str()).ok_or(ReadError::Shape)
}

fn read_version(alloc: Global, value: &Value) -> Result<u8, ReadError>
    ensures { ReadsTo result (required version_of (codes "version") (view value.now)) }
{
    let version: u8 = required(alloc, value, "version")?;
    if version == 1 {
        return Ok(version);
    }
    Err(ReadError::Shape)
}

impl Reads for LockedSignature {
    ghost use Rattle.pull_lock.specs.Files.{signature_of};

    ghost reading = { signature_of };

    #[tactic(auto, unfolding(crate::specs::Files::signature_of))]
    fn read_value(alloc: Global, value: &Value) -> Result<LockedSignature, ReadError> {
        only(value, &["annotations", "content", "kind", "oci_digest"])?;
        let kind = read_kind(value)?;
        let row![annotations, content, oci_digest] = read_row::<LockedSignature, _>(
            alloc,
            value,
            &["annotations", "content", "oci_digest"],
        )?;
        Ok(LockedSignature {
            kind,
            oci_digest,
            content,
            annotations,
        })
    }
}

impl Member for LockedSignature {
    ghost use Rattle.pull_lock.specs.Files.{signature_of};

    ghost found = { present signature_of };

    fn read_member(alloc: Global, member: Option<&Value>) -> Result<LockedSignature, ReadError> {
        present(alloc, member)
    }
}

const ENTRY: &[&str] = &[
    "accepted",
    "digest",
    "first",
    "image",
    "manifest",
    "manifest_digest",
    "signature",
];

impl Reads for LockEntry {
    ghost use Rattle.pull_lock.specs.Files.{entry_of};

    ghost reading = { entry_of };

    #[tactic(auto, unfolding(crate::specs::Files::entry_of))]
    fn read_value(alloc: Global, value: &Value) -> Result<LockEntry, ReadError> {
        only(value, ENTRY)?;
        let row![
            accepted,
            digest,
            first,
            image,
            manifest,
            manifest_digest,
            signature
        ] = read_row::<LockEntry, _>(alloc, value, ENTRY)?;
        Ok(LockEntry {
            image,
            accepted,
            digest,
            first,
            manifest_digest,
            manifest,
            signature,
        })
    }
}

impl Reads for Lock {
    ghost use Rattle.pull_lock.specs.Files.{lock_of};

    ghost reading = { lock_of };

    #[tactic(auto, unfolding(crate::specs::Files::lock_of))]
    fn read_value(alloc: Global, value: &Value) -> Result<Lock, ReadError> {
        only(value, &["entries", "version"])?;
        read_version(alloc, value)?;
        let row![entries] = read_row::<Lock, _>(alloc, value, &["entries"])?;
        Ok(Lock { entries })
    }
}

/// Returns the lock of a file. The file of a lock, as `write_lock` writes it, is read as that lock, and each file that is
/// read is what `write_lock` writes of its lock.
///
/// Returns the first of these that applies: `Unreadable` if and only if the bytes are not JSON (RFC 8259) with at most 127
/// levels of nesting and without floats, which is an object of exactly the members of a lock with version 1;
/// `NotCanonical` if and only if they are not the canonical text (RFC 8785) of their value; `Order` if and only if the
/// entries do not increase strictly by the bytes of their images. Returns `WantOfMemory` if memory runs out.
pub fn read_lock(alloc: Global, bytes: &[u8]) -> Result<Lock, LockError>
    ensures exact { ReadsLock bytes.now result }
    ensures again { ReadsBack bytes.now result }
{
    read_exactly(alloc, bytes)
}

fn is_same(text: &Blob, bytes: &[u8]) -> bool
    ensures { IsTrue result ↔ (text.now ≡ bytes.now) }
{
    text.as_slice() == bytes
}

// `again` of `read_lock` follows from this clause alone.
fn read_exactly(alloc: Global, bytes: &[u8]) -> Result<Lock, LockError>
    ensures { ReadsLock bytes.now result }
{
    let Some(lock) = read_plain::<Lock>(alloc, bytes)? else {
        return Err(LockError::Unreadable);
    };
    let text = text_of(alloc, &lock)?;
    if !is_same(&text, bytes) {
        return Err(LockError::NotCanonical);
    }
    if !increases(lock.entries.as_slice()) {
        return Err(LockError::Order);
    }
    Ok(lock)
}
