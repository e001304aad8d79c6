// The file of a lock.
ghost use Rattle.std.specs.Prelude.{◌≡◌, None, IfOk, OnOk};
ghost use Rattle.std.specs.List.{list_all, zip};
ghost use Rattle.serde_json.specs.View.{view};
ghost use Rattle.json_events.specs.Canonical.{Canonical};
ghost use Rattle.json_events.specs.Refused.{refused};
ghost use Rattle.json_events.specs.Values.{IsValue};
ghost use Rattle.pull_lock.specs.Files.{kind_text, lock_data, is_before, increases, WritesLock};

use crate::error::LockError;
use crate::lock::{Lock, LockEntry, LockedSignature};
use cosign_parts::LayerKind;
use json_canon::{CanonError, to_vec};
use json_tables::{Required, Writes, object};
use json_values::{Blob, ToValue};
use serde_json::Value;
use std::alloc::{AllocError, Global};
use std::cmp::Ordering;

// The name of a layer's form.
fn kind_text(kind: LayerKind) -> &'static str
    ensures { result.now ≡ kind_text kind }
{
    match kind {
        LayerKind::Payload => "payload",
        LayerKind::Bundle => "bundle",
    }
}

impl Writes for LockedSignature {
    ghost use Rattle.pull_lock.specs.Files.{signature_data};

    ghost written = { signature_data };

    fn write_value(&self, alloc: Global) -> Result<Value, AllocError> {
        let kind = kind_text(self.kind);
        let value = object!(alloc, {
            "annotations": &Required(&self.annotations),
            "content": &self.content,
            "kind": &kind,
            "oci_digest": &self.oci_digest,
        })?;
        Ok(value)
    }
}

impl Writes for LockEntry {
    ghost use Rattle.pull_lock.specs.Files.{entry_data};

    ghost written = { entry_data };

    fn write_value(&self, alloc: Global) -> Result<Value, AllocError> {
        let value = object!(alloc, {
            "accepted": &self.accepted,
            "digest": &self.digest,
            "first": &self.first,
            "image": &self.image,
            "manifest": &self.manifest,
            "manifest_digest": &self.manifest_digest,
            "signature": &Required(&self.signature),
        })?;
        Ok(value)
    }
}

impl ToValue for Lock {
    ghost use Rattle.pull_lock.specs.Files.{lock_data};

    ghost written = { lock_data };

    fn to_value(&self, alloc: Global) -> Result<Value, AllocError> {
        let version: u8 = 1;
        let value = object!(alloc, {
            "entries": &self.entries,
            "version": &version,
        })?;
        Ok(value)
    }
}

// The canonical text of a value whose numbers are all accepted.
fn value_text<V: ToValue>(alloc: Global, value: &V) -> Result<Blob, AllocError>
    requires { refused (V.written value.now) ≡ None }
    ensures text { IfOk result (Canonical (V.written value.now)) }
    ensures value { OnOk result (IsValue (V.written value.now)) }
{
    match to_vec(alloc, value) {
        Ok(text) => Ok(text),
        Err(CanonError::WantOfMemory) => Err(AllocError),
        Err(_) => unreachable!(),
    }
}

// The canonical text of a lock, in whatever order its entries are.
pub(crate) fn text_of(alloc: Global, lock: &Lock) -> Result<Blob, AllocError>
    ensures text { IfOk result (Canonical (lock_data lock.now)) }
    ensures value { OnOk result (IsValue (lock_data lock.now)) }
{
    value_text(alloc, lock)
}

// Whether each entry's image is less than that of the next entry.
pub(crate) fn increases(entries: &[LockEntry]) -> bool
    ensures { result ≡ increases entries.now }
{
    match entries.split_first() {
        Some((_, others)) => are_before(entries, others),
        None => true,
    }
}

fn are_before(entries: &[LockEntry], others: &[LockEntry]) -> bool
    ensures { result ≡ list_all (λ p. is_before p.0 p.1) (zip entries.now others.now) }
{
    entries
        .iter()
        .zip(others)
        .all(|(entry, next)| is_before(entry, next))
}

fn is_before(entry: &LockEntry, next: &LockEntry) -> bool
    ensures { result ≡ is_before entry.now next.now }
{
    entry.image.as_str().cmp(next.image.as_str()) == Ordering::Less
}

/// Returns the file of a lock: the canonical text (RFC 8785) of its value, without a line feed. `read_lock` reads it as
/// the same lock.
///
/// Returns `Order` if and only if the entries do not increase strictly by the bytes of their images, and `WantOfMemory`
/// if memory runs out.
pub fn write_lock(alloc: Global, lock: &Lock) -> Result<Blob, LockError>
    ensures text { WritesLock lock.now result }
{
    if !increases(lock.entries.as_slice()) {
        return Err(LockError::Order);
    }
    let text = text_of(alloc, lock)?;
    Ok(text)
}
