ghost use Rattle.std.specs.Prelude.{◌≡◌, ◌+◌, ◌≤◌, ◌++◌, ◌↔◌, [], length, IfOk, IsTrue, OnOk, OnErr};

use crate::copied::Copied;
use std::alloc::{AllocError, Global};
use std::fmt;
use std::marker::Model;

// Texts up to this length in bytes are copied instead of reserving room before them.
const SHORT: usize = 256;

/// Bytes. A contract sees a list of bytes.
#[derive(Drop)]
pub struct Blob {
    // The bytes start at index `start`. The room before it is for bytes that are prepended.
    inner: Vec<u8>,
    start: usize,
}

impl Model for Blob {
    ghost use Rattle.std.specs.Prelude.{ℕ, ◌≤◌, List, drop, vec_len};

    ghost Value = { List ℕ };

    ghost view = { λ b. drop b.start b.inner.items };

    ghost invariant = { λ b. b.start ≤ vec_len b.inner };
}

impl Blob {
    /// Copies these bytes.
    pub fn new(alloc: Global, bytes: &[u8]) -> Result<Blob, AllocError>
        ensures { IfOk result (λ b. b ≡ bytes.now) }
    {
        Ok(Blob {
            inner: Vec::from_slice(alloc, bytes)?,
            start: 0,
        })
    }

    /// Returns an empty `Blob`.
    pub fn empty(alloc: Global) -> Blob
        ensures { result ≡ [] }
    {
        Blob {
            inner: Vec::new(alloc),
            start: 0,
        }
    }

    /// Wraps a vector without copying it.
    pub fn from_vec(bytes: Vec<u8>) -> Blob
        ensures { result ≡ bytes.items }
    {
        Blob {
            inner: bytes,
            start: 0,
        }
    }

    /// Appends bytes.
    pub fn append(&mut self, bytes: &[u8]) -> Result<(), AllocError>
        ensures ok { OnOk result (self.new ≡ self.old ++ bytes.now) }
        ensures err { OnErr result (self.new ≡ self.old) }
    {
        self.inner.extend_from_slice(bytes)
    }

    /// Returns the bytes.
    pub fn as_slice(&self) -> &[u8]
        ensures { result.now ≡ self.now }
    {
        &self.inner[self.start..]
    }

    /// Appends the bytes of `next` to these. Of two long operands the shorter one is copied, so that repeated joins
    /// do not copy the same bytes each time.
    pub fn join(self, next: Blob) -> Result<Blob, AllocError>
        ensures { IfOk result (λ b. b ≡ self ++ next) }
    {
        let mut first = self;
        let mut second = next;
        let length = second.as_slice().len();
        if length <= SHORT || length <= first.as_slice().len() {
            first.append(second.as_slice())?;
            return Ok(first);
        }
        second.prepend(first.as_slice())?;
        Ok(second)
    }

    // Prepends bytes. If the room is too small, moves the bytes and leaves room for as many again.
    fn prepend(&mut self, bytes: &[u8]) -> Result<(), AllocError>
        requires { length bytes.now ≤ length self.old }
        ensures { OnOk result (self.new ≡ bytes.now ++ self.old) }
    {
        if self.start < bytes.len() {
            let end = self.inner.len();
            self.inner.extend_from_within(self.start..)?;
            self.start = end;
        }
        let start = self.start - bytes.len();
        self.inner[start..self.start].copy_from_slice(bytes);
        self.start = start;
        Ok(())
    }
}

impl fmt::Debug for Blob {
    fn fmt<W: fmt::Write>(&self, f: &mut fmt::Formatter<W>) -> fmt::Result {
        let bytes = self.as_slice();
        write!(f, "Blob({bytes:?})")
    }
}

impl Copied for Blob {
    fn copy(&self, alloc: Global) -> Result<Blob, AllocError> {
        Blob::new(alloc, self.as_slice())
    }
}

impl PartialEq for Blob {
    ghost use Rattle.std.specs.Str.{bytes_eq};
    ghost use Rattle.std.specs.Cmp.{partial_equiv_from_equiv};
    ghost use Rattle.std.specs.Cmp.Lexicographic.{nat_list_eq_equiv};

    ghost eq = { bytes_eq };

    ghost laws = { partial_equiv_from_equiv nat_list_eq_equiv };

    fn eq(&self, other: &Blob) -> bool
        ensures value { result ≡ bytes_eq self.now other.now }
        ensures same { IsTrue result ↔ (self.now ≡ other.now) }
    {
        self.as_slice() == other.as_slice()
    }
}

impl Eq for Blob {
    ghost use Rattle.std.specs.Cmp.Lexicographic.{nat_list_eq_equiv};

    ghost laws = { nat_list_eq_equiv };
}
