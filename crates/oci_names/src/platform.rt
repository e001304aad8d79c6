// The architecture and the operating system of a platform.
ghost use Rattle.std.specs.Prelude.{◌≡◌, ◌↔◌, IsTrue};

use json_values::{Copied, Text};
use std::alloc::{AllocError, Global};
use std::marker::Model;

/// The architecture of a platform, by its name in Go (OCI image index, `platform`). A contract sees
/// its text.
#[derive(Debug, Drop)]
pub struct Arch {
    name: Text,
}

impl Model for Arch {
    ghost use Rattle.std.specs.Prelude.{ℕ, List};

    ghost Value = { List ℕ };

    ghost view = { λ a. a.name };
}

impl Arch {
    /// 64-bit x86.
    pub const AMD64: &'static str = "amd64";

    /// 64-bit ARM.
    pub const ARM64: &'static str = "arm64";

    /// Wraps any name of an architecture.
    pub fn new(text: Text) -> Self
        ensures { result ≡ text }
    {
        Arch { name: text }
    }

    /// Returns its name.
    pub fn as_str(&self) -> &str
        ensures { result.now ≡ self.now }
    {
        self.name.as_str()
    }
}

impl Copied for Arch {
    fn copy(&self, alloc: Global) -> Result<Arch, AllocError> {
        let name = self.name.copy(alloc)?;
        Ok(Arch { name })
    }
}

impl PartialEq for Arch {
    ghost use Rattle.std.specs.Str.{bytes_eq};
    ghost use Rattle.std.specs.Cmp.{partial_equiv_from_equiv};
    ghost use Rattle.std.specs.Cmp.Lexicographic.{nat_list_eq_equiv};

    ghost eq = { bytes_eq };

    ghost laws = { partial_equiv_from_equiv nat_list_eq_equiv };

    fn eq(&self, other: &Arch) -> bool
        ensures value { result ≡ bytes_eq self.now other.now }
        ensures same { IsTrue result ↔ (self.now ≡ other.now) }
    {
        self.as_str() == other.as_str()
    }
}

impl Eq for Arch {
    ghost use Rattle.std.specs.Cmp.Lexicographic.{nat_list_eq_equiv};

    ghost laws = { nat_list_eq_equiv };
}

/// The operating system of a platform, by its name in Go (OCI image index, `platform`). A contract sees
/// its text.
#[derive(Debug, Drop)]
pub struct Os {
    name: Text,
}

impl Model for Os {
    ghost use Rattle.std.specs.Prelude.{ℕ, List};

    ghost Value = { List ℕ };

    ghost view = { λ a. a.name };
}

impl Os {
    /// Linux.
    pub const LINUX: &'static str = "linux";

    /// Windows.
    pub const WINDOWS: &'static str = "windows";

    /// Wraps any name of an operating system.
    pub fn new(text: Text) -> Self
        ensures { result ≡ text }
    {
        Os { name: text }
    }

    /// Returns its name.
    pub fn as_str(&self) -> &str
        ensures { result.now ≡ self.now }
    {
        self.name.as_str()
    }
}

impl Copied for Os {
    fn copy(&self, alloc: Global) -> Result<Os, AllocError> {
        let name = self.name.copy(alloc)?;
        Ok(Os { name })
    }
}

impl PartialEq for Os {
    ghost use Rattle.std.specs.Str.{bytes_eq};
    ghost use Rattle.std.specs.Cmp.{partial_equiv_from_equiv};
    ghost use Rattle.std.specs.Cmp.Lexicographic.{nat_list_eq_equiv};

    ghost eq = { bytes_eq };

    ghost laws = { partial_equiv_from_equiv nat_list_eq_equiv };

    fn eq(&self, other: &Os) -> bool
        ensures value { result ≡ bytes_eq self.now other.now }
        ensures same { IsTrue result ↔ (self.now ≡ other.now) }
    {
        self.as_str() == other.as_str()
    }
}

impl Eq for Os {
    ghost use Rattle.std.specs.Cmp.Lexicographic.{nat_list_eq_equiv};

    ghost laws = { nat_list_eq_equiv };
}
