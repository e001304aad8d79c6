ghost use Rattle.std.specs.Prelude.{◌≡◌, ◌↔◌, IfOk, IsTrue, Ok, codes};
ghost use Rattle.std.specs.Str.{bytes_eq};
ghost use Rattle.std.specs.Cmp.Lexicographic.{pointwise};
ghost use Rattle.serde_json.specs.View.{view};
ghost use Rattle.json_tables.specs.Outcomes.{ReadsDocument};
ghost use Rattle.oci_docs.specs.declared.rootfs.TheConstants.{ROOTFS_TYPE};

use json_tables::{Member, ReadError, Reads, Writes, object, present, read_document, read_row};
use json_values::{Copied, List, Text, ToValue, copied, row};
use serde_json::Value;
use std::alloc::{AllocError, Global};

/// The kind of a root file system that consists of layers.
pub const ROOTFS_TYPE: &'static str = "layers";

/// States the text of the constant.
pub fn rootfs_type_is_layers()
    ensures { ROOTFS_TYPE.now ≡ codes "layers" }
{}

/// The layers of a root file system (OCI image specification, config.md, `rootfs`).
#[derive(Debug, Drop)]
pub struct Rootfs {
    /// The member `type`.
    pub kind: Text,
    /// The digests of the uncompressed layers, from the lowest upward.
    pub diff_ids: List<Text>,
}

impl Rootfs {
    ghost use Rattle.oci_docs.specs.Rootfs.{rootfs_of, no_layers};

    /// Reads the member. Returns `Float` if and only if it contains a float, otherwise `Shape` if it does not match.
    pub fn read(alloc: Global, value: &Value) -> Result<Rootfs, ReadError>
        ensures { ReadsDocument result rootfs_of (view value.now) }
    {
        read_document(alloc, value)
    }

    /// Returns the kind `layers` without layers.
    pub fn default(alloc: Global) -> Result<Rootfs, AllocError>
        ensures { IfOk result (λ rootfs. rootfs ≡ no_layers) }
    {
        let kind = Text::new(alloc, ROOTFS_TYPE)?;
        Ok(Rootfs {
            kind,
            diff_ids: List::new(alloc),
        })
    }
}

impl Reads for Rootfs {
    ghost use Rattle.oci_docs.specs.Rootfs.{rootfs_of};

    ghost reading = { rootfs_of };

    #[tactic(auto, unfolding(crate::specs::Rootfs::rootfs_of))]
    fn read_value(alloc: Global, value: &Value) -> Result<Rootfs, ReadError> {
        let row![kind, diff_ids] = read_row::<Self, _>(alloc, value, &["type", "diff_ids"])?;
        Ok(Rootfs { kind, diff_ids })
    }
}

impl Member for Rootfs {
    ghost use Rattle.json_tables.specs.Member.{present};
    ghost use Rattle.oci_docs.specs.Rootfs.{rootfs_of};

    ghost found = { present rootfs_of };

    fn read_member(alloc: Global, member: Option<&Value>) -> Result<Rootfs, ReadError> {
        present(alloc, member)
    }
}

impl Writes for Rootfs {
    ghost use Rattle.oci_docs.specs.Rootfs.{rootfs_written};

    ghost written = { rootfs_written };

    #[tactic(auto, unfolding(crate::specs::Rootfs::rootfs_written))]
    fn write_value(&self, alloc: Global) -> Result<Value, AllocError> {
        let value = object!(alloc, {
            "type": &self.kind,
            "diff_ids": &self.diff_ids,
        })?;
        Ok(value)
    }
}

impl ToValue for Rootfs {
    ghost use Rattle.oci_docs.specs.Rootfs.{rootfs_of, rootfs_written};

    ghost written = { rootfs_written };

    /// Writes the layers. The result round-trips.
    #[tactic(auto, using(json_tables::proofs::Whole::document_again))]
    fn to_value(&self, alloc: Global) -> Result<Value, AllocError>
        ensures exact { IfOk result (λ v. view v ≡ rootfs_written self.now) }
        ensures reads_back { IfOk result (λ v. ReadsDocument (Ok self.now) rootfs_of (view v)) }
    {
        let value = self.write_value(alloc)?;
        Ok(value)
    }
}

impl Copied for Rootfs {
    fn copy(&self, alloc: Global) -> Result<Rootfs, AllocError> {
        copied!(alloc, self, Rootfs { kind, diff_ids })
    }
}

#[tactic(auto, using(crate::proofs::Texts::texts_decided))]
fn are_same(a: &List<Text>, b: &List<Text>) -> bool
    ensures value { result ≡ pointwise bytes_eq a.now b.now }
    ensures same { IsTrue result ↔ (a.now ≡ b.now) }
{
    a.as_slice() == b.as_slice()
}

/// Root file systems are equal if all fields are equal.
impl PartialEq for Rootfs {
    ghost use Rattle.std.specs.Cmp.{partial_equiv_from_equiv};
    ghost use Rattle.oci_docs.specs.Equalities.{is_same_rootfs, roots};

    ghost eq = { is_same_rootfs };

    ghost laws = { partial_equiv_from_equiv roots };

    fn eq(&self, other: &Rootfs) -> bool
        ensures value { result ≡ is_same_rootfs self.now other.now }
        ensures same { IsTrue result ↔ (self.now ≡ other.now) }
    {
        self.kind == other.kind && are_same(&self.diff_ids, &other.diff_ids)
    }
}

impl Eq for Rootfs {
    ghost use Rattle.oci_docs.specs.Equalities.{roots};

    ghost laws = { roots };
}
