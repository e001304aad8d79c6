ghost use Rattle.std.specs.Prelude.{◌≡◌, IfOk, Ok};
ghost use Rattle.serde_json.specs.View.{view};
ghost use Rattle.service_models.specs.ModelError.{ReadsModel};

use crate::model_error::{ModelError, read_model};
use crate::whole::Size;
use json_tables::{ReadError, Reads, Writes, object, read_row};
use json_values::{Copied, Text, ToValue, copied, row};
use serde_json::Value;
use std::alloc::{AllocError, Global};

/// A part of the log that accepts no more entries (Rekor's API, `InactiveShardLogInfo`).
#[derive(Debug, Drop)]
pub struct InactiveShardLogInfo {
    /// The hash at the root of its tree.
    pub root_hash: Text,
    /// The number of entries.
    pub tree_size: u64,
    /// The signed tree head, as the log signed it.
    pub signed_tree_head: Text,
    pub tree_id: Text,
}

impl InactiveShardLogInfo {
    ghost use Rattle.service_models.specs.InactiveShard.{shard_of};

    pub fn new(
        root_hash: Text,
        tree_size: u64,
        signed_tree_head: Text,
        tree_id: Text,
    ) -> InactiveShardLogInfo
        ensures { result ≡ record {
          root_hash = root_hash;
          tree_size = tree_size;
          signed_tree_head = signed_tree_head;
          tree_id = tree_id;
        } }
    {
        InactiveShardLogInfo {
            root_hash,
            tree_size,
            signed_tree_head,
            tree_id,
        }
    }

    /// Reads a shard. Returns `Float` if and only if it contains a float, otherwise `Shape` if it does not match.
    pub fn read(alloc: Global, value: &Value) -> Result<InactiveShardLogInfo, ModelError>
        ensures { ReadsModel result shard_of (view value.now) }
    {
        read_model(alloc, value)
    }
}

impl Reads for InactiveShardLogInfo {
    ghost use Rattle.service_models.specs.InactiveShard.{shard_of};

    ghost reading = { shard_of };

    #[tactic(auto, unfolding(crate::specs::InactiveShard::shard_of))]
    fn read_value(alloc: Global, value: &Value) -> Result<InactiveShardLogInfo, ReadError> {
        let row![root_hash, tree_size, signed_tree_head, tree_id] = read_row::<Self, _>(
            alloc,
            value,
            &["rootHash", "treeSize", "signedTreeHead", "treeID"],
        )?;
        Ok(InactiveShardLogInfo {
            root_hash,
            tree_size,
            signed_tree_head,
            tree_id,
        })
    }
}

impl Writes for InactiveShardLogInfo {
    ghost use Rattle.service_models.specs.InactiveShard.{shard_written};

    ghost written = { shard_written };

    #[tactic(auto, unfolding(crate::specs::InactiveShard::shard_written))]
    fn write_value(&self, alloc: Global) -> Result<Value, AllocError> {
        let size = Size {
            size: self.tree_size,
        };
        let value = object!(alloc, {
            "rootHash": &self.root_hash,
            "treeSize": &size,
            "signedTreeHead": &self.signed_tree_head,
            "treeID": &self.tree_id,
        })?;
        Ok(value)
    }
}

impl ToValue for InactiveShardLogInfo {
    ghost use Rattle.service_models.specs.InactiveShard.{shard_of, shard_written};

    ghost written = { shard_written };

    /// Writes the shard. The result round-trips.
    #[tactic(auto, using(json_tables::proofs::Whole::document_again))]
    fn to_value(&self, alloc: Global) -> Result<Value, AllocError>
        ensures exact { IfOk result (λ v. view v ≡ shard_written self.now) }
        ensures reads_back { IfOk result (λ v. ReadsModel (Ok self.now) shard_of (view v)) }
    {
        let value = self.write_value(alloc)?;
        Ok(value)
    }
}

impl Copied for InactiveShardLogInfo {
    fn copy(&self, alloc: Global) -> Result<InactiveShardLogInfo, AllocError> {
        copied!(
            alloc,
            self,
            InactiveShardLogInfo {
                root_hash,
                tree_size,
                signed_tree_head,
                tree_id
            }
        )
    }
}
