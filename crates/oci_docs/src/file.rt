ghost use Rattle.std.specs.Prelude.{◌≡◌, IfOk, Ok};
ghost use Rattle.serde_json.specs.View.{view};
ghost use Rattle.json_tables.specs.Outcomes.{ReadsDocument};

use crate::config::Config;
use crate::history::History;
use crate::rootfs::Rootfs;
use crate::time::Time;
use json_tables::{
    ReadError, Reads, Required, UnlessEmpty, Writes, object, read_document, read_row,
};
use json_values::{Copied, List, Text, ToValue, copied, row};
use oci_names::{Arch, Os};
use serde_json::Value;
use std::alloc::{AllocError, Global};

/// The configuration file of an image (OCI image specification, config.md).
#[derive(Debug, PartialEq, Eq, Drop)]
pub struct ConfigFile {
    /// When the image was created.
    pub created: Option<Time>,
    /// Who created the image.
    pub author: Option<Text>,
    /// The processor architecture of the programs, for example `amd64`.
    pub architecture: Arch,
    /// The operating system of the programs, for example `linux`.
    pub os: Os,
    /// How a container of the image is started.
    pub config: Option<Config>,
    /// The layers of the file system.
    pub rootfs: Rootfs,
    /// How each layer was created, from the lowest upward.
    pub history: Option<List<History>>,
}

impl ConfigFile {
    ghost use Rattle.oci_docs.specs.File.{file_of};

    /// Reads a file. Returns `Float` if and only if it contains a float, otherwise `Shape` if it does not match.
    pub fn read(alloc: Global, value: &Value) -> Result<ConfigFile, ReadError>
        ensures { ReadsDocument result file_of (view value.now) }
    {
        read_document(alloc, value)
    }
}

impl Reads for ConfigFile {
    ghost use Rattle.oci_docs.specs.File.{file_of};

    ghost reading = { file_of };

    #[tactic(auto, unfolding(crate::specs::File::file_of))]
    fn read_value(alloc: Global, value: &Value) -> Result<ConfigFile, ReadError> {
        let row![created, author, architecture, os, config, rootfs, history] = read_row::<Self, _>(
            alloc,
            value,
            &[
                "created",
                "author",
                "architecture",
                "os",
                "config",
                "rootfs",
                "history",
            ],
        )?;
        Ok(ConfigFile {
            created,
            author,
            architecture: Arch::new(architecture),
            os: Os::new(os),
            config,
            rootfs,
            history,
        })
    }
}

impl Writes for ConfigFile {
    ghost use Rattle.oci_docs.specs.File.{file_written, normal_file};

    ghost written = { file_written };

    ghost normal = { normal_file };

    #[tactic(auto, unfolding(crate::specs::File::file_written))]
    fn write_value(&self, alloc: Global) -> Result<Value, AllocError> {
        let value = object!(alloc, {
            "created": &self.created,
            "author": &self.author,
            "architecture": &self.architecture.as_str(),
            "os": &self.os.as_str(),
            "config": &self.config,
            "rootfs": &Required(&self.rootfs),
            "history": &UnlessEmpty(&self.history),
        })?;
        Ok(value)
    }
}

impl ToValue for ConfigFile {
    ghost use Rattle.oci_docs.specs.File.{file_of, file_written, normal_file};

    ghost written = { file_written };

    /// Writes the file, omitting `None`, an empty history, and empty members of `config`. The result round-trips, with
    /// empty members read as `None`.
    #[tactic(auto, using(json_tables::proofs::Whole::document_again))]
    fn to_value(&self, alloc: Global) -> Result<Value, AllocError>
        ensures exact { IfOk result (λ v. view v ≡ file_written self.now) }
        ensures reads_back { IfOk result
            (λ v. ReadsDocument (Ok (normal_file self.now)) file_of (view v)) }
    {
        let value = self.write_value(alloc)?;
        Ok(value)
    }
}

impl Copied for ConfigFile {
    fn copy(&self, alloc: Global) -> Result<ConfigFile, AllocError> {
        copied!(
            alloc,
            self,
            ConfigFile {
                created,
                author,
                architecture,
                os,
                config,
                rootfs,
                history
            }
        )
    }
}
