ghost use Rattle.std.specs.Prelude.{◌≡◌, IfOk};
ghost use Rattle.oci_docs.specs.Conversion.{file_text};

use crate::file::ConfigFile;
use json_tables::read_plain;
use json_values::{Annotations, Blob, Copied, ToValue};
use oci_manifests::blob::Config;
use std::alloc::{AllocError, Global};
use thiserror::Error;

/// Why a configuration contains no file.
#[derive(Clone, Copy, Debug, PartialEq, Eq, Error)]
pub enum ConfigError {
    /// Its bytes are not JSON, or not a configuration file.
    #[error("the configuration is not a configuration file: its bytes are not JSON, or a member of config.md is missing")]
    Unreadable,
    /// The allocator is out of memory.
    #[error("out of memory: free some and try again")]
    WantOfMemory,
}

impl Copied for ConfigError {
    fn copy(&self, _alloc: Global) -> Result<ConfigError, AllocError> {
        Ok(*self)
    }
}

impl From<AllocError> for ConfigError {
    ghost use Rattle.std.specs.Prelude.{◌≡◌};
    ghost use Rattle.oci_docs.specs.declared.conversion.ConfigError.TheVariants.{WantOfMemory};

    ghost from_gives = { λ _ e. e ≡ WantOfMemory };

    fn from(_error: AllocError) -> ConfigError {
        ConfigError::WantOfMemory
    }
}

impl ConfigFile {
    ghost use Rattle.oci_docs.specs.Conversion.{ReadsFile};

    /// Returns what `read` returns for the JSON of the configuration's bytes, `Unreadable` if and only if they are not
    /// JSON or `read` refuses it.
    pub fn from_config(alloc: Global, config: &Config) -> Result<ConfigFile, ConfigError>
        ensures { ReadsFile result config.now.content }
    {
        let Some(file) = read_plain::<ConfigFile>(alloc, config.content.as_slice())? else {
            return Err(ConfigError::Unreadable);
        };
        Ok(file)
    }
}

/// A configuration that contains a file.
pub trait FromConfigFile: Sized {
    ghost use Rattle.std.specs.Prelude.{ℕ, List, Option};
    ghost use Rattle.std.specs.FinMap.{FinMap};
    ghost use Rattle.json_values.specs.Places.{by_bytes};
    ghost use Rattle.oci_docs.specs.declared.file.ConfigFile.{ConfigFile};

    /// The configuration with this file and these annotations.
    ghost holding: { ConfigFile → Option (FinMap by_bytes (List ℕ)) → Self };

    /// Returns the compact text of the file's value, with OCI's media type of configurations.
    fn oci_v1_from_config_file(
        alloc: Global,
        config_file: &ConfigFile,
        annotations: Option<Annotations>,
    ) -> Result<Self, AllocError>
        ensures { IfOk result (λ config. config ≡ holding config_file.now annotations) };
}

impl FromConfigFile for Config {
    ghost use Rattle.oci_docs.specs.Conversion.{holding};

    ghost holding = { holding };

    fn oci_v1_from_config_file(
        alloc: Global,
        config_file: &ConfigFile,
        annotations: Option<Annotations>,
    ) -> Result<Config, AllocError> {
        let content = file_text(alloc, config_file)?;
        Config::oci_v1(alloc, content, annotations)
    }
}

fn file_text(alloc: Global, file: &ConfigFile) -> Result<Blob, AllocError>
    ensures { IfOk result (λ text. text ≡ file_text file.now) }
{
    let value = file.to_value(alloc)?;
    let text = value.to_string(alloc)?;
    let bytes = Blob::new(alloc, text.as_str().as_bytes())?;
    Ok(bytes)
}
