// Configurations as configuration files.
ghost use Rattle.json_values.specs.Refusals.{Matches};
ghost use Rattle.engine_terms.specs.Error.{is_memory};
ghost use Rattle.oci_engine.specs.ConfigFiles.{config_file};

use engine_terms::OciDistributionError;
use json_values::Copied;
use oci_docs::{ConfigError, ConfigFile};
use oci_manifests::blob::Config;
use std::alloc::Global;

/// Parses the configuration as a configuration file. If it is malformed, `ConfigConversionError` contains it.
pub fn config_file(alloc: Global, config: &Config) -> Result<ConfigFile, OciDistributionError>
    ensures { Matches is_memory result (config_file config.now.content) }
{
    match ConfigFile::from_config(alloc, config) {
        Ok(file) => Ok(file),
        Err(ConfigError::Unreadable) => {
            let content = config.content.copy(alloc)?;
            Err(OciDistributionError::ConfigConversionError(content))
        }
        Err(ConfigError::WantOfMemory) => Err(OciDistributionError::WantOfMemory),
    }
}
