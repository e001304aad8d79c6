//! How a container is started.
ghost use Rattle.std.specs.Prelude.{◌≡◌, IfOk, Ok};
ghost use Rattle.serde_json.specs.View.{view};
ghost use Rattle.json_tables.specs.Outcomes.{ReadsTo, ReadsDocument};
ghost use Rattle.oci_docs.specs.Config.{config_members};

use json_tables::{
    ReadError, Reads, UnlessEmpty, Writes, an_object, object, read_document, read_row,
};
use json_values::{Annotations, Copied, List, Text, TextSet, ToValue, copied, row};
pub use oci_names::{Arch as Architecture, Os};
use serde_json::Value;
use std::alloc::{AllocError, Global};

/// How a container is started (OCI image specification, config.md, `config`).
#[derive(Debug, PartialEq, Eq, Drop)]
pub struct Config {
    /// The user, and optionally the group, of the process: `User`.
    pub user: Option<Text>,
    /// The ports that the container exposes, for example `8080/tcp`: `ExposedPorts`.
    pub exposed_ports: Option<TextSet>,
    /// Environment variables, as `NAME=value`: `Env`.
    pub env: Option<List<Text>>,
    /// The default arguments: `Cmd`.
    pub cmd: Option<List<Text>>,
    /// The command that starts the container: `Entrypoint`.
    pub entrypoint: Option<List<Text>>,
    /// The directories to which the container writes its own data: `Volumes`.
    pub volumes: Option<TextSet>,
    /// The working directory of the process: `WorkingDir`.
    pub working_dir: Option<Text>,
    /// Labels by name, for any use: `Labels`.
    pub labels: Option<Annotations>,
    /// The signal that stops the container, for example `SIGTERM`: `StopSignal`.
    pub stop_signal: Option<Text>,
}

impl Config {
    ghost use Rattle.oci_docs.specs.Config.{config_of, no_config};

    /// Reads the member. Returns `Float` if and only if it contains a float, otherwise `Shape` if it does not match.
    pub fn read(alloc: Global, value: &Value) -> Result<Config, ReadError>
        ensures { ReadsDocument result config_of (view value.now) }
    {
        read_document(alloc, value)
    }

    /// Returns a configuration in which all fields are `None`.
    pub fn default(_alloc: Global) -> Result<Config, AllocError>
        ensures { IfOk result (λ config. config ≡ no_config) }
    {
        Ok(Config {
            user: None,
            exposed_ports: None,
            env: None,
            cmd: None,
            entrypoint: None,
            volumes: None,
            working_dir: None,
            labels: None,
            stop_signal: None,
        })
    }
}

impl Reads for Config {
    ghost use Rattle.oci_docs.specs.Config.{config_of};

    ghost reading = { config_of };

    #[tactic(auto, unfolding(crate::specs::Config::config_of), using(crate::proofs::Again::object_rules))]
    fn read_value(alloc: Global, value: &Value) -> Result<Config, ReadError> {
        an_object(value)?;
        let config = config_members(alloc, value)?;
        Ok(config)
    }
}

#[tactic(auto, unfolding(crate::specs::Config::config_members))]
fn config_members(alloc: Global, value: &Value) -> Result<Config, ReadError>
    ensures { ReadsTo result (config_members (view value.now)) }
{
    let row![
        user,
        exposed_ports,
        env,
        cmd,
        entrypoint,
        volumes,
        working_dir,
        labels,
        stop_signal
    ] = read_row::<Config, _>(
        alloc,
        value,
        &[
            "User",
            "ExposedPorts",
            "Env",
            "Cmd",
            "Entrypoint",
            "Volumes",
            "WorkingDir",
            "Labels",
            "StopSignal",
        ],
    )?;
    Ok(Config {
        user,
        exposed_ports,
        env,
        cmd,
        entrypoint,
        volumes,
        working_dir,
        labels,
        stop_signal,
    })
}

impl Writes for Config {
    ghost use Rattle.oci_docs.specs.Config.{config_written, normal_config};

    ghost written = { config_written };

    ghost normal = { normal_config };

    #[tactic(auto, unfolding(crate::specs::Config::config_written))]
    fn write_value(&self, alloc: Global) -> Result<Value, AllocError> {
        let value = object!(alloc, {
            "User": &self.user,
            "ExposedPorts": &UnlessEmpty(&self.exposed_ports),
            "Env": &UnlessEmpty(&self.env),
            "Cmd": &UnlessEmpty(&self.cmd),
            "Entrypoint": &UnlessEmpty(&self.entrypoint),
            "Volumes": &UnlessEmpty(&self.volumes),
            "WorkingDir": &self.working_dir,
            "Labels": &UnlessEmpty(&self.labels),
            "StopSignal": &self.stop_signal,
        })?;
        Ok(value)
    }
}

impl ToValue for Config {
    ghost use Rattle.oci_docs.specs.Config.{config_of, config_written, normal_config};

    ghost written = { config_written };

    /// Writes the member, omitting `None` and empty members. The result round-trips, with empty members read as `None`.
    #[tactic(auto, using(json_tables::proofs::Whole::document_again))]
    fn to_value(&self, alloc: Global) -> Result<Value, AllocError>
        ensures exact { IfOk result (λ v. view v ≡ config_written self.now) }
        ensures reads_back { IfOk result
            (λ v. ReadsDocument (Ok (normal_config self.now)) config_of (view v)) }
    {
        let value = self.write_value(alloc)?;
        Ok(value)
    }
}

impl Copied for Config {
    fn copy(&self, alloc: Global) -> Result<Config, AllocError> {
        copied!(
            alloc,
            self,
            Config {
                user,
                exposed_ports,
                env,
                cmd,
                entrypoint,
                volumes,
                working_dir,
                labels,
                stop_signal
            }
        )
    }
}
