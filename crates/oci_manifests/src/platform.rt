ghost use Rattle.std.specs.Prelude.{◌≡◌, IfOk, Ok};
ghost use Rattle.serde_json.specs.View.{view};
ghost use Rattle.json_tables.specs.Outcomes.{ReadsDocument};

use json_tables::{Member, ReadError, Reads, Writes, object, present, read_document, read_row};
use json_values::{Copied, List, Text, ToValue, copied, row};
use oci_names::{Arch, Os};
use serde_json::Value;
use std::alloc::{AllocError, Global};

/// The platform for which an image is built (OCI image specification, image-index.md).
#[derive(Debug, PartialEq, Eq, Drop)]
pub struct Platform {
    /// The processor architecture of the programs.
    pub architecture: Arch,
    /// The operating system of the programs.
    pub os: Os,
    pub os_version: Option<Text>,
    pub os_features: Option<List<Text>>,
    pub variant: Option<Text>,
    pub features: Option<List<Text>>,
}

impl Platform {
    ghost use Rattle.oci_manifests.specs.Platform.{platform_of};

    /// Reads a platform. Returns `Float` if and only if it contains a float, otherwise `Shape` if it does not match.
    pub fn read(alloc: Global, value: &Value) -> Result<Platform, ReadError>
        ensures { ReadsDocument result platform_of (view value.now) }
    {
        read_document(alloc, value)
    }
}

impl Reads for Platform {
    ghost use Rattle.oci_manifests.specs.Platform.{platform_of};

    ghost reading = { platform_of };

    #[tactic(auto, unfolding(crate::specs::Platform::platform_of))]
    fn read_value(alloc: Global, value: &Value) -> Result<Platform, ReadError> {
        let row![architecture, os, os_version, os_features, variant, features] = read_row::<
            Self,
            _,
        >(
            alloc,
            value,
            &[
                "architecture",
                "os",
                "os.version",
                "os.features",
                "variant",
                "features",
            ],
        )?;
        Ok(Platform {
            architecture: Arch::new(architecture),
            os: Os::new(os),
            os_version,
            os_features,
            variant,
            features,
        })
    }
}

impl Member for Platform {
    ghost use Rattle.json_tables.specs.Member.{present};
    ghost use Rattle.oci_manifests.specs.Platform.{platform_of};

    ghost found = { present platform_of };

    fn read_member(alloc: Global, member: Option<&Value>) -> Result<Platform, ReadError> {
        present(alloc, member)
    }
}

impl Writes for Platform {
    ghost use Rattle.oci_manifests.specs.Platform.{platform_written};

    ghost written = { platform_written };

    #[tactic(auto, unfolding(crate::specs::Platform::platform_written))]
    fn write_value(&self, alloc: Global) -> Result<Value, AllocError> {
        let value = object!(alloc, {
            "architecture": &self.architecture.as_str(),
            "os": &self.os.as_str(),
            "os.version": &self.os_version,
            "os.features": &self.os_features,
            "variant": &self.variant,
            "features": &self.features,
        })?;
        Ok(value)
    }
}

impl ToValue for Platform {
    ghost use Rattle.oci_manifests.specs.Platform.{platform_of, platform_written};

    ghost written = { platform_written };

    /// Writes the platform without its members that are `None`. The result round-trips.
    #[tactic(auto, using(json_tables::proofs::Whole::document_again))]
    fn to_value(&self, alloc: Global) -> Result<Value, AllocError>
        ensures exact { IfOk result (λ v. view v ≡ platform_written self.now) }
        ensures reads_back { IfOk result (λ v. ReadsDocument (Ok self.now) platform_of (view v)) }
    {
        let value = self.write_value(alloc)?;
        Ok(value)
    }
}

impl Copied for Platform {
    fn copy(&self, alloc: Global) -> Result<Platform, AllocError> {
        copied!(
            alloc,
            self,
            Platform {
                architecture,
                os,
                os_version,
                os_features,
                variant,
                features
            }
        )
    }
}
