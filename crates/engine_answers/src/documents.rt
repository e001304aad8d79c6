// Parses documents.
ghost use Rattle.std.specs.Prelude.{◌≡◌, IfOk, Some};
ghost use Rattle.serde_json.specs.View.{view};
ghost use Rattle.json_values.specs.Refusals.{Matches};
ghost use Rattle.engine_terms.specs.Error.{is_memory};
ghost use Rattle.engine_answers.specs.Documents.{plain_of, type_checked, version_checked};
ghost use Rattle.engine_answers.specs.Documents.{versioned_in, tables_read, document_from};
ghost use Rattle.engine_answers.specs.Documents.{document_read};

use engine_terms::OciDistributionError;
use json_values::{Blob, Copied, Json, Text, read_json};
use oci_manifests::{OciManifest, ReadError, Versioned, is_manifest_media_type};
use std::alloc::{AllocError, Global};

// Returns the schema version and the media type, if the data has them.
fn versioned_in(alloc: Global, json: &Option<Json>) -> Result<Option<Versioned>, AllocError>
    ensures { IfOk result (λ versioned. versioned ≡ versioned_in json.now) }
{
    let Some(json) = json else {
        return Ok(None);
    };
    match Versioned::read(alloc, json.value()) {
        Ok(versioned) => Ok(Some(versioned)),
        Err(ReadError::WantOfMemory) => Err(AllocError),
        Err(ReadError::Float) => Ok(None),
        Err(ReadError::Shape) => Ok(None),
        Err(ReadError::Ambiguous) => Ok(None),
    }
}

fn type_checked(kind: Option<Text>) -> Result<(), OciDistributionError>
    ensures { Matches is_memory result (type_checked kind) }
{
    match kind {
        Some(kind) => {
            if is_manifest_media_type(kind.as_str()) {
                return Ok(());
            }
            Err(OciDistributionError::UnsupportedMediaTypeError(kind))
        }
        None => Ok(()),
    }
}

// Checks for schema version 2, and no media type or one of manifests and indexes.
fn version_checked(
    alloc: Global,
    body: &Blob,
    versioned: Option<Versioned>,
) -> Result<(), OciDistributionError>
    ensures { Matches is_memory result (version_checked body.now versioned) }
{
    match versioned {
        Some(versioned) => {
            if versioned.schema_version == 2 {
                return type_checked(versioned.media_type);
            }
            Err(OciDistributionError::UnsupportedSchemaVersionError(versioned.schema_version))
        }
        None => {
            let body = body.copy(alloc)?;
            Err(OciDistributionError::VersionedParsingError(body))
        }
    }
}

// Parses a manifest or an index; a document that parses as both is refused.
#[tactic(auto, using(crate::proofs::Tables::read_outcomes))]
pub(crate) fn tables_read(
    alloc: Global,
    body: &Blob,
    json: &Option<Json>,
) -> Result<OciManifest, OciDistributionError>
    ensures { Matches is_memory result (tables_read body.now (plain_of json.now)) }
{
    let Some(json) = json else {
        let body = body.copy(alloc)?;
        return Err(OciDistributionError::ManifestParsingError(body));
    };
    match OciManifest::read(alloc, json.value()) {
        Ok(document) => Ok(document),
        Err(ReadError::WantOfMemory) => Err(OciDistributionError::WantOfMemory),
        Err(ReadError::Ambiguous) => {
            let body = body.copy(alloc)?;
            Err(OciDistributionError::AmbiguousManifest(body))
        }
        Err(ReadError::Float) => {
            let body = body.copy(alloc)?;
            Err(OciDistributionError::ManifestParsingError(body))
        }
        Err(ReadError::Shape) => {
            let body = body.copy(alloc)?;
            Err(OciDistributionError::ManifestParsingError(body))
        }
    }
}

fn document_from(
    alloc: Global,
    body: &Blob,
    json: &Option<Json>,
) -> Result<OciManifest, OciDistributionError>
    ensures { Matches is_memory result (document_from body.now json.now) }
{
    let versioned = versioned_in(alloc, json)?;
    version_checked(alloc, body, versioned)?;
    let document = tables_read(alloc, body, json)?;
    Ok(document)
}

/// Parses a manifest or index: a document of schema version 2, of no media type or one of the four of manifests and
/// indexes, which parses as one of the two and not as both.
pub fn read_document(alloc: Global, body: &Blob) -> Result<OciManifest, OciDistributionError>
    ensures { Matches is_memory result (document_read body.now) }
{
    let json = read_json(alloc, body.as_slice())?;
    let document = document_from(alloc, body, &json)?;
    Ok(document)
}
