// The input of `check`.
ghost use Rattle.std.specs.Prelude.{◌≡◌, IfOk, IfSome, None, codes};
ghost use Rattle.serde_json.specs.View.{view};
ghost use Rattle.json_tables.specs.Outcomes.{ReadsTo};
ghost use Rattle.json_tables.specs.Member.{at_name, present, required};
ghost use Rattle.recorded_case.specs.Case.{IsReady};
ghost use Rattle.recorded_case.specs.Members.{unless_absent};
ghost use Rattle.locked_cases.specs.ChainInput.{chain_input_in, kind_of, kind_named, some_entry_of};

use cosign_parts::LayerKind;
use json_tables::{Member, ReadError, Reads, only, present, read_plain, read_row, required};
use json_values::{Annotations, Blob, List, Text, row};
use recorded_case::Case;
use serde_json::Value;
use std::alloc::{AllocError, Global};

/// A signature layer: `{"kind": "payload" or "bundle", "content": bytes, "annotations": {name: text}}`.
#[derive(Drop)]
pub struct WrittenSignature {
    pub kind: LayerKind,
    pub content: Blob,
    pub annotations: Annotations,
}

/// The document that an index led to: `{"digest": text, "content": bytes}`.
#[derive(Drop)]
pub struct WrittenEntry {
    pub digest: Text,
    pub content: Blob,
}

/// The documents and blobs of an image, and its signature layer: a JSON object with exactly one member for each field,
/// of the field's name.
#[derive(Drop)]
pub struct WrittenChain {
    /// The digest that was returned for the reference.
    pub digest: Text,
    /// The document of that digest.
    pub first: Blob,
    /// The manifest that the first document led to, if that is an index; the member may be absent.
    pub entry: Option<WrittenEntry>,
    pub config: Blob,
    /// In the manifest's order.
    pub layers: List<Blob>,
    pub signature: WrittenSignature,
}

/// A case, and a chain that is checked against it: `{"case": case, "chain": chain}`.
#[derive(Drop)]
pub struct ChainInput {
    pub case: Case,
    pub chain: WrittenChain,
}

fn kind_named(text: &str) -> Option<LayerKind>
    ensures { result ≡ kind_named text.now }
{
    match text {
        "payload" => Some(LayerKind::Payload),
        "bundle" => Some(LayerKind::Bundle),
        _ => None,
    }
}

fn read_kind(value: &Value) -> Result<LayerKind, ReadError>
    ensures { ReadsTo result (required kind_of (codes "kind") (view value.now)) }
{
    let Some(Value::String(text)) = value.get("kind") else {
        return Err(ReadError::Shape);
    };
    kind_named(text.as_str()).ok_or(ReadError::Shape)
}

impl Reads for WrittenSignature {
    ghost use Rattle.locked_cases.specs.ChainInput.{signature_of};

    ghost reading = { signature_of };

    #[tactic(auto, unfolding(crate::specs::ChainInput::signature_of))]
    fn read_value(alloc: Global, value: &Value) -> Result<WrittenSignature, ReadError> {
        only(value, &["kind", "content", "annotations"])?;
        let kind = read_kind(value)?;
        let row![content, annotations] = read_row::<WrittenSignature, _>(
            alloc,
            value,
            &["content", "annotations"],
        )?;
        Ok(WrittenSignature {
            kind,
            content,
            annotations,
        })
    }
}

impl Member for WrittenSignature {
    ghost use Rattle.locked_cases.specs.ChainInput.{signature_of};

    ghost found = { present signature_of };

    fn read_member(alloc: Global, member: Option<&Value>) -> Result<WrittenSignature, ReadError> {
        present(alloc, member)
    }
}

impl Reads for WrittenEntry {
    ghost use Rattle.locked_cases.specs.ChainInput.{entry_of};

    ghost reading = { entry_of };

    #[tactic(auto, unfolding(crate::specs::ChainInput::entry_of))]
    fn read_value(alloc: Global, value: &Value) -> Result<WrittenEntry, ReadError> {
        only(value, &["digest", "content"])?;
        let row![digest, content] = read_row::<WrittenEntry, _>(
            alloc,
            value,
            &["digest", "content"],
        )?;
        Ok(WrittenEntry { digest, content })
    }
}

// The manifest that an index led to; `None` if the member is absent.
fn read_entry(alloc: Global, value: &Value) -> Result<Option<WrittenEntry>, ReadError>
    ensures { ReadsTo result (at_name (unless_absent None some_entry_of) (codes "entry") (view value.now)) }
{
    match value.get("entry") {
        Some(entry) => Ok(Some(Reads::read_value(alloc, entry)?)),
        None => Ok(None),
    }
}

const NAMES: &[&str] = &["digest", "first", "entry", "config", "layers", "signature"];

impl Reads for WrittenChain {
    ghost use Rattle.locked_cases.specs.ChainInput.{chain_of};

    ghost reading = { chain_of };

    #[tactic(auto, unfolding(crate::specs::ChainInput::chain_of))]
    fn read_value(alloc: Global, value: &Value) -> Result<WrittenChain, ReadError> {
        only(value, NAMES)?;
        let entry = read_entry(alloc, value)?;
        let row![digest, first, config, layers, signature] = read_row::<WrittenChain, _>(
            alloc,
            value,
            &["digest", "first", "config", "layers", "signature"],
        )?;
        Ok(WrittenChain {
            digest,
            first,
            entry,
            config,
            layers,
            signature,
        })
    }
}

impl Reads for ChainInput {
    ghost use Rattle.locked_cases.specs.ChainInput.{chain_input_of};

    ghost reading = { chain_input_of };

    #[tactic(auto, unfolding(crate::specs::ChainInput::chain_input_of))]
    fn read_value(alloc: Global, value: &Value) -> Result<ChainInput, ReadError> {
        only(value, &["case", "chain"])?;
        let chain: WrittenChain = required(alloc, value, "chain")?;
        let case: Case = required(alloc, value, "case")?;
        Ok(ChainInput { case, chain })
    }
}

/// Parses a case and a chain. Returns `None` if and only if the bytes are not a JSON text (RFC 8259) with at most 127
/// levels of nesting, contain a float, or are not an object of a case and a chain.
pub fn read_chain_input(alloc: Global, bytes: &[u8]) -> Result<Option<ChainInput>, AllocError>
    ensures exact { IfOk result (λ found. found ≡ chain_input_in bytes.now) }
    ensures ready { IfOk result (λ found. IfSome found (λ input. IsReady input.case)) }
{
    let input = read_plain(alloc, bytes)?;
    Ok(input)
}
