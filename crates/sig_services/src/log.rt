//! The log itself: its key, its state, and consistency proofs.
ghost use Rattle.std.specs.Prelude.{◌≡◌, IfOk, OnOk, option_copied, codes};
ghost use Rattle.form_urlencoded.specs.Form.{extend_pairs};
ghost use Rattle.oci_protocol.specs.Runs.{Meets};
ghost use Rattle.sig_services.specs.Error.{is_memory};
ghost use Rattle.sig_services.specs.Log.{field, key_path, proof_path};
ghost use Rattle.sig_services.specs.Log as row;
ghost use Rattle.sig_services.specs.Body.{text_body, json_body};
ghost use Rattle.sig_services.specs.Causes.{RefusedFor};
ghost use Rattle.sig_services.specs.Entities.{public_key_error, log_info_error, log_proof_error};

use crate::call::call;
use crate::configuration::Configuration;
use crate::entities::{GetLogInfoError, GetLogProofError, GetPublicKeyError};
use crate::error::Error;
use form_urlencoded::Serializer;
use json_values::{Json, Text, write_decimal};
use oci_transport::{Method, Transport};
use std::alloc::{AllocError, Global};

// Appends a field of a form, if its value is given.
fn append_field(form: &mut Serializer, name: &str, value: Option<&str>) -> Result<(), AllocError>
    ensures { OnOk result (form.new ≡ record form.old
        { form = extend_pairs form.old.form (field name.now (option_copied value.entry)) }) }
{
    match value {
        Some(value) => form.append_pair(name, value),
        None => Ok(()),
    }
}

fn key_path(alloc: Global, tree_id: Option<&str>) -> Result<Text, AllocError>
    ensures { IfOk result (λ path. path ≡ key_path (option_copied tree_id.entry)) }
{
    let Some(tree_id) = tree_id else {
        return Text::new(alloc, "/log/publicKey");
    };
    let mut form = Serializer::new(String::new(alloc));
    form.append_pair("treeID", tree_id)?;
    let mut path = Text::new(alloc, "/log/publicKey?")?;
    path.push_str(form.finish().as_str())?;
    Ok(path)
}

fn proof_path(
    alloc: Global,
    last_size: u64,
    first_size: Option<&str>,
    tree_id: Option<&str>,
) -> Result<Text, AllocError>
    ensures { IfOk result (λ path. path
        ≡ proof_path last_size (option_copied first_size.entry) (option_copied tree_id.entry)) }
{
    let last_size = write_decimal(alloc, last_size)?;
    let mut form = Serializer::new(String::new(alloc));
    append_field(&mut form, "firstSize", first_size)?;
    form.append_pair("lastSize", last_size.as_str())?;
    append_field(&mut form, "treeID", tree_id)?;
    let mut path = Text::new(alloc, "/log/proof?")?;
    path.push_str(form.finish().as_str())?;
    Ok(path)
}

/// Returns the public key of the log, or of one of its trees, in PEM.
#[tactic(none)]
pub fn get_public_key<T: Transport>(
    alloc: Global,
    transport: &mut T,
    configuration: &Configuration,
    tree_id: Option<&str>,
) -> Result<Text, Error<GetPublicKeyError>>
    ensures run { (k : Unit {0}) → Meets is_memory
        (row.get_public_key configuration.now (option_copied tree_id.entry))
        (T.state transport.old) (T.state transport.new) k k result }
    ensures causes { RefusedFor text_body public_key_error configuration.now (key_path (option_copied tree_id.entry))
        (T.state transport.old) (T.state transport.new) result }
{
    let path = key_path(alloc, tree_id)?;
    call(
        alloc,
        transport,
        configuration,
        Method::Get,
        path.as_str(),
        None,
    )
}

/// Returns the state of the log.
#[tactic(none)]
pub fn get_log_info<T: Transport>(
    alloc: Global,
    transport: &mut T,
    configuration: &Configuration,
) -> Result<Json, Error<GetLogInfoError>>
    ensures run { (k : Unit {0}) → Meets is_memory (row.get_log_info configuration.now)
        (T.state transport.old) (T.state transport.new) k k result }
    ensures causes { RefusedFor json_body log_info_error configuration.now (codes "/log")
        (T.state transport.old) (T.state transport.new) result }
{
    call(alloc, transport, configuration, Method::Get, "/log", None)
}

/// Returns a proof that the log of one size extends that of another.
#[tactic(none)]
pub fn get_log_proof<T: Transport>(
    alloc: Global,
    transport: &mut T,
    configuration: &Configuration,
    last_size: u64,
    first_size: Option<&str>,
    tree_id: Option<&str>,
) -> Result<Json, Error<GetLogProofError>>
    ensures run { (k : Unit {0}) → Meets is_memory (row.get_log_proof configuration.now last_size
        (option_copied first_size.entry) (option_copied tree_id.entry))
        (T.state transport.old) (T.state transport.new) k k result }
    ensures causes { RefusedFor json_body log_proof_error configuration.now
        (proof_path last_size (option_copied first_size.entry) (option_copied tree_id.entry))
        (T.state transport.old) (T.state transport.new) result }
{
    let path = proof_path(alloc, last_size, first_size, tree_id)?;
    call(
        alloc,
        transport,
        configuration,
        Method::Get,
        path.as_str(),
        None,
    )
}
