// The first frame that a host sends: what it asks for.
ghost use Rattle.std.specs.Prelude.{IfOk, option_map};
ghost use Rattle.serde_json.specs.View.{view};
ghost use Rattle.json_tables.specs.Outcomes.{ReadsTo};
ghost use Rattle.live_admit.specs.Settings.{admit_of};
ghost use Rattle.live_blobs.specs.Settings.{blobs_of};
ghost use Rattle.live_blobs.specs.CarrySettings.{carry_of};
ghost use Rattle.live_check.specs.Settings.{check_of};
ghost use Rattle.live_copy.specs.Settings.{copy_of};
ghost use Rattle.live_check.specs.LockSettings.{lock_settings_of};
ghost use Rattle.live_pull.specs.Settings.{documents_of, settings_of};
ghost use Rattle.roksnaep_core.specs.First.{first_named, first_of, IsFirstReady};
ghost use Rattle.roksnaep_core.specs.declared.first.FirstFrame.TheVariants as first;

use json_tables::ReadError;
use live_admit::{AdmitSettings, read_admit_settings};
use live_blobs::{BlobSettings, CarrySettings, read_blob_settings, read_carry_settings};
use live_check::{CheckSettings, LockSettings, read_check_settings, read_lock_settings};
use live_copy::{CopySettings, read_copy_settings};
use live_pull::{LiveSettings, read_document_settings, read_settings};
use serde_json::Value;
use std::alloc::Global;

/// What the first frame asks for, with its settings.
#[derive(Drop)]
pub enum FirstFrame {
    /// The frame `settings`: a pull of the whole image.
    Image(LiveSettings),
    /// The frame `documents`: a pull of the documents of the image alone.
    Documents(LiveSettings),
    /// The frame `lockcheck`: whether a lock file holds.
    Lock(LockSettings),
    /// The frame `blobs`: some blobs of an image, which the host keeps.
    Blobs(BlobSettings),
    /// The frame `copy`: a copy of an image to another registry.
    Copy(CopySettings),
    /// The frame `carry`: one blob that is carried to another registry.
    Carry(CarrySettings),
    /// The frame `check`: an image that the host has.
    Check(CheckSettings),
    /// The frame `admit`: admission reviews.
    Admit(AdmitSettings),
}

fn image_first(alloc: Global, value: &Value) -> Result<FirstFrame, ReadError>
    ensures exact { ReadsTo result (option_map first.Image (settings_of (view value.now))) }
    ensures ready { IfOk result IsFirstReady }
{
    let settings = read_settings(alloc, value)?;
    Ok(FirstFrame::Image(settings))
}

fn documents_first(alloc: Global, value: &Value) -> Result<FirstFrame, ReadError>
    ensures exact { ReadsTo result (option_map first.Documents (documents_of (view value.now))) }
    ensures ready { IfOk result IsFirstReady }
{
    let settings = read_document_settings(alloc, value)?;
    Ok(FirstFrame::Documents(settings))
}

fn lock_first(alloc: Global, value: &Value) -> Result<FirstFrame, ReadError>
    ensures exact { ReadsTo result (option_map first.Lock (lock_settings_of (view value.now))) }
    ensures ready { IfOk result IsFirstReady }
{
    let settings = read_lock_settings(alloc, value)?;
    Ok(FirstFrame::Lock(settings))
}

fn blobs_first(alloc: Global, value: &Value) -> Result<FirstFrame, ReadError>
    ensures exact { ReadsTo result (option_map first.Blobs (blobs_of (view value.now))) }
    ensures ready { IfOk result IsFirstReady }
{
    let settings = read_blob_settings(alloc, value)?;
    Ok(FirstFrame::Blobs(settings))
}

fn copy_first(alloc: Global, value: &Value) -> Result<FirstFrame, ReadError>
    ensures exact { ReadsTo result (option_map first.Copy (copy_of (view value.now))) }
    ensures ready { IfOk result IsFirstReady }
{
    let settings = read_copy_settings(alloc, value)?;
    Ok(FirstFrame::Copy(settings))
}

fn carry_first(alloc: Global, value: &Value) -> Result<FirstFrame, ReadError>
    ensures exact { ReadsTo result (option_map first.Carry (carry_of (view value.now))) }
    ensures ready { IfOk result IsFirstReady }
{
    let settings = read_carry_settings(alloc, value)?;
    Ok(FirstFrame::Carry(settings))
}

fn check_first(alloc: Global, value: &Value) -> Result<FirstFrame, ReadError>
    ensures exact { ReadsTo result (option_map first.Check (check_of (view value.now))) }
    ensures ready { IfOk result IsFirstReady }
{
    let settings = read_check_settings(alloc, value)?;
    Ok(FirstFrame::Check(settings))
}

fn admit_first(alloc: Global, value: &Value) -> Result<FirstFrame, ReadError>
    ensures exact { ReadsTo result (option_map first.Admit (admit_of (view value.now))) }
    ensures ready { IfOk result IsFirstReady }
{
    let settings = read_admit_settings(alloc, value)?;
    Ok(FirstFrame::Admit(settings))
}

// Reads a frame of this name.
fn first_named(alloc: Global, name: &str, value: &Value) -> Result<FirstFrame, ReadError>
    ensures exact { ReadsTo result (first_named name.now (view value.now)) }
    ensures ready { IfOk result IsFirstReady }
{
    match name {
        "settings" => image_first(alloc, value),
        "documents" => documents_first(alloc, value),
        "lockcheck" => lock_first(alloc, value),
        "blobs" => blobs_first(alloc, value),
        "copy" => copy_first(alloc, value),
        "carry" => carry_first(alloc, value),
        "check" => check_first(alloc, value),
        "admit" => admit_first(alloc, value),
        _ => Err(ReadError::Shape),
    }
}

/// Reads the first frame. Returns `Shape` if and only if the core does not do what it asks for.
#[tactic(auto, unfolding(crate::specs::First::first_of))]
pub(crate) fn read_first(alloc: Global, value: &Value) -> Result<FirstFrame, ReadError>
    ensures exact { ReadsTo result (first_of (view value.now)) }
    ensures ready { IfOk result IsFirstReady }
{
    let Some(Value::String(name)) = value.get("frame") else {
        return Err(ReadError::Shape);
    };
    first_named(alloc, name.as_str(), value)
}
