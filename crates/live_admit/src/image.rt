// The decision about an image by the rules.
ghost use Rattle.std.specs.Prelude.{◌≡◌, Err, IfErr, IsOk, Ok, OnOk, []};
ghost use Rattle.oci_names.specs.Reference.{reference_of};
ghost use Rattle.live_admit.specs.Covering.{place_of};
ghost use Rattle.live_admit.specs.Rules.{rule_for, IsFirstAt};
ghost use Rattle.pod_reviews.specs.declared.verdict.Denial.TheVariants.{NotAReference};
ghost use Rattle.pod_reviews.specs.declared.verdict.Verdict.TheVariants.{Denied};
ghost use Rattle.live_host.specs.HostErrors.{TellCause};
ghost use Rattle.live_host.specs.Wire.{wire, SendsFrame};
ghost use Rattle.live_admit.specs.Clients.{Gives, Leads, LeadsOne};
ghost use Rattle.live_admit.specs.Decided.{ByRule, ImageCut, ImageDecided, UnderRule, UnderRuleCut};
ghost use Rattle.live_admit.specs.Frames.{image_head as head_of_image};

use crate::clients::RuleClient;
use crate::decision::{Judged, decide};
use crate::frames::image_head;
use crate::settings::settings_for;
use crate::{Rule, index_for};
use byte_streams::{Sink, Source};
use json_values::{Copied, Text};
use live_host::{HostError, Streams, tell};
use live_pull::Status;
use oci_names::{ParseError, Reference};
use pod_reviews::{Denial, Verdict};
use std::alloc::Global;

// Sends which image is decided next.
fn tell_image<S: Source, K: Sink>(
    alloc: Global,
    streams: &mut Streams<S, K>,
    image: &Text,
    rule: &Text,
) -> Result<(), HostError>
    ensures told { OnOk result (SendsFrame (head_of_image image.now rule.now) []
        (wire S.state K.state streams.old) (wire S.state K.state streams.new)) }
    ensures cause { IfErr result (λ e. TellCause (head_of_image image.now rule.now, []) e
        (wire S.state K.state streams.old) (wire S.state K.state streams.new)) }
{
    let head = image_head(alloc, image, rule)?;
    tell(alloc, streams, &head, &[])?;
    Ok(())
}

fn ended<S, K>(streams: Streams<S, K>, status: Status) -> Judged<S, K>
    ensures { result ≡ record { streams = streams; verdict = Err status } }
{
    Judged {
        streams,
        verdict: Err(status),
    }
}

// The decision under a rule, by its client.
fn decide_under<S: Source, K: Sink>(
    alloc: Global,
    streams: Streams<S, K>,
    rule: &mut Rule<RuleClient>,
    moment: u64,
    image: &Text,
) -> Judged<S, K>
    requires { IsOk (reference_of image.now) }
    ensures { LeadsOne rule.old rule.new (λ before left v. UnderRule before left moment image.now v
        (wire S.state K.state streams) (wire S.state K.state result.streams))
        (λ before e. UnderRuleCut before moment image.now e
        (wire S.state K.state streams) (wire S.state K.state result.streams)) result.verdict }
{
    let mut streams = streams;
    if let Err(error) = tell_image(alloc, &mut streams, image, &rule.images) {
        return ended(streams, Status::from(error));
    }
    match settings_for(alloc, &rule.settings.settings, image, moment) {
        Ok(settings) => decide(alloc, streams, &mut rule.settings.client, settings),
        Err(_) => ended(streams, Status::WantOfMemory),
    }
}

// The decision under the rule at this index, which is the first that covers the reference.
fn decide_at<S: Source, K: Sink>(
    alloc: Global,
    streams: Streams<S, K>,
    rules: &mut Vec<Rule<RuleClient>>,
    at: usize,
    moment: u64,
    image: &Text,
    reference: &Reference,
) -> Judged<S, K>
    requires first { IsFirstAt rules.old.items (place_of reference.now) at }
    requires reads { reference_of image.now ≡ Ok reference.now }
    ensures { Leads rules.old.items rules.new.items (λ before after v.
        ByRule (rule_for before reference.now) (place_of reference.now) before after moment image.now v
        (wire S.state K.state streams) (wire S.state K.state result.streams))
        (λ before e. ImageCut before moment image.now e
        (wire S.state K.state streams) (wire S.state K.state result.streams)) result.verdict }
{
    match rules.get_mut(at) {
        Some(rule) => decide_under(alloc, streams, rule, moment, image),
        None => ended(streams, Status::WantOfMemory),
    }
}

fn deny<S, K>(streams: Streams<S, K>, cause: Denial) -> Judged<S, K>
    ensures { result ≡ record { streams = streams; verdict = Ok (Denied cause) } }
{
    Judged {
        streams,
        verdict: Ok(Verdict::Denied(cause)),
    }
}

// The decision about a reference.
fn decide_reference<S: Source, K: Sink>(
    alloc: Global,
    streams: Streams<S, K>,
    rules: &mut Vec<Rule<RuleClient>>,
    moment: u64,
    image: &Text,
    reference: &Reference,
) -> Judged<S, K>
    requires { reference_of image.now ≡ Ok reference.now }
    ensures { Leads rules.old.items rules.new.items (λ before after v.
        ByRule (rule_for before reference.now) (place_of reference.now) before after moment image.now v
        (wire S.state K.state streams) (wire S.state K.state result.streams))
        (λ before e. ImageCut before moment image.now e
        (wire S.state K.state streams) (wire S.state K.state result.streams)) result.verdict }
{
    match index_for(alloc, rules.as_slice(), reference) {
        Ok(Some(at)) => decide_at(alloc, streams, rules, at, moment, image, reference),
        Ok(None) => deny(streams, Denial::NoRule),
        Err(_) => ended(streams, Status::WantOfMemory),
    }
}

// A text that is not a reference.
fn deny_text<S: Source, K: Sink>(
    alloc: Global,
    streams: Streams<S, K>,
    image: &Text,
) -> Judged<S, K>
    ensures { Gives (λ v. (v ≡ Denied (NotAReference image.now))
        × (wire S.state K.state streams ≡ wire S.state K.state result.streams)) (λ e. ⊥) result.verdict }
{
    match image.copy(alloc) {
        Ok(text) => deny(streams, Denial::NotAReference(text)),
        Err(_) => ended(streams, Status::WantOfMemory),
    }
}

/// Decides about an image under the first rule that covers it, by this rule's client. Nothing is sent for a text that
/// is not a reference, nor without a rule.
pub(crate) fn decide_image<S: Source, K: Sink>(
    alloc: Global,
    streams: Streams<S, K>,
    rules: &mut Vec<Rule<RuleClient>>,
    moment: u64,
    image: &Text,
) -> Judged<S, K>
    ensures { Leads rules.old.items rules.new.items (λ before after v.
        ImageDecided before after moment image.now v
        (wire S.state K.state streams) (wire S.state K.state result.streams))
        (λ before e. ImageCut before moment image.now e
        (wire S.state K.state streams) (wire S.state K.state result.streams)) result.verdict }
{
    match Reference::parse(alloc, image.as_str()) {
        Ok(reference) => decide_reference(alloc, streams, rules, moment, image, &reference),
        Err(ParseError::WantOfMemory) => ended(streams, Status::WantOfMemory),
        Err(ParseError::NameEmpty) => deny_text(alloc, streams, image),
        Err(ParseError::ReferenceInvalidFormat) => deny_text(alloc, streams, image),
        Err(ParseError::NameTooLong) => deny_text(alloc, streams, image),
        Err(ParseError::DigestUnsupported) => deny_text(alloc, streams, image),
        Err(ParseError::DigestInvalidLength) => deny_text(alloc, streams, image),
    }
}
