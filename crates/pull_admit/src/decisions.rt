// The decisions about the images of a review.
ghost use Rattle.std.specs.Prelude.{◌≡◌, ◌++◌, ℕ, List, [], ◌∷◌, All, false, Ok, Err, is_ok, IsOk, IfOk, OnOk};
ghost use Rattle.oci_link.specs.declared.shelf.Shelf.{Shelf};
ghost use Rattle.oci_names.specs.Reference.{reference_of};
ghost use Rattle.oci_protocol.specs.Runs.{Told};
ghost use Rattle.registry_cache.specs.Auths.{registry_auth};
ghost use Rattle.registry_calls.specs.Direct.{reference_in};
ghost use Rattle.cosign_client.specs.State.{client_state, trusts};
ghost use Rattle.cosign_rows.specs.Refusal.{is_memory};
ghost use Rattle.cosign_laws.specs.Shelves.{AnswersFrom};
ghost use Rattle.pull_admit.specs.Causes.{EachFaultCounted, HoldsNoMemory};
ghost use Rattle.pull_admit.specs.Complete.{EachAllowedIfThere, IsAtRegistry, SettledAt};
ghost use Rattle.pull_admit.specs.Confining.{EachConfined};
ghost use Rattle.pull_admit.specs.Decided.{Reviews, terms_by};
ghost use Rattle.pull_admit.specs.OneImage.{Decided, DecidedSoFar, Keeps, KeepsSoFar, OneMore};
ghost use Rattle.pull_admit.specs.OneImage.{decision_of, is_wanting, terms_in};
ghost use Rattle.pull_admit.specs.declared.decision.Decision.TheVariants.{Deny};
ghost use Rattle.pull_admit.specs.declared.decision.DenyCause.TheVariants.{NotAReference};
ghost use Rattle.pod_reviews.specs.declared.images.ReviewImage.{ReviewImage};

use crate::decision::{Decision, DenyCause};
use cosign_chain::VerifiedImage;
use cosign_client::{Client, image_in};
use cosign_layers::PullPolicy;
use cosign_parts::{Offline, SignatureVerifier};
use cosign_rows::PullRefusal;
use json_values::{Copied, List, Text};
use oci_names::{ParseError, Reference};
use oci_transport::Transport;
use pod_reviews::ReviewImage;
use sig_registry::{Auth, OciReference};
use std::alloc::{AllocError, Global};

// What each image is pulled with, beside the client.
#[derive(Drop)]
struct Pulling<'a, V, O> {
    moment: u64,
    auth: &'a Auth,
    accepted: &'a [Text],
    policy: &'a PullPolicy,
    verifier: &'a V,
    judge: &'a O,
}

// Whether a text parses as a reference.
fn is_reference(alloc: Global, text: &str) -> Result<bool, AllocError>
    ensures { IfOk result (λ b. b ≡ is_ok (reference_of text.now)) }
{
    match Reference::parse(alloc, text) {
        Ok(_) => Ok(true),
        Err(ParseError::WantOfMemory) => Err(AllocError),
        Err(ParseError::NameEmpty) => Ok(false),
        Err(ParseError::ReferenceInvalidFormat) => Ok(false),
        Err(ParseError::NameTooLong) => Ok(false),
        Err(ParseError::DigestUnsupported) => Ok(false),
        Err(ParseError::DigestInvalidLength) => Ok(false),
    }
}

// The decision that a refusal leads to, unless memory ran out.
fn refused(refusal: PullRefusal) -> Result<Decision, AllocError>
    ensures decision { IfOk result (λ d. d ≡ decision_of (Err refusal)) }
    ensures whole { OnOk result (is_memory refusal ≡ false) }
    ensures wanting { is_memory refusal ≡ false → IsOk result }
{
    if refusal.is_memory() {
        return Err(AllocError);
    }
    Ok(Decision::Deny(DenyCause::Refused(refusal)))
}

// The decision that a pull leads to, unless memory ran out.
fn decide(outcome: Result<VerifiedImage, PullRefusal>) -> Result<Decision, AllocError>
    ensures decision { IfOk result (λ d. d ≡ decision_of outcome) }
    ensures whole { OnOk result (is_wanting outcome ≡ false) }
{
    match outcome {
        Ok(image) => Ok(Decision::Allow(image)),
        Err(refusal) => refused(refusal),
    }
}

// The decision about a string that is not a reference.
fn unreadable(alloc: Global, text: &Text) -> Result<Decision, AllocError>
    ensures { IfOk result (λ d. d ≡ Deny (NotAReference text.now)) }
{
    let text = text.copy(alloc)?;
    Ok(Decision::Deny(DenyCause::NotAReference(text)))
}

// The decision about the image of a reference.
fn pull<T: Transport, V: SignatureVerifier, O: Offline>(
    alloc: Global,
    client: &mut Client,
    transport: &mut T,
    pulling: &Pulling<'_, V, O>,
    image: &OciReference,
) -> Result<Decision, AllocError>
    ensures decided { IfOk result (λ d. (x : ReviewImage) → reference_of x.image ≡ Ok (reference_in image.now)
        → Decided (terms_in V.valid O.vouched (λ b. accepts (b.vtable, b.value)) pulling.now
        client.old.rekor_pub_keys (client_state client.old).settings) x (T.state transport.old)
        (T.state transport.new) (client_state client.old).kept (client_state client.new).kept d) }
    ensures keeps { (x : ReviewImage) → reference_of x.image ≡ Ok (reference_in image.now)
        → Keeps (terms_in V.valid O.vouched (λ b. accepts (b.vtable, b.value)) pulling.now
        client.old.rekor_pub_keys (client_state client.old).settings) x (T.state transport.old)
        (T.state transport.new) (client_state client.old).kept (client_state client.new).kept }
    ensures settings { (client_state client.new).settings ≡ (client_state client.old).settings }
    ensures log_keys { client.new.rekor_pub_keys ≡ client.old.rekor_pub_keys }
{
    let outcome = client.verified_pull(
        alloc,
        transport,
        pulling.moment,
        image,
        pulling.auth,
        pulling.accepted,
        pulling.policy,
        pulling.verifier,
        pulling.judge,
    );
    decide(outcome)
}

// The decision about one image.
fn review_one<T: Transport, V: SignatureVerifier, O: Offline>(
    alloc: Global,
    client: &mut Client,
    transport: &mut T,
    pulling: &Pulling<'_, V, O>,
    image: &ReviewImage,
) -> Result<Decision, AllocError>
    ensures decided { IfOk result (λ d. Decided (terms_in V.valid O.vouched (λ b. accepts (b.vtable, b.value))
        pulling.now client.old.rekor_pub_keys (client_state client.old).settings) image.now (T.state transport.old)
        (T.state transport.new) (client_state client.old).kept (client_state client.new).kept d) }
    ensures keeps { Keeps (terms_in V.valid O.vouched (λ b. accepts (b.vtable, b.value))
        pulling.now client.old.rekor_pub_keys (client_state client.old).settings) image.now (T.state transport.old)
        (T.state transport.new) (client_state client.old).kept (client_state client.new).kept }
    ensures settings { (client_state client.new).settings ≡ (client_state client.old).settings }
    ensures log_keys { client.new.rekor_pub_keys ≡ client.old.rekor_pub_keys }
{
    let text = image.image.as_str();
    let parses = is_reference(alloc, text)?;
    if !parses {
        return unreadable(alloc, &image.image);
    }
    let reference = image_in(alloc, text)?;
    pull(alloc, client, transport, pulling, &reference)
}

// Adds a decision, and does nothing else: the list holds whole images.
fn push(decisions: &mut List<Decision>, decision: Decision) -> Result<(), AllocError>
    ensures { OnOk result (decisions.new ≡ decisions.old ++ decision ∷ []) }
{
    decisions.push(decision)?;
    Ok(())
}

// Adds the decision about one image.
fn review_next<T: Transport, V: SignatureVerifier, O: Offline>(
    alloc: Global,
    client: &mut Client,
    transport: &mut T,
    pulling: &Pulling<'_, V, O>,
    image: &ReviewImage,
    decisions: &mut List<Decision>,
) -> Result<(), AllocError>
    ensures decided { OnOk result (OneMore (terms_in V.valid O.vouched (λ b. accepts (b.vtable, b.value))
        pulling.now client.old.rekor_pub_keys (client_state client.old).settings) image.now (T.state transport.old)
        (T.state transport.new) (client_state client.old).kept (client_state client.new).kept
        decisions.old decisions.new) }
    ensures keeps { Keeps (terms_in V.valid O.vouched (λ b. accepts (b.vtable, b.value))
        pulling.now client.old.rekor_pub_keys (client_state client.old).settings) image.now (T.state transport.old)
        (T.state transport.new) (client_state client.old).kept (client_state client.new).kept }
    ensures settings { (client_state client.new).settings ≡ (client_state client.old).settings }
    ensures log_keys { client.new.rekor_pub_keys ≡ client.old.rekor_pub_keys }
{
    let decision = review_one(alloc, client, transport, pulling, image)?;
    push(decisions, decision)
}

// The decisions about all images, in order.
fn review_each<T: Transport, V: SignatureVerifier, O: Offline>(
    alloc: Global,
    client: &mut Client,
    transport: &mut T,
    pulling: &Pulling<'_, V, O>,
    images: &[ReviewImage],
) -> Result<List<Decision>, AllocError>
    ensures decided { IfOk result (λ ds. DecidedSoFar (terms_in V.valid O.vouched
        (λ b. accepts (b.vtable, b.value)) pulling.now client.old.rekor_pub_keys (client_state client.old).settings)
        images.now (T.state transport.old) (T.state transport.new) (client_state client.old).kept
        (client_state client.new).kept ds) }
    ensures keeps { KeepsSoFar (terms_in V.valid O.vouched (λ b. accepts (b.vtable, b.value)) pulling.now
        client.old.rekor_pub_keys (client_state client.old).settings) images.now (T.state transport.old)
        (T.state transport.new) (client_state client.old).kept (client_state client.new).kept }
    ensures settings { (client_state client.new).settings ≡ (client_state client.old).settings }
    ensures log_keys { client.new.rekor_pub_keys ≡ client.old.rekor_pub_keys }
{
    let mut decisions = List::new(alloc);
    for image in images {
        review_next(alloc, client, transport, pulling, image, &mut decisions)?;
    }
    Ok(decisions)
}

/// Decides about the images of a review, in order: each whose text is a reference is pulled as
/// `Client::verified_pull` does, by the client as the images before it left it, and is allowed if it was pulled. The
/// decisions are `NotAReference` for a string that is not a reference, for which no request is sent, and `Refused` for
/// an image that was not pulled. `moment` is in seconds since 1970.
///
/// Returns an error if memory runs out, and no decisions then.
pub fn review<'a, T: Transport, V: SignatureVerifier, O: Offline>(
    alloc: Global,
    client: &mut Client,
    transport: &mut T,
    moment: u64,
    auth: &Auth,
    accepted_media_types: &'a [Text],
    policy: &'a PullPolicy,
    verifier: &'a V,
    judge: &'a O,
    images: &[ReviewImage],
) -> Result<List<Decision>, AllocError>
    ensures reviewed { IfOk result (λ decisions. Reviews (terms_by policy.now (λ b. accepts (b.vtable, b.value))
        (trusts (V.valid verifier.now) (O.vouched judge.now) client.old) (client_state client.old).settings
        moment (registry_auth auth.now) accepted_media_types.now) images.now (T.state transport.old)
        (T.state transport.new) (client_state client.old).kept (client_state client.new).kept decisions) }
    ensures confined { Told (λ c. EachConfined (terms_by policy.now (λ b. accepts (b.vtable, b.value))
        (trusts (V.valid verifier.now) (O.vouched judge.now) client.old) (client_state client.old).settings
        moment (registry_auth auth.now) accepted_media_types.now) images.now (client_state client.old).kept c
        (client_state client.new).kept) (T.state transport.old) (T.state transport.new) }
    ensures fault { IfOk result (λ decisions.
        EachFaultCounted (T.state transport.old) (T.state transport.new) decisions) }
    ensures no_memory { IfOk result (λ decisions. All HoldsNoMemory decisions) }
    ensures completes { (shelf : Shelf) (registry : List ℕ) → AnswersFrom shelf (T.state transport.old)
        → All (IsAtRegistry registry) images.now
        → SettledAt (client_state client.old).settings registry (registry_auth auth.now) shelf
        (client_state client.old).kept
        → IfOk result (λ decisions. EachAllowedIfThere (terms_by policy.now (λ b. accepts (b.vtable, b.value))
        (trusts (V.valid verifier.now) (O.vouched judge.now) client.old) (client_state client.old).settings
        moment (registry_auth auth.now) accepted_media_types.now) shelf images.now decisions) }
    ensures settled { (shelf : Shelf) (registry : List ℕ) → AnswersFrom shelf (T.state transport.old)
        → All (IsAtRegistry registry) images.now
        → SettledAt (client_state client.old).settings registry (registry_auth auth.now) shelf
        (client_state client.old).kept
        → SettledAt (client_state client.old).settings registry (registry_auth auth.now) shelf
        (client_state client.new).kept }
    ensures settings { (client_state client.new).settings ≡ (client_state client.old).settings }
    ensures keys { client.new.rekor_pub_keys ≡ client.old.rekor_pub_keys }
{
    let pulling = Pulling {
        moment,
        auth,
        accepted: accepted_media_types,
        policy,
        verifier,
        judge,
    };
    review_each(alloc, client, transport, &pulling, images)
}
