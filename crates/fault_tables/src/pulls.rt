// Pulls over a shelf that fails.
use cosign_client::{Client, ClientBuilder, PullRefusal, VerifiedImage};
use cosign_layers::PullPolicy;
use cosign_parts::TableVerifier;
use json_values::{Blob, Copied, List};
use oci_link::{FaultyShelf, Shelf};
use oci_transport::Transport;
use pull_report::{drop_outcome, write_outcome};
use recorded_case::Case;
use sig_registry::{Auth, ClientConfig, ClientProtocol, OciReference};
use std::alloc::{AllocError, Global};

/// The arguments and the terms of each pull, and the shelf.
#[derive(Drop)]
pub struct Terms<'a> {
    pub case: &'a Case,
    pub shelf: &'a Shelf,
    pub image: OciReference,
    pub auth: Auth,
    pub policy: PullPolicy,
    pub verifier: TableVerifier,
}

/// The result of a pull: the number of requests and of faults, and the result as in a report.
#[derive(Drop)]
pub struct Pulled {
    pub requests: u64,
    pub faults: u64,
    pub lines: Blob,
}

fn fresh_client(alloc: Global) -> Result<Client, AllocError> {
    let mut config = ClientConfig::default();
    config.protocol = ClientProtocol::Http;
    ClientBuilder::new()
        .with_oci_client_config(config)
        .build(alloc)
}

fn lines_of(
    alloc: Global,
    outcome: &Result<VerifiedImage, PullRefusal>,
) -> Result<Blob, AllocError> {
    let mut lines = Blob::empty(alloc);
    write_outcome(alloc, &mut lines, outcome)?;
    Ok(lines)
}

// The result of a pull over this transport.
fn outcome_over(
    alloc: Global,
    terms: &Terms<'_>,
    transport: &mut FaultyShelf,
) -> Result<Blob, AllocError> {
    let mut client = fresh_client(alloc)?;
    let moment = terms.case.moments.as_slice().first().copied();
    let outcome = client.verified_pull(
        alloc,
        transport,
        moment.unwrap_or(0),
        &terms.image,
        &terms.auth,
        terms.case.accepted.as_slice(),
        &terms.policy,
        &terms.verifier,
        &terms.case.vouched,
    );
    let lines = lines_of(alloc, &outcome);
    drop_outcome(outcome);
    lines
}

/// Pulls with a new client over the shelf, which fails at these indexes of sends and of calls for a piece. Returns
/// `None` if a redirect of the shelf does not end.
pub fn pull_over(
    alloc: Global,
    terms: &Terms<'_>,
    sends: List<u64>,
    pieces: List<u64>,
) -> Result<Option<Pulled>, AllocError> {
    let shelf = terms.shelf.copy(alloc)?;
    if !shelf.redirects_lead(alloc)? {
        return Ok(None);
    }
    let mut transport = FaultyShelf::new(alloc, shelf, sends, pieces);
    let lines = outcome_over(alloc, terms, &mut transport)?;
    Ok(Some(Pulled {
        requests: transport.conversation().as_slice().len() as u64,
        faults: transport.faults(),
        lines,
    }))
}
