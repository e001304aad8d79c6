// A registry in memory.
use crate::headers::holds;
use crate::scripts::{is_sent, length};
use crate::urls::request;
use json_values::{Annotations, Blob, Copied, List, Text, TextMap};
use oci_link::{
    Answer, BodyError, FaultyShelf, Method, Shelf, ShelfDocument, ShelfTransport, Transport, answer,
};
use std::alloc::{AllocError, Global};

const BLOB: &str = "http://a/v2/app/blobs/sha256:b";

fn empty(alloc: Global) -> Result<Shelf, AllocError> {
    Ok(Shelf {
        repository: Text::new(alloc, "app")?,
        tags: Annotations::new(alloc),
        documents: TextMap::new(alloc),
        blobs: TextMap::new(alloc),
        referrers: TextMap::new(alloc),
        redirects: Annotations::new(alloc),
    })
}

// A shelf with one blob of this content.
fn with_blob(alloc: Global, content: Blob) -> Result<Shelf, AllocError> {
    let mut shelf = empty(alloc)?;
    shelf.blobs.insert(Text::new(alloc, "sha256:b")?, content)?;
    Ok(shelf)
}

// A shelf with one tag of one document, and the list of its referrers.
fn with_document(alloc: Global) -> Result<Shelf, AllocError> {
    let mut shelf = empty(alloc)?;
    let media_type = Text::new(alloc, "text/m")?;
    let content = Blob::new(alloc, b"document")?;
    let document = ShelfDocument {
        media_type,
        content,
    };
    shelf
        .documents
        .insert(Text::new(alloc, "sha256:m")?, document)?;
    shelf
        .tags
        .insert(Text::new(alloc, "v1")?, Text::new(alloc, "sha256:m")?)?;
    shelf
        .referrers
        .insert(Text::new(alloc, "sha256:m")?, Blob::new(alloc, b"list")?)?;
    Ok(shelf)
}

fn is_header(given: &Answer, name: &str, want: &[u8]) -> bool {
    match given.headers.first(name) {
        Some(value) => value == want,
        None => false,
    }
}

fn asked(alloc: Global, method: Method, url: &str) -> Result<Answer, AllocError> {
    let shelf = with_document(alloc)?;
    let asked = request(alloc, method, url)?;
    answer(alloc, &shelf, &asked)
}

fn document_is_served(alloc: Global, method: Method, body: &[u8]) -> Result<bool, AllocError> {
    let given = asked(alloc, method, "http://a/v2/app/manifests/v1")?;
    let named = is_header(&given, "docker-content-digest", b"sha256:m");
    let typed = is_header(&given, "content-type", b"text/m");
    Ok(given.status == 200 && named && typed && given.body.as_slice() == body)
}

fn is_answered(
    alloc: Global,
    method: Method,
    url: &str,
    status: u16,
    body: &[u8],
) -> Result<bool, AllocError> {
    let given = asked(alloc, method, url)?;
    let copy = given.copy(alloc)?;
    Ok(copy.status == status && copy.body.as_slice() == body)
}

#[test]
fn a_shelf_answers_for_what_is_there(rt: HostRuntime) {
    let list = "http://a/v2/app/referrers/sha256:m";
    assert!(rt; holds(document_is_served(rt.alloc(), Method::Get, b"document")));
    assert!(rt; holds(document_is_served(rt.alloc(), Method::Head, b"")));
    assert!(rt; holds(is_answered(rt.alloc(), Method::Get, list, 200, b"list")));
    assert!(rt; holds(is_answered(rt.alloc(), Method::Get, "http://a/v2/", 200, b"")));
}

#[test]
fn all_else_is_not_found(rt: HostRuntime) {
    for url in [
        "http://a/v2/app/manifests/v2",
        "http://a/v2/other/manifests/v1",
        "http://a/v2/app/blobs/sha256:m",
        "http://a/v1/",
        "a/v2/",
    ] {
        assert!(rt;
            holds(is_answered(rt.alloc(), Method::Get, url, 404, b"")),
            "{url}"
        );
    }
    assert!(rt; holds(is_answered(rt.alloc(), Method::Put, "http://a/v2/", 404, b"")));
}

// Whether one redirect leads.
fn leads(alloc: Global, name: &str, value: &str) -> Result<bool, AllocError> {
    let mut shelf = empty(alloc)?;
    shelf
        .redirects
        .insert(Text::new(alloc, name)?, Text::new(alloc, value)?)?;
    let copy = shelf.copy(alloc)?;
    copy.redirects_lead(alloc)
}

#[test]
fn redirects_lead_where_they_end_at_the_same_path(rt: HostRuntime) {
    assert!(rt; holds(leads(rt.alloc(), "http://a/x?y", "http://b/x")));
    assert!(rt; !holds(leads(rt.alloc(), "http://a/x", "http://b/y")));
    assert!(rt; !holds(leads(rt.alloc(), "http://a/x", "ftp://b/x")));
}

fn long_blob(alloc: Global) -> Result<Shelf, AllocError> {
    let bytes = vec![in alloc; 7; 65537]?;
    with_blob(alloc, Blob::from_vec(bytes))
}

fn piece_length(alloc: Global, transport: &mut ShelfTransport) -> Option<usize> {
    match transport.piece(alloc) {
        Ok(piece) => Some(piece.as_slice().len()),
        Err(_) => None,
    }
}

fn comes_in_pieces(alloc: Global) -> Result<bool, AllocError> {
    let shelf = long_blob(alloc)?;
    if !shelf.redirects_lead(alloc)? {
        return Ok(false);
    }
    let mut transport = ShelfTransport::new(alloc, shelf);
    let sent = is_sent(alloc, &mut transport, BLOB, 200);
    let first = piece_length(alloc, &mut transport) == Some(65536);
    let second = piece_length(alloc, &mut transport) == Some(1);
    let end = piece_length(alloc, &mut transport) == Some(0);
    Ok(sent && first && second && end)
}

#[test]
fn a_body_comes_in_pieces_of_65536_bytes(rt: HostRuntime) {
    assert!(rt; holds(comes_in_pieces(rt.alloc())));
}

fn first(alloc: Global) -> Result<List<u64>, AllocError> {
    let mut numbers = List::new(alloc);
    numbers.push(0u64)?;
    Ok(numbers)
}

// The first send and the first call for a piece fail.
fn fails_twice(alloc: Global) -> Result<bool, AllocError> {
    let shelf = with_blob(alloc, Blob::new(alloc, b"blob")?)?;
    if !shelf.redirects_lead(alloc)? {
        return Ok(false);
    }
    let sends = first(alloc)?;
    let pieces = first(alloc)?;
    let mut transport = FaultyShelf::new(alloc, shelf, sends, pieces);
    let unsent = !is_sent(alloc, &mut transport, BLOB, 200);
    let sent = is_sent(alloc, &mut transport, BLOB, 200);
    let broken = length(alloc, &mut transport, 9) == Err(BodyError::TransportFault);
    let again = is_sent(alloc, &mut transport, BLOB, 200);
    let whole = length(alloc, &mut transport, 9) == Ok(4);
    Ok(unsent && sent && broken && again && whole && transport.faults() == 2)
}

#[test]
fn a_faulty_shelf_fails_where_it_is_told(rt: HostRuntime) {
    assert!(rt; holds(fails_twice(rt.alloc())));
}
