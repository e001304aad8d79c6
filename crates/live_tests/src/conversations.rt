// A transport over what a host has written.
use crate::frames::source;
use byte_streams::{MemorySink, MemorySource};
use json_values::{Blob, List, Text};
use live_link::{Breach, StreamTransport};
use oci_transport::{AnswerHead, Headers, LinkError, Method, Request, Transport, read_body};
use std::alloc::{AllocError, Global};

type Memory = StreamTransport<MemorySource, MemorySink>;

const BODY: &[u8] = b"abc";

const TAG: &[u8] = b"x";

const ANSWERED: &[u8] = b"{\"frame\":\"answer\",\"status\":200,\"headers\":[[\"Etag\",\"x\"]]}\n\
{\"frame\":\"piece\",\"bytes\":2}\nab{\"frame\":\"piece\",\"bytes\":1}\nc{\"frame\":\"end\"}\n";

const SENT: &[u8] = b"{\"frame\":\"request\",\"headers\":[[\"accept\",\"*/*\"]],\"method\":\"GET\",\
\"url\":\"http://a/\"}\n\
{\"frame\":\"more\"}\n{\"frame\":\"more\"}\n{\"frame\":\"more\"}\n";

fn transport(alloc: Global, host: &[u8]) -> Result<Memory, AllocError> {
    let sink = MemorySink::new(alloc, List::new(alloc));
    Ok(StreamTransport::new(source(alloc, host)?, sink))
}

fn request(alloc: Global) -> Result<Request, AllocError> {
    let mut headers = Headers::new(alloc);
    let Ok(()) = headers.add("Accept", b"*/*") else {
        return Err(AllocError);
    };
    Ok(Request {
        method: Method::Get,
        url: Text::new(alloc, "http://a/")?,
        headers,
        body: Blob::empty(alloc),
    })
}

fn is_tag(value: Option<&[u8]>) -> bool {
    match value {
        Some(value) => value == TAG,
        None => false,
    }
}

fn is_head(answer: Result<AnswerHead, LinkError>) -> bool {
    match answer {
        Ok(head) => head.status == 200 && is_tag(head.headers.first("etag")),
        Err(_) => false,
    }
}

fn has_sent(transport: Memory, want: &[u8]) -> bool {
    let (_, sink) = transport.finish();
    sink.taken() == want
}

fn answers(alloc: Global) -> Result<bool, AllocError> {
    let mut transport = transport(alloc, ANSWERED)?;
    let head = transport.send(alloc, &request(alloc)?);
    let body = read_body(alloc, &mut transport, 3);
    let whole = match body {
        Ok(body) => body.as_slice() == BODY,
        Err(_) => false,
    };
    Ok(is_head(head) && whole && has_sent(transport, SENT))
}

// Whether a request fails over what the host wrote, and a further one too.
fn breaks(alloc: Global, host: &[u8], why: Breach) -> Result<bool, AllocError> {
    let mut transport = transport(alloc, host)?;
    let request = request(alloc)?;
    let first = matches!(transport.send(alloc, &request), Err(LinkError::Failed));
    let broken = transport.breach() == Some(why);
    let second = matches!(transport.send(alloc, &request), Err(LinkError::Failed));
    Ok(first && broken && second && transport.faults() == 2)
}

fn holds(answer: Result<bool, AllocError>) -> bool {
    match answer {
        Ok(holds) => holds,
        Err(_) => false,
    }
}

#[test]
fn a_request_is_answered_piece_by_piece(rt: HostRuntime) {
    assert!(rt; holds(answers(rt.alloc())));
}

#[test]
fn a_host_that_breaks_off_or_answers_out_of_turn_is_not_asked_again(rt: HostRuntime) {
    let alloc = rt.alloc();
    assert!(rt; holds(breaks(alloc, b"", Breach::Source)));
    assert!(rt; holds(breaks(alloc, b"{\"frame\":\"end\"}\n", Breach::Frame)));
    assert!(rt;
        holds(breaks(
            alloc,
            b"{\"frame\":\"piece\",\"bytes\":1}\na",
            Breach::Frame
        ))
    );
}
