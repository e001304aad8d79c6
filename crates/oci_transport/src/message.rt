// Requests, answers, and exchanges of both.
use crate::headers::Headers;
use json_values::{Blob, Copied, List, Text, copied};
use std::alloc::{AllocError, Global};

/// The method of a request.
#[derive(Clone, Copy, Debug, PartialEq, Eq)]
pub enum Method {
    Get,
    Head,
    Post,
    Put,
    Patch,
}

/// A request: its method, the text of its URL, its headers and its body.
#[derive(Drop)]
pub struct Request {
    pub method: Method,
    pub url: Text,
    pub headers: Headers,
    pub body: Blob,
}

/// The status and headers of an answer.
#[derive(Drop)]
pub struct AnswerHead {
    pub status: u16,
    pub headers: Headers,
}

/// A complete answer.
#[derive(Drop)]
pub struct Answer {
    pub status: u16,
    pub headers: Headers,
    pub body: Blob,
}

/// A request with its complete answer, or with none if the send failed, and the fault count when it was sent.
#[derive(Drop)]
pub struct Exchange {
    pub request: Request,
    pub answer: Option<Answer>,
    pub faults: u64,
}

/// Exchanges in order.
pub type Conversation = List<Exchange>;

impl Copied for Method {
    fn copy(&self, _alloc: Global) -> Result<Method, AllocError> {
        Ok(*self)
    }
}

impl Copied for Request {
    fn copy(&self, alloc: Global) -> Result<Request, AllocError> {
        copied!(
            alloc,
            self,
            Request {
                method,
                url,
                headers,
                body
            }
        )
    }
}

impl Copied for AnswerHead {
    fn copy(&self, alloc: Global) -> Result<AnswerHead, AllocError> {
        copied!(alloc, self, AnswerHead { status, headers })
    }
}

impl Copied for Answer {
    fn copy(&self, alloc: Global) -> Result<Answer, AllocError> {
        copied!(
            alloc,
            self,
            Answer {
                status,
                headers,
                body
            }
        )
    }
}

impl Copied for Exchange {
    fn copy(&self, alloc: Global) -> Result<Exchange, AllocError> {
        copied!(
            alloc,
            self,
            Exchange {
                request,
                answer,
                faults
            }
        )
    }
}
